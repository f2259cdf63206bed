//! Priorities, bands and models within an encapsulation.
ghost use Rattle.std.specs.Prelude.{◌≡◌};
ghost use Rattle.service_contexts.specs.Carrying.{CarriesPriority, CarriesBand};
ghost use Rattle.service_contexts.specs.Laws.{IsExactly};
ghost use Rattle.service_contexts.specs.Moves.{Moves};
ghost use Rattle.service_contexts.specs.Reading.{priority_at, band_at, model_at, carried};

use cdr_core::Reader;
use orb_base::{Band, Priority, PriorityModel};

/// Takes a priority: a short that isn't negative.
#[tactic(auto, unfolding(crate::specs::Reading::priority_at))]
pub fn take_priority(reader: &mut Reader<'_>) -> Option<Priority>
    ensures { Moves result reader.new (priority_at reader.old) }
{
    let short = reader.take_u16().ok()?;
    Priority::new(i16::try_from(short).ok()?)
}

/// Takes a band: its low end and then its high end.
#[tactic(auto, unfolding(crate::specs::Reading::band_at))]
pub fn take_band(reader: &mut Reader<'_>) -> Option<Band>
    ensures { Moves result reader.new (band_at reader.old) }
{
    let low = take_priority(reader)?;
    let high = take_priority(reader)?;
    Band::new(low, high)
}

/// Takes the number of a priority model and a priority.
#[tactic(auto, unfolding(crate::specs::Reading::model_at))]
pub fn take_model(reader: &mut Reader<'_>) -> Option<(PriorityModel, Priority)>
    ensures { Moves result reader.new (model_at reader.old) }
{
    let number = reader.take_u32().ok()?;
    let model = PriorityModel::of_number(number)?;
    let priority = take_priority(reader)?;
    Some((model, priority))
}

/// The content of a context RTCorbaPriority. None exactly where it has no reading.
#[tactic(auto, unfolding(crate::specs::Reading::carried))]
pub fn read_priority(bytes: &[u8]) -> Option<Priority>
    ensures exact { result ≡ carried priority_at bytes.now }
    ensures carries { IsExactly result (λ level. CarriesPriority level bytes.now) }
{
    let mut reader = Reader::encapsulated(bytes).ok()?;
    take_priority(&mut reader)
}

/// The content of a context RTCorbaPriorityRange. None exactly where it has no reading.
#[tactic(auto, unfolding(crate::specs::Reading::carried))]
pub fn read_band(bytes: &[u8]) -> Option<Band>
    ensures exact { result ≡ carried band_at bytes.now }
    ensures carries { IsExactly result (λ band. CarriesBand band bytes.now) }
{
    let mut reader = Reader::encapsulated(bytes).ok()?;
    take_band(&mut reader)
}
