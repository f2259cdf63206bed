//! The value of a priority banded connection policy.
ghost use Rattle.std.specs.Prelude.{◌≡◌, ◌<◌, ◌^◌, ◌∷◌, [], length, IfOk, List};
ghost use Rattle.std.specs.List.{flat_map};
ghost use Rattle.std.specs.Option.{option_map};
ghost use Rattle.std.specs.Result.{result_ok};
ghost use Rattle.std.specs.Int.{w8, w32};
ghost use Rattle.cdr_core.specs.Encapsulation.{encapsulation};
ghost use Rattle.cdr_core.specs.Field.{number};
ghost use Rattle.cdr_core.specs.Sequence.{times};
ghost use Rattle.cdr_core.specs.Writing.{Puts};
ghost use Rattle.orb_base.specs.Span.{Span};
ghost use Rattle.orb_base.specs.declared.order.Order.TheVariants.{Big};
ghost use Rattle.service_contexts.specs.Carrying.{CarriesBands};
ghost use Rattle.service_contexts.specs.Laws.{IsExactly};
ghost use Rattle.service_contexts.specs.Layout.{band_fields, bands_fields};
ghost use Rattle.service_contexts.specs.Moves.{Moves, items_of};
ghost use Rattle.service_contexts.specs.Reading.{band_at, bands_at, carried, or_refused};

use crate::read::take_band;
use cdr_core::{Reader, Writer};
use orb_base::{Band, NoMemory, Octets, Order};
use std::alloc::Global;

/// The value of a priority banded connection policy, big endian: the encapsulation of the number of bands and of each
/// band's low and high end as shorts. Work grows with the number of bands. Own profile.
pub fn bands_policy(alloc: Global, bands: &[Band]) -> Result<Octets, NoMemory>
    requires { length bands.now < 2 ^ 32 }
    ensures { IfOk result (λ octets. octets.items ≡ encapsulation Big (bands_fields bands.now)) }
{
    let mut into = Writer::new(alloc, Order::Big, 0);
    into.put_u8(0)?;
    into.put_u32(bands.len() as u32)?;
    put_bands(&mut into, bands)?;
    Ok(into.finish())
}

/// Puts a band: its low and its high end.
fn put_band(into: &mut Writer, band: Band) -> Result<(), NoMemory>
    ensures { Puts result into.old into.new (band_fields band) }
{
    into.put_u16(band.low().level())?;
    into.put_u16(band.high().level())
}

/// Puts one band after the other.
fn put_bands(into: &mut Writer, bands: &[Band]) -> Result<(), NoMemory>
    ensures { Puts result into.old into.new (flat_map band_fields bands.now) }
{
    for band in bands {
        put_band(into, *band)?;
    }
    Ok(())
}

/// The bands that the value of a priority banded connection policy carries, in either byte order. Ok(None) exactly
/// where the bytes have no reading; bytes after are ignored. Takes memory for the bands alone, as they are read. Work
/// grows with their number.
#[tactic(auto, unfolding(crate::specs::Reading::carried))]
pub fn read_bands_policy(
    alloc: Global,
    bytes: &[u8],
) -> Result<Option<orb_base::List<Band>>, NoMemory>
    ensures exact { IfOk result (λ bands. option_map items_of bands ≡ carried bands_at bytes.now) }
    ensures carries { IfOk result (λ bands.
        IsExactly (option_map items_of bands) (λ spans. CarriesBands spans bytes.now)) }
{
    match Reader::encapsulated(bytes) {
        Ok(mut reader) => take_bands(alloc, &mut reader),
        Err(_) => Ok(None),
    }
}

/// Takes bands after their number.
#[tactic(auto, unfolding(crate::specs::Reading::bands_at))]
fn take_bands(
    alloc: Global,
    reader: &mut Reader<'_>,
) -> Result<Option<orb_base::List<Band>>, NoMemory>
    ensures { IfOk result (λ bands.
        Moves (option_map items_of bands) reader.new (bands_at reader.old)) }
{
    match reader.take_count() {
        Ok(count) => take_so_many(alloc, count, reader),
        Err(_) => Ok(None),
    }
}

/// Takes so many bands.
fn take_so_many(
    alloc: Global,
    count: u32,
    reader: &mut Reader<'_>,
) -> Result<Option<orb_base::List<Band>>, NoMemory>
    ensures { IfOk result (λ bands.
        Moves (option_map items_of bands) reader.new (result_ok (times (or_refused band_at) count reader.old))) }
{
    let mut bands = orb_base::List::new(alloc);
    for _ in 0..count {
        match take_band(reader) {
            Some(band) => match bands.push(band) {
                Ok(()) => {}
                Err(_) => return Err(NoMemory),
            },
            None => return Ok(None),
        }
    }
    Ok(Some(bands))
}
