//! What the messages of a connection mean, in their order.
ghost use Rattle.std.specs.Prelude.{◌≡◌, ◌+◌, ◌<◌, ◌^◌, ◌++◌, length, option_to_list, IfOk};
ghost use Rattle.std.specs.List.{All};
ghost use Rattle.giop_messages.specs.MessageReading.{IsMessage};
ghost use Rattle.heard_calls.specs.Hearing as Spec;

use crate::ending::Ending;
use crate::meaning::meaning_of;
use crate::means::Means;
use adapter_policies::Setup;
use giop_frames::Whole;
use lane_machine::LaneCall;
use orb_base::{Band, ConnId, List, NoMemory};
use std::alloc::Global;
use std::marker::Model;

/// What messages of a connection mean.
#[derive(Drop)]
pub struct Heard {
    /// Their calls, in order.
    pub calls: List<LaneCall>,
    /// The band that is bound after them, if one is.
    pub band: Option<Band>,
    /// How one of them ended the reading, if one did.
    pub ending: Option<Ending>,
}

impl Model for Heard {
    ghost use Rattle.heard_calls.specs.Hearing.{Told};

    ghost Value = { Told };

    ghost view = { λ h. record { calls = h.calls.items; band = h.band; ending = h.ending } };
}

impl Heard {
    /// Nothing yet, where this band is bound.
    fn new(alloc: Global, band: Option<Band>) -> Heard
        ensures { result ≡ Spec.nothing band None }
    {
        Heard {
            calls: List::new(alloc),
            band,
            ending: None,
        }
    }

    /// Puts a call after the others, if there is one, where this band is bound after it.
    fn add(&mut self, call: Option<LaneCall>, band: Option<Band>) -> Result<(), NoMemory>
        ensures { IfOk result (λ u. self.new ≡ Spec.followed self.old call band) }
    {
        self.band = band;
        let Some(call) = call else {
            return Ok(());
        };
        match self.calls.push(call) {
            Ok(()) => Ok(()),
            Err(_) => Err(NoMemory),
        }
    }

    /// What is heard with one message more, where `serial` calls were made before the first.
    fn take(
        &mut self,
        alloc: Global,
        setup: &Setup,
        conn: ConnId,
        serial: u32,
        message: &Whole,
    ) -> Result<(), NoMemory>
        requires message { IsMessage message.now }
        requires few { serial + length self.old.calls < 2 ^ 32 }
        ensures { IfOk result (λ u. Spec.Takes setup.now conn serial message.now self.old self.new) }
    {
        let number = serial + self.calls.len() as u32;
        match meaning_of(alloc, setup, conn, self.band, number, message)? {
            Means::Goes { band, call } => self.add(call, band)?,
            Means::Ends => self.ending = Some(Ending::Ended),
            Means::Breaks(fault) => {
                let offset = message.at;
                self.ending = Some(Ending::Broken { offset, fault });
            }
        }
        Ok(())
    }

    /// The same where no message ended the reading; else nothing more is heard.
    fn go_on(
        &mut self,
        alloc: Global,
        setup: &Setup,
        conn: ConnId,
        serial: u32,
        message: &Whole,
    ) -> Result<(), NoMemory>
        requires message { IsMessage message.now }
        requires few { serial + length self.old.calls < 2 ^ 32 }
        ensures { IfOk result (λ u. Spec.TakesBy self.old.ending setup.now conn serial message.now self.old self.new) }
    {
        match self.ending {
            None => self.take(alloc, setup, conn, serial, message),
            Some(_) => Ok(()),
        }
    }
}

/// What messages of a connection mean to a server of a setup, where `band` is bound before them and `serial` calls were made: their
/// calls up to the first message that ends the reading. Memory and work grow with their bytes, and with what `judge` takes for
/// each request.
pub fn hear(
    alloc: Global,
    setup: &Setup,
    conn: ConnId,
    band: Option<Band>,
    serial: u32,
    messages: &[Whole],
) -> Result<Heard, NoMemory>
    requires messages { All IsMessage messages.now }
    requires few { serial + length messages.now < 2 ^ 32 }
    ensures { IfOk result (Spec.Hears setup.now conn messages.now band serial) }
{
    let mut heard = Heard::new(alloc, band);
    for message in messages {
        heard.go_on(alloc, setup, conn, serial, message)?;
    }
    Ok(heard)
}
