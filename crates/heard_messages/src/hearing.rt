//! The reading side of a connection, fed piece by piece. It knows nothing of where the bytes come from, nor of what becomes of the calls.
ghost use Rattle.std.specs.Prelude.{◌≡◌, ◌+◌, ◌<◌, ◌^◌, length, IfOk};
ghost use Rattle.orb_base.specs.declared.limits.TheConstants.{MAX_MESSAGE};
ghost use Rattle.giop_frames.specs.Stream.{stream};
ghost use Rattle.heard_messages.specs.Hearers as Spec;
ghost use Rattle.heard_messages.specs.ReadEnds as Ends;

use crate::framing::frame;
use crate::heard::{Heard, hear};
use crate::judge::Judge;
use crate::read_end::{ReadEnd, decided, input_end};
use giop_frames::Framer;
use orb_base::limits::MAX_MESSAGE;
use orb_base::{NoMemory, Told};
use std::alloc::Global;
use std::marker::Model;

/// Hears a connection by a judge: takes its bytes in whatever pieces they come, and gives the calls of the messages that each piece
/// completes. It keeps what the framer keeps, what is settled, and the number of the calls.
#[derive(Drop)]
pub struct Hearing<'a, J: Judge> {
    judge: &'a J,
    framer: Framer,
    bound: J::Bound,
    made: u32,
    calls: Told<J::Call>,
}

impl<'a, J: Judge> Model for Hearing<'a, J> {
    ghost use Rattle.heard_messages.specs.Hearers.{Hearer};

    ghost Value = { Hearer J J.Bound J.Call };

    ghost view = { λ h. record {
      judge = h.judge.now;
      framer = h.framer;
      bound = h.bound;
      made = h.made;
      calls = h.calls.items;
    } };
}

impl<'a, J: Judge> Hearing<'a, J> {
    /// Hears a connection from its first byte on. Takes the memory of a framer.
    pub fn new(alloc: Global, judge: &'a J) -> Result<Hearing<'a, J>, NoMemory>
        ensures { IfOk result (Spec.IsNew J.first J.means judge.now) }
    {
        Ok(Hearing {
            judge,
            framer: Framer::new(alloc, MAX_MESSAGE)?,
            bound: judge.begin(),
            made: 0,
            calls: Told::new(),
        })
    }

    /// Hears one more piece: the calls of the messages that it completes, up to the one that ends the reading, if one does. After such an
    /// ending, and once it was out of memory, nothing more can be heard. Memory grows with the messages that the piece completes; the work
    /// is that of framing and hearing.
    pub fn feed(&mut self, alloc: Global, piece: &[u8]) -> Result<Heard<J::Call>, NoMemory>
        requires going { Spec.IsGoing J.first J.means self.old }
        requires few { length self.old.framer.fed + length piece.now < 2 ^ 32 }
        ensures { IfOk result (λ heard. Spec.FeedsOn J.first J.means self.old self.new piece.now heard.calls.items heard.ending) }
    {
        let framed = frame(alloc, &mut self.framer, piece)?;
        let messages = framed.messages.as_slice();
        let heard = hear(alloc, self.judge, &mut self.bound, self.made, messages)?;
        self.made += heard.calls.len() as u32;
        self.calls = self.calls.and(heard.calls.as_slice());
        Ok(Heard {
            calls: heard.calls,
            ending: decided(heard.ending, framed.bad),
        })
    }

    /// How the reading ends where the input ends here.
    pub fn at_end(&self) -> ReadEnd
        requires { Spec.IsGoing J.first J.means self.now }
        ensures { result ≡ Ends.input_end (stream MAX_MESSAGE self.now.framer.fed).rest }
    {
        input_end(self.framer.rest())
    }
}
