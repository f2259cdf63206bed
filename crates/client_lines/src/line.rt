//! A client's connection, as it is read.
ghost use Rattle.std.specs.Prelude.{◌≡◌, ◌+◌, ◌≤◌, None, [], length, IfOk, OnOk};
ghost use Rattle.heard_messages.specs.declared.read_end.TheConstants.{MAX_TAKEN};
ghost use Rattle.client_lines.specs.Lines as Spec;

use crate::answer::Answer;
use crate::caller::Caller;
use crate::next::Next;
use heard_messages::{Hearing, MAX_TAKEN, READ_LEN, ReadEnd};
use orb_base::{Got, List, NoMemory, Source, Told};
use std::alloc::Global;
use std::marker::Model;

/// The connection of a client, as far as it was read.
#[derive(Drop)]
pub struct Line<'a> {
    hearing: Hearing<'a, Caller>,
    given: Told<Answer>,
    waiting: List<Answer>,
    ending: Option<ReadEnd>,
    taken: usize,
}

impl<'a> Model for Line<'a> {
    ghost use Rattle.client_lines.specs.Lines as Spec;

    ghost Value = { Spec.Line };

    ghost view = { λ l. record {
      hearer = l.hearing;
      given = l.given.items;
      waiting = l.waiting.items;
      ending = l.ending;
      taken = l.taken;
    } };
}

impl<'a> Line<'a> {
    /// A connection of which nothing was read. Takes the memory of a framer.
    pub fn new(alloc: Global, caller: &'a Caller) -> Result<Line<'a>, NoMemory>
        ensures { IfOk result (Spec.IsNew caller.now.binds) }
    {
        Ok(Line {
            hearing: Hearing::new(alloc, caller)?,
            given: Told::new(),
            waiting: List::new(alloc),
            ending: None,
            taken: 0,
        })
    }

    /// Hears one more piece.
    fn hear(&mut self, alloc: Global, piece: &[u8]) -> Result<(), NoMemory>
        requires heard { Spec.IsHeard self.old }
        requires none { self.old.waiting ≡ [] }
        requires going { self.old.ending ≡ None }
        requires few { self.old.taken + length piece.now ≤ MAX_TAKEN }
        ensures { OnOk result (Spec.HeardMore self.old self.new piece.now) }
    {
        let heard = self.hearing.feed(alloc, piece)?;
        self.taken += piece.len();
        self.waiting = heard.calls;
        self.ending = heard.ending;
        Ok(())
    }

    /// Reads once, unless the reading came out before: how it comes out, if it does.
    fn read<I: Source>(
        &mut self,
        alloc: Global,
        source: &mut I,
    ) -> Result<Option<ReadEnd>, NoMemory>
        requires heard { Spec.IsHeard self.old }
        requires none { self.old.waiting ≡ [] }
        ensures { Spec.Reads result self.old self.new (I.state source.old) (I.state source.new) }
    {
        if let Some(ending) = self.ending {
            return Ok(Some(ending));
        }
        if self.taken >= MAX_TAKEN {
            return Ok(Some(ReadEnd::Spent));
        }
        let mut piece = [0u8; READ_LEN];
        let space = piece.len().min(MAX_TAKEN - self.taken);
        match source.read(&mut piece[..space]) {
            Got::Bytes(n) => {
                let bytes = &piece[..n];
                self.hear(alloc, bytes)?;
                Ok(None)
            }
            Got::End => Ok(Some(self.hearing.at_end())),
            Got::Failed => Ok(Some(ReadEnd::ReadFault)),
        }
    }

    /// Gives out the first answer that waits.
    fn give(&mut self) -> Answer
        requires some { 1 ≤ length self.old.waiting }
        requires heard { Spec.IsHeard self.old }
        ensures { Spec.Gives self.old self.new result }
    {
        self.given = self.given.and(&self.waiting.as_slice()[..1]);
        self.waiting.remove(0)
    }

    /// The next answer: one that waits, or else the first that reads bring. Reads `READ_LEN` bytes at a time at most, and nothing more
    /// once an answer is there, the bytes end the reading, the input ended, or `MAX_TAKEN` bytes were taken.
    #[tactic(auto, using(crate::proofs::LineLaws::on_start, crate::proofs::LineLaws::on_on, crate::proofs::LineLaws::on_over, crate::proofs::LineLaws::on_lacks, crate::proofs::LineLaws::gives_out))]
    pub fn next<I: Source>(&mut self, alloc: Global, source: &mut I) -> Result<Next, NoMemory>
        requires heard { Spec.IsHeard self.old }
        ensures { Spec.Nexts result self.old self.new (I.state source.old) (I.state source.new) }
    {
        while self.waiting.is_empty() {
            if let Some(end) = self.read(alloc, source)? {
                return Ok(Next::Over(end));
            }
        }
        Ok(Next::Answers(self.give()))
    }
}
