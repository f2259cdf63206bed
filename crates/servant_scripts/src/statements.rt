//! What labels do to statements, methods and servants.
ghost use Rattle.std.specs.Prelude.{◌≡◌, map, OnOk};
ghost use Rattle.idl_tokens.specs.Placed.{seen};
ghost use Rattle.servant_scripts.specs.Drafts as Spec;
ghost use Rattle.servant_scripts.specs.DraftView.{draft_of};
ghost use Rattle.servant_scripts.specs.Views.{say_of, says_view};

use crate::blanks::{no_part, no_place, place_of};
use crate::draft::Draft;
use crate::stack::Stack;
use crate::takes::{take_block, take_fields, take_name, take_phrase};
use crate::{Line, Method, Servant};
use idl_tokens::Token;
use orb_base::NoMemory;
use std::alloc::Global;

/// Puts a statement into the newest block.
fn put_line(blocks: &mut Stack<Vec<Line>>, alloc: Global, line: Line) -> Result<(), NoMemory>
    ensures { OnOk result (map says_view blocks.new ≡ Spec.with_line (say_of line) (map says_view blocks.old)) }
{
    let mut block = take_block(blocks, alloc);
    block.push(line)?;
    blocks.push(block)
}

impl Draft {
    /// Opens a block.
    pub fn open_block(&mut self) -> Result<(), NoMemory>
        ensures { OnOk result (draft_of self.new ≡ Spec.open_block (draft_of self.old)) }
    {
        self.blocks.push(Vec::new(self.alloc))
    }

    /// Makes the newest expression the value of the variable that waits.
    pub fn end_let(&mut self) -> Result<(), NoMemory>
        ensures { OnOk result (draft_of self.new ≡ Spec.end_let (draft_of self.old)) }
    {
        let at = self.places.pop_or(no_place());
        let name = self.waiting.pop_or(no_part(self.alloc));
        let value = take_phrase(&mut self.phrases, self.alloc);
        put_line(&mut self.blocks, self.alloc, Line::Let(at, name, value))
    }

    /// Sets the parameter that waits to the newest expression.
    pub fn end_set(&mut self) -> Result<(), NoMemory>
        ensures { OnOk result (draft_of self.new ≡ Spec.end_set (draft_of self.old)) }
    {
        let name = self.waiting.pop_or(no_part(self.alloc));
        let value = take_phrase(&mut self.phrases, self.alloc);
        put_line(&mut self.blocks, self.alloc, Line::Set(name, value))
    }

    /// Makes the two newest blocks those of a choice by the newest expression.
    pub fn end_if(&mut self) -> Result<(), NoMemory>
        ensures { OnOk result (draft_of self.new ≡ Spec.end_if (draft_of self.old)) }
    {
        let condition = take_phrase(&mut self.phrases, self.alloc);
        let otherwise = take_block(&mut self.blocks, self.alloc);
        let taken = take_block(&mut self.blocks, self.alloc);
        let line = Line::If(condition, taken, otherwise);
        put_line(&mut self.blocks, self.alloc, line)
    }

    /// Returns without a value.
    pub fn leave(&mut self) -> Result<(), NoMemory>
        ensures { OnOk result (draft_of self.new ≡ Spec.leave (draft_of self.old)) }
    {
        let at = self.places.pop_or(no_place());
        put_line(&mut self.blocks, self.alloc, Line::Leave(at))
    }

    /// Returns the newest expression.
    pub fn give(&mut self) -> Result<(), NoMemory>
        ensures { OnOk result (draft_of self.new ≡ Spec.give (draft_of self.old)) }
    {
        let at = self.places.pop_or(no_place());
        let value = take_phrase(&mut self.phrases, self.alloc);
        put_line(&mut self.blocks, self.alloc, Line::Return(at, value))
    }

    /// Raises an exception of the newest name with the newest members.
    pub fn end_raise(&mut self, token: Token<'_>) -> Result<(), NoMemory>
        ensures { OnOk result (draft_of self.new ≡ Spec.end_raise (seen token.entry) (draft_of self.old)) }
    {
        let name = take_name(&mut self.names, self.alloc);
        let fields = take_fields(&mut self.fields, self.alloc);
        let line = Line::Raise(name, fields, place_of(token));
        put_line(&mut self.blocks, self.alloc, line)
    }

    /// Makes the newest block the body of the method that waits.
    pub fn end_method(&mut self, token: Token<'_>) -> Result<(), NoMemory>
        ensures { OnOk result (draft_of self.new ≡ Spec.end_method (seen token.entry) (draft_of self.old)) }
    {
        let name = self.waiting.pop_or(no_part(self.alloc));
        let parameters = take_name(&mut self.names, self.alloc).parts;
        let close = self.places.pop_or(no_place());
        let body = take_block(&mut self.blocks, self.alloc);
        let end = place_of(token);
        self.methods.push(Method {
            name,
            parameters,
            close,
            body,
            end,
        })?;
        Ok(())
    }

    /// Makes the methods those of a servant of the newest name.
    pub fn end_servant(&mut self) -> Result<(), NoMemory>
        ensures { OnOk result (draft_of self.new ≡ Spec.end_servant (draft_of self.old)) }
    {
        let at = self.places.pop_or(no_place());
        let name = take_name(&mut self.names, self.alloc);
        let methods = std::mem::replace(&mut self.methods, Vec::new(self.alloc));
        self.servants.push(Servant { at, name, methods })?;
        Ok(())
    }
}
