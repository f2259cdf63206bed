//! What is built so far.
ghost use Rattle.std.specs.Prelude.{◌≡◌};
ghost use Rattle.servant_scripts.specs.Drafts.{empty};
ghost use Rattle.servant_scripts.specs.DraftView.{draft_of};
ghost use Rattle.servant_scripts.specs.Views.{script_of};

use crate::stack::Stack;
use crate::{At, Field, Line, Method, Part, Phrase, ScopedName, Script, Servant};
use script_grammar::{Binary, Unary};
use std::alloc::Global;

/// What is built in the middle of a text: each stack has what waits for something after it.
#[derive(Drop)]
pub struct Draft {
    pub alloc: Global,
    /// Places of words and brackets that are needed when what they begin is whole.
    pub places: Stack<At>,
    /// Operators whose operand comes.
    pub unaries: Stack<Unary>,
    /// Operators whose second operand comes.
    pub binaries: Stack<Binary>,
    /// Names of members, variables and methods whose value or body comes.
    pub waiting: Stack<Part>,
    /// Scoped names, and the parameters of a method.
    pub names: Stack<ScopedName>,
    pub phrases: Stack<Phrase>,
    pub lists: Stack<Vec<Phrase>>,
    pub fields: Stack<Vec<Field>>,
    pub blocks: Stack<Vec<Line>>,
    /// The methods of the servant that is read.
    pub methods: Vec<Method>,
    pub servants: Vec<Servant>,
}

impl Draft {
    /// Nothing so far. Takes no memory.
    pub fn new(alloc: Global) -> Draft
        ensures { draft_of result ≡ empty }
    {
        Draft {
            alloc,
            places: Stack::new(alloc),
            unaries: Stack::new(alloc),
            binaries: Stack::new(alloc),
            waiting: Stack::new(alloc),
            names: Stack::new(alloc),
            phrases: Stack::new(alloc),
            lists: Stack::new(alloc),
            fields: Stack::new(alloc),
            blocks: Stack::new(alloc),
            methods: Vec::new(alloc),
            servants: Vec::new(alloc),
        }
    }

    /// The script.
    pub fn script(self) -> Script
        ensures { script_of result ≡ (draft_of self).servants }
    {
        Script {
            servants: self.servants,
        }
    }
}
