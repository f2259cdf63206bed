//! Stacks.
ghost use Rattle.std.specs.Prelude.{◌≡◌, [], ◌∷◌, OnOk};
ghost use Rattle.idl_tokens.specs.Stream.{first_or, rest_of};

use orb_base::NoMemory;
use std::alloc::Global;
use std::marker::Model;

/// A stack. Contracts see its items, the newest first.
#[derive(Drop)]
pub struct Stack<T> {
    items: Vec<T>,
}

impl<T> Model for Stack<T> {
    ghost use Rattle.std.specs.Prelude.{List, reverse};

    ghost Value = { List T };

    ghost view = { λ s. reverse s.items.items };
}

impl<T: Drop> Stack<T> {
    /// The empty stack. Takes no memory.
    pub fn new(alloc: Global) -> Stack<T>
        ensures { result ≡ [] }
    {
        Stack {
            items: Vec::new(alloc),
        }
    }

    /// Puts an item on top.
    pub fn push(&mut self, item: T) -> Result<(), NoMemory>
        ensures { OnOk result (self.new ≡ item ∷ self.old) }
    {
        match self.items.push(item) {
            Ok(()) => Ok(()),
            Err(_) => Err(NoMemory),
        }
    }

    /// Takes the newest item, or answers the other one where there is none.
    pub fn pop_or(&mut self, other: T) -> T
        ensures value { result ≡ first_or self.old other }
        ensures rest { self.new ≡ rest_of self.old }
    {
        match self.items.pop() {
            Some(item) => item,
            None => other,
        }
    }
}
