//! Blocks.

use super::{SHORT, first, joined, number};
use crate::script_names_tests::things::{one, put, with_ping};
use cdr_values::IdlValue;
use idl_types::Repository;
use orb_base::{NoMemory, Priority};
use script_grammar::Binary;
use script_values::*;
use std::alloc::Global;
use std::test::*;

/// How a block ended, with the number that it gave, or lent.
enum Ended {
    Returned(i128),
    Lent(i128),
    Left,
    Raised(u32, i128),
}

/// How a block ended, and the numbers in the two variables.
struct Story {
    end: Ended,
    slots: (i128, i128),
}

/// The same, or where the block stopped.
type Told = Result<Story, Stop>;

fn number_in(value: &IdlValue) -> i128 {
    match value {
        IdlValue::Number(n) => *n,
        IdlValue::Items(values) => match values.get(0) {
            Some(IdlValue::Number(n)) => *n,
            _ => -1_000,
        },
        _ => -1_000,
    }
}

fn in_slot(slots: &[IdlValue], at: usize) -> i128 {
    match slots.get(at) {
        Some(value) => number_in(value),
        None => -2_000,
    }
}

fn is_end(flow: &Flow, slots: &[IdlValue], want: &Ended) -> bool {
    match want {
        Ended::Returned(n) => match flow {
            Flow::Returned(value) => number_in(value) == *n,
            _ => false,
        },
        Ended::Lent(n) => match flow {
            Flow::Lent(at) => in_slot(slots, *at) == *n,
            _ => false,
        },
        Ended::Left => match flow {
            Flow::Left => true,
            _ => false,
        },
        Ended::Raised(which, n) => match flow {
            Flow::Raised(at, value) => at == which && number_in(value) == *n,
            _ => false,
        },
    }
}

fn run_over(
    alloc: Global,
    repository: &Repository,
    block: &[Stmt],
    slots: &mut Vec<IdlValue>,
) -> Result<Flow, Stop> {
    match Priority::new(7) {
        Some(priority) => run(block, repository, alloc, priority, slots),
        None => Err(Stop::NoMemory),
    }
}

fn run_on(alloc: Global, block: &[Stmt], slots: &mut Vec<IdlValue>) -> Result<Flow, Stop> {
    match with_ping(alloc, &[]) {
        Ok(repository) => run_over(alloc, &repository, block, slots),
        Err(_) => Err(Stop::NoMemory),
    }
}

/// Puts the variables 5 and FALSE.
fn put_both(slots: &mut Vec<IdlValue>) -> bool {
    put(slots, IdlValue::Number(5)) && put(slots, IdlValue::Boolean(false))
}

fn are_slots(slots: &[IdlValue], want: (i128, i128)) -> bool {
    (in_slot(slots, 0), in_slot(slots, 1)) == want
}

fn is_story(flow: &Flow, slots: &[IdlValue], want: &Told) -> bool {
    match want {
        Ok(story) => is_end(flow, slots, &story.end) && are_slots(slots, story.slots),
        Err(_) => false,
    }
}

fn is_stop(stop: Stop, want: &Told) -> bool {
    match want {
        Ok(_) => false,
        Err(want) => stop == *want,
    }
}

fn ends_on(alloc: Global, block: &[Stmt], slots: &mut Vec<IdlValue>, want: &Told) -> bool {
    match run_on(alloc, block, slots) {
        Ok(flow) => is_story(&flow, slots.as_slice(), want),
        Err(stop) => is_stop(stop, want),
    }
}

fn ends_from(alloc: Global, block: &[Stmt], want: &Told) -> bool {
    let mut slots = Vec::new(alloc);
    put_both(&mut slots) && ends_on(alloc, block, &mut slots, want)
}

/// Whether a block ends so on the variables 5 and FALSE.
fn ends(alloc: Global, block: Result<Vec<Stmt>, NoMemory>, want: &Told) -> bool {
    match block {
        Ok(block) => ends_from(alloc, block.as_slice(), want),
        Err(_) => false,
    }
}

/// The first variable and one more.
fn more(alloc: Global) -> Result<Expr, NoMemory> {
    joined(alloc, Form::Slot(0), &[(Binary::Add, 1)])
}

fn put_let(alloc: Global, block: &mut Vec<Stmt>) -> bool {
    match more(alloc) {
        Ok(more) => put(block, Stmt::Let(1, more)),
        Err(_) => false,
    }
}

fn put_return(alloc: Global, block: &mut Vec<Stmt>) -> bool {
    match more(alloc) {
        Ok(more) => put(block, Stmt::Return(SHORT, more)),
        Err(_) => false,
    }
}

fn put_each(alloc: Global, block: &mut Vec<Stmt>) -> bool {
    put_let(alloc, block)
        && put(block, Stmt::Set(0, SHORT, first(alloc, Form::Slot(1))))
        && put_return(alloc, block)
        && put(block, Stmt::Set(0, SHORT, number(alloc, 0)))
}

/// `let b = a + 1; set a = b; return a + 1; set a = 0;`
fn a_return(alloc: Global) -> Result<Vec<Stmt>, NoMemory> {
    let mut block = Vec::new(alloc);
    if put_each(alloc, &mut block) {
        Ok(block)
    } else {
        Err(NoMemory)
    }
}

const RETURNED: Told = Ok(Story {
    end: Ended::Returned(7),
    slots: (6, 6),
});

/// `return` of a variable.
fn a_variable(alloc: Global, slot: usize) -> Result<Vec<Stmt>, NoMemory> {
    one(alloc, Stmt::Return(SHORT, first(alloc, Form::Slot(slot))))
}

/// A variable that is returned stays where it is.
const LENT: Told = Ok(Story {
    end: Ended::Lent(5),
    slots: (5, -1_000),
});

/// `raise` of the second exception with the member `a`.
fn a_raise(alloc: Global) -> Result<Vec<Stmt>, NoMemory> {
    let member = Element {
        place: 0,
        due: SHORT,
        value: first(alloc, Form::Slot(0)),
    };
    match one(alloc, member) {
        Ok(elements) => one(alloc, Stmt::Raise(1, elements)),
        Err(_) => Err(NoMemory),
    }
}

/// `if a < n { raise E { m = a }; } else { return; }`
fn a_choice(alloc: Global, n: i128) -> Result<Vec<Stmt>, NoMemory> {
    let Ok(then) = a_raise(alloc) else {
        return Err(NoMemory);
    };
    let Ok(other) = one(alloc, Stmt::Leave) else {
        return Err(NoMemory);
    };
    match joined(alloc, Form::Slot(0), &[(Binary::Less, n)]) {
        Ok(asked) => one(alloc, Stmt::If(asked, then, other)),
        Err(_) => Err(NoMemory),
    }
}

const RAISED: Told = Ok(Story {
    end: Ended::Raised(1, 5),
    slots: (5, -1_000),
});

const LEFT: Told = Ok(Story {
    end: Ended::Left,
    slots: (5, -1_000),
});

/// `set a = 32768;`
fn a_misfit(alloc: Global) -> Result<Vec<Stmt>, NoMemory> {
    one(alloc, Stmt::Set(0, SHORT, number(alloc, 32_768)))
}

const MISFIT: Told = Err(Stop::Limit(Limit::Misfit));

fn all_end(alloc: Global) -> bool {
    ends(alloc, a_return(alloc), &RETURNED)
        && ends(alloc, a_variable(alloc, 0), &LENT)
        && ends(alloc, a_variable(alloc, 1), &MISFIT)
        && ends(alloc, a_choice(alloc, 6), &RAISED)
        && ends(alloc, a_choice(alloc, 5), &LEFT)
        && ends(alloc, a_misfit(alloc), &MISFIT)
}

#[test]
fn a_block_ends_as_its_statements_say(rt: HostRuntime) {
    assert!(rt; all_end(rt.alloc()));
}
