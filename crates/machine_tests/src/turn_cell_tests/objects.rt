//! A register and a hatch, called by one caller.

use turn_cell::{Hatch, HatchCall, HatchReply, Object, Register, RegisterCall, RegisterReply};

/// Whether a register answers a call so, twice.
fn answers(register: &mut Register, call: RegisterCall, want: RegisterReply) -> bool {
    match register.apply(&call) {
        Ok((kept, given)) => kept == want && given == want,
        Err(_) => false,
    }
}

fn gets_the_last_put() -> bool {
    let mut register = Register { value: 3 };
    answers(&mut register, RegisterCall::Put(7), RegisterReply::Done)
        && answers(&mut register, RegisterCall::Get, RegisterReply::Was(7))
}

#[test]
fn a_get_answers_the_last_put(rt: HostRuntime) {
    assert!(rt; gets_the_last_put());
}

/// Whether a hatch is ready for a call, and answers it so, twice.
fn passes(hatch: &mut Hatch, call: HatchCall, want: HatchReply) -> bool {
    if !hatch.ready(&call) {
        return false;
    }
    match hatch.apply(&call) {
        Ok((kept, given)) => kept == want && given == want,
        Err(_) => false,
    }
}

/// Whether a number may be put, and whether one may be taken.
fn is_ready(hatch: &Hatch, put: bool, take: bool) -> bool {
    hatch.ready(&HatchCall::Put(4)) == put && hatch.ready(&HatchCall::Take) == take
}

fn takes_what_was_put() -> bool {
    let mut hatch = Hatch { held: None };
    is_ready(&hatch, true, false)
        && passes(&mut hatch, HatchCall::Put(4), HatchReply::Done)
        && is_ready(&hatch, false, true)
        && passes(&mut hatch, HatchCall::Take, HatchReply::Took(4))
}

#[test]
fn a_take_is_ready_once_a_number_was_put(rt: HostRuntime) {
    assert!(rt; takes_what_was_put());
}

/// Seats with the number of an heir, and that heir.
const HEIRS: &[(u32, u32, Option<u32>)] = &[
    (0, 0, Some(1)),
    (0, 7, Some(8)),
    (0, 8, None),
    (1, 0, None),
];

fn all_inherited() -> bool {
    for (n, k, heir) in HEIRS {
        if Register::heir_of(*n, *k) != *heir || Hatch::heir_of(*n, *k) != *heir {
            return false;
        }
    }
    true
}

#[test]
fn the_first_seat_has_eight_heirs(rt: HostRuntime) {
    assert!(rt; all_inherited());
}
