//! Types with their leaves and levels.

use cdr_values::IdlType;
use idl_grammar::Basic;
use idl_names::*;
use orb_base::NoMemory;
use std::alloc::Global;

/// Whether a type has these leaves and levels, and is too large or not.
fn has_sizes(kind: &SizedType, leaves: u32, levels: u32, large: bool) -> bool {
    kind.leaves == leaves && kind.levels == levels && kind.is_large() == large
}

/// A short, which is one leaf.
fn short() -> SizedType {
    leaf(basic_type(Basic::Short))
}

fn counts_stop() -> bool {
    plus(2, 3) == 5
        && plus(1_048_576, 1) == 1_048_577
        && plus(1_048_577, 1) == 1_048_577
        && times(3, 4) == 12
        && times(65_536, 65_536) == 1_048_577
}

#[test]
fn counts_stop_at_one_more_than_a_file_may_have(rt: HostRuntime) {
    assert!(rt; counts_stop());
}

fn words_spell() -> bool {
    matches!(basic_type(Basic::ULongLong), IdlType::ULongLong)
        && matches!(basic_type(Basic::Octet), IdlType::Octet)
        && has_sizes(&short(), 1, 0, false)
}

#[test]
fn words_spell_types_of_one_leaf(rt: HostRuntime) {
    assert!(rt; words_spell());
}

fn is_sequence_of_7(made: Result<SizedType, NoMemory>) -> bool {
    match made {
        Ok(kind) => has_sizes(&kind, 2, 1, false) && matches!(kind.kind, IdlType::Seq(_, 7)),
        Err(_) => false,
    }
}

#[test]
fn a_sequence_is_a_leaf_and_a_level_more(rt: HostRuntime) {
    assert!(rt; is_sequence_of_7(sequence_of(rt.alloc(), 7, short())));
}

/// Whether two of these are too large.
fn are_large_twice(alloc: Global, kind: SizedType) -> bool {
    match array_of(alloc, 2, kind) {
        Ok(twice) => has_sizes(&twice, 131_072, 2, true),
        Err(_) => false,
    }
}

/// Whether a copy of the longest array of shorts is one too, and two of these are too large.
fn copies_longest(alloc: Global, kind: &SizedType) -> bool {
    match copy_sized(alloc, kind) {
        Ok(copy) => {
            if has_sizes(&copy, 65_536, 1, false) {
                are_large_twice(alloc, copy)
            } else {
                false
            }
        }
        Err(_) => false,
    }
}

fn counts_longest(alloc: Global) -> bool {
    match array_of(alloc, 65_536, short()) {
        Ok(kind) => has_sizes(&kind, 65_536, 1, false) && copies_longest(alloc, &kind),
        Err(_) => false,
    }
}

#[test]
fn an_array_has_its_leaves_as_often_as_it_is_long(rt: HostRuntime) {
    assert!(rt; counts_longest(rt.alloc()));
}

fn is_three_of_two(made: Result<SizedType, NoMemory>) -> bool {
    match made {
        Ok(kind) => has_sizes(&kind, 6, 2, false) && matches!(kind.kind, IdlType::Array(_, 3)),
        Err(_) => false,
    }
}

#[test]
fn the_innermost_length_comes_first(rt: HostRuntime) {
    assert!(rt; is_three_of_two(arrays_of(rt.alloc(), &[2, 3], short())));
}
