//! The arguments and results of operations as JSON, by hand.

use cdr_values::{IdlType, IdlValue};
use idl_types::{Operation, Param, Way};
use orb_base::{List, Text};
use std::alloc::Global;
use std::test::*;
use value_json::*;

/// The type of a parameter.
#[derive(Clone, Copy)]
pub enum One {
    Long,
    Boolean,
    Words,
    LongLongs,
}

fn kind(alloc: Global, of: One) -> Option<IdlType> {
    match of {
        One::Long => Some(IdlType::Long),
        One::Boolean => Some(IdlType::Boolean),
        One::Words => Some(IdlType::Words(0)),
        One::LongLongs => Some(IdlType::Seq(Box::new(alloc, IdlType::LongLong).ok()?, 0)),
    }
}

fn param(alloc: Global, way: Way, of: One) -> Option<Param> {
    let name = Text::new(alloc, b"p").ok()?;
    Some(Param {
        way,
        name,
        kind: kind(alloc, of)?,
    })
}

fn params(alloc: Global, rows: &[(Way, One)]) -> Option<List<Param>> {
    let mut list = List::new(alloc);
    for (way, of) in rows {
        if list.push(param(alloc, *way, *of)?).is_err() {
            return None;
        }
    }
    Some(list)
}

/// An operation of this name with these parameters and a result or none.
pub fn named_operation(
    alloc: Global,
    name: &[u8],
    rows: &[(Way, One)],
    gives: Option<One>,
) -> Option<Operation> {
    let params = params(alloc, rows)?;
    let name = Text::new(alloc, name).ok()?;
    let result = match gives {
        Some(of) => Some(kind(alloc, of)?),
        None => None,
    };
    Some(Operation {
        name,
        oneway: false,
        result,
        params,
        raises: List::new(alloc),
    })
}

/// Parameters, the text of their arguments, and how many values it means, or None where it means none.
type Asked = (&'static [(Way, One)], &'static str, Option<usize>);

fn is_asked(alloc: Global, row: &Asked) -> Option<bool> {
    let (rows, text, want) = row;
    let params = params(alloc, rows)?;
    match (arguments_from(alloc, params.as_slice(), text), want) {
        (Ok(values), Some(count)) => Some(values.len() == *count),
        (Err(JsonError::NotOfType), None) => Some(true),
        _ => Some(false),
    }
}

fn all_are_asked(alloc: Global, rows: &[Asked]) -> bool {
    for row in rows {
        if is_asked(alloc, row) != Some(true) {
            return false;
        }
    }
    true
}

const NO_PARAMS: &[(Way, One)] = &[];

const MIXED: &[(Way, One)] = &[
    (Way::Output, One::Boolean),
    (Way::Input, One::Long),
    (Way::Both, One::Words),
    (Way::Output, One::LongLongs),
];

const ASKED: &[Asked] = &[
    (NO_PARAMS, "[]", Some(0)),
    (NO_PARAMS, " [ ] ", Some(0)),
    (MIXED, "[7,\"a\"]", Some(2)),
    (MIXED, "[ -2147483648 , \"\" ]", Some(2)),
];

#[test]
fn a_text_of_one_value_for_each_parameter_is_taken(rt: HostRuntime) {
    assert!(rt; all_are_asked(rt.alloc(), ASKED));
}

const REFUSED: &[Asked] = &[
    (NO_PARAMS, "", None),
    (NO_PARAMS, "[", None),
    (NO_PARAMS, "[]]", None),
    (NO_PARAMS, "{}", None),
    (NO_PARAMS, "null", None),
    (NO_PARAMS, "[null]", None),
    (MIXED, "[]", None),
    (MIXED, "[7]", None),
    (MIXED, "[7,\"a\",true]", None),
    (MIXED, "[\"a\",7]", None),
    (MIXED, "[2147483648,\"a\"]", None),
    (MIXED, "{\"0\":7,\"1\":\"a\"}", None),
    (MIXED, "[[7,\"a\"]]", None),
];

#[test]
fn other_texts_are_refused_as_one(rt: HostRuntime) {
    assert!(rt; all_are_asked(rt.alloc(), REFUSED));
}

/// The types of the values that come back, the text of them, and the text that is printed.
type Told = (
    &'static [(Way, One)],
    Option<One>,
    &'static str,
    &'static str,
);

/// Parameters that all come back, of a result and of other parameters.
fn backs(alloc: Global, rows: &[(Way, One)], gives: Option<One>) -> Option<List<Param>> {
    let mut list = List::new(alloc);
    if let Some(of) = gives {
        if list.push(param(alloc, Way::Both, of)?).is_err() {
            return None;
        }
    }
    for (way, of) in rows {
        if *way != Way::Input && list.push(param(alloc, Way::Both, *of)?).is_err() {
            return None;
        }
    }
    Some(list)
}

fn is_shown(alloc: Global, operation: &Operation, values: &[IdlValue], want: &str) -> bool {
    match results_json(alloc, operation, values) {
        Ok(printed) => printed.as_str() == want,
        Err(_) => false,
    }
}

fn are_shown(alloc: Global, row: &Told, values: &[IdlValue]) -> bool {
    let (rows, gives, _, want) = row;
    match named_operation(alloc, b"op", rows, *gives) {
        Some(operation) => is_shown(alloc, &operation, values, want),
        None => false,
    }
}

fn comes_back(alloc: Global, row: &Told, params: &[Param]) -> bool {
    match arguments_from(alloc, params, row.2) {
        Ok(values) => are_shown(alloc, row, values.as_slice()),
        Err(_) => false,
    }
}

fn is_told(alloc: Global, row: &Told) -> bool {
    match backs(alloc, row.0, row.1) {
        Some(params) => comes_back(alloc, row, params.as_slice()),
        None => false,
    }
}

fn all_are_told(alloc: Global, rows: &[Told]) -> bool {
    for row in rows {
        if !is_told(alloc, row) {
            return false;
        }
    }
    true
}

const TOLD: &[Told] = &[
    (NO_PARAMS, None, "[]", "[]"),
    (NO_PARAMS, Some(One::Long), "[100]", "[100]"),
    (
        MIXED,
        Some(One::Boolean),
        "[true, false, \"a\\u00fc\", [9223372036854775807, -9223372036854775808]]",
        "[true,false,\"aü\",[9223372036854775807,-9223372036854775808]]",
    ),
    (
        MIXED,
        None,
        "[true, \"\\u0001\\\"\", []]",
        "[true,\"\\u0001\\\"\",[]]",
    ),
];

#[test]
fn results_are_one_line(rt: HostRuntime) {
    assert!(rt; all_are_told(rt.alloc(), TOLD));
}

/// Whether the text means what it does with memory enough, or the call is out of memory.
fn is_asked_or_full(alloc: Global, row: &Asked) -> bool {
    let (rows, text, want) = row;
    let Some(params) = params(alloc, rows) else {
        return true;
    };
    match arguments_from(alloc, params.as_slice(), text) {
        Ok(values) => Some(values.len()) == *want,
        Err(JsonError::NotOfType) => want.is_none(),
        Err(JsonError::NoMemory) => true,
    }
}

/// Whether the results print as they do with memory enough, or a call is out of memory.
fn is_told_or_full(alloc: Global, row: &Told) -> bool {
    let (rows, gives, text, want) = row;
    let Some(params) = backs(alloc, rows, *gives) else {
        return true;
    };
    let values = match arguments_from(alloc, params.as_slice(), text) {
        Ok(values) => values,
        Err(e) => return e == JsonError::NoMemory,
    };
    let Some(operation) = named_operation(alloc, b"op", rows, *gives) else {
        return true;
    };
    match results_json(alloc, &operation, values.as_slice()) {
        Ok(printed) => printed.as_str() == *want,
        Err(_) => true,
    }
}

fn all_are_asked_or_full(alloc: Global, rows: &[Asked]) -> bool {
    for row in rows {
        if !is_asked_or_full(alloc, row) {
            return false;
        }
    }
    true
}

fn all_are_told_or_full(alloc: Global, rows: &[Told]) -> bool {
    for row in rows {
        if !is_told_or_full(alloc, row) {
            return false;
        }
    }
    true
}

#[test]
fn out_of_memory_no_other_arguments_are_taken(rt: HostRuntime) {
    assert!(rt; all_are_asked_or_full(rt.alloc(), ASKED));
    assert!(rt; all_are_asked_or_full(rt.alloc(), REFUSED));
}

#[test]
fn out_of_memory_no_other_results_are_printed(rt: HostRuntime) {
    assert!(rt; all_are_told_or_full(rt.alloc(), TOLD));
}
