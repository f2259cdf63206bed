//! How long the requests of calls are, counted by hand.

use crate::client_stub_tests::{Ends, band, level};
use crate::operations_tests::{One, named_operation};
use client_stub::*;
use idl_types::{Operation, Way};
use orb_base::{Band, Priority};
use std::alloc::Global;
use std::test::*;
use value_json::arguments_from;

/// An object, whose key has three or four bytes.
#[derive(Clone, Copy)]
enum Object {
    /// Of no model and no bands.
    Plain,
    /// Of a server that takes its clients' priorities, without bands.
    Client,
    /// Of a server that declares 32767, with bands.
    Banded,
    /// The same without its bands.
    Declared,
}

const CLIENT: &[u8] =
    b"IOR:000000000000001149444c3a4f72622f50696e673a312e3000000000000000010000000000000042000102000000000a3132372e302e302e31000af90000000470696e6700000001000000020000001a0000000000000001000000280000000a00000000000000000064";

const BANDED: &[u8] =
    b"IOR:000000000000000a49444c3a543a312e3000000000000001000000000000005400010200000000026800000100000003006b25000000000100000002000000340000000000000002000000280000000a00000000000000017fff00000000002d000000100000000000000002006400c800000063";

fn remote_made(alloc: Global, of: &Object) -> Option<Remote> {
    match of {
        Object::Plain => remote_of(alloc, b"corbaloc::1.2@h/ping").ok(),
        Object::Client => remote_of(alloc, CLIENT).ok(),
        Object::Banded => remote_of(alloc, BANDED).ok(),
        Object::Declared => {
            let mut remote = remote_of(alloc, BANDED).ok()?;
            remote.bands = None;
            Some(remote)
        }
    }
}

/// What a call is: the object, the priority, the band, and the length of its request or of the longer bind.
type Row = (Object, Option<i16>, Ends, u64);

fn is_long(
    alloc: Global,
    remote: &Remote,
    operation: &Operation,
    text: &str,
    priority: Option<Priority>,
    band: Option<Band>,
    want: u64,
) -> bool {
    match arguments_from(alloc, operation.params.as_slice(), text) {
        Ok(arguments) => {
            let asked = Asked {
                remote,
                operation,
                arguments: &arguments,
                priority,
                band,
            };
            request_len(&asked) == want
        }
        Err(_) => false,
    }
}

fn row_is_long(alloc: Global, operation: &Operation, text: &str, row: &Row) -> Option<bool> {
    let (of, priority, ends, want) = row;
    let remote = remote_made(alloc, of)?;
    Some(is_long(
        alloc,
        &remote,
        operation,
        text,
        level(*priority)?,
        band(*ends)?,
        *want,
    ))
}

fn rows_are_long(alloc: Global, operation: &Operation, text: &str, rows: &[Row]) -> bool {
    for row in rows {
        if row_is_long(alloc, operation, text, row) != Some(true) {
            return false;
        }
    }
    true
}

/// Whether the calls of an operation of these parameters with these arguments are so long.
fn all_are_long(
    alloc: Global,
    name: &[u8],
    params: &[(Way, One)],
    text: &str,
    rows: &[Row],
) -> bool {
    match named_operation(alloc, name, params, None) {
        Some(operation) => rows_are_long(alloc, &operation, text, rows),
        None => false,
    }
}

const BARE: &[Row] = &[
    (Object::Plain, None, None, 48),
    (Object::Plain, Some(100), None, 60),
    (Object::Client, None, None, 48),
    (Object::Client, Some(100), None, 60),
    (Object::Declared, Some(100), None, 48),
];

#[test]
fn a_call_has_its_priority_unless_the_server_declares_one(rt: HostRuntime) {
    assert!(rt; all_are_long(rt.alloc(), b"current", &[], "[]", BARE));
}

const BOUND: &[Row] = &[
    (Object::Banded, None, None, 74),
    (Object::Banded, Some(100), Some((0, 99)), 74),
    (Object::Plain, None, Some((0, 99)), 74),
];

#[test]
fn a_bind_that_is_longer_counts(rt: HostRuntime) {
    assert!(rt; all_are_long(rt.alloc(), b"current", &[], "[]", BOUND));
}

const ECHO: &[(Way, One)] = &[(Way::Input, One::Words)];

const HI: &[Row] = &[
    (Object::Plain, None, None, 55),
    (Object::Plain, Some(100), None, 71),
    (Object::Plain, None, Some((0, 99)), 74),
];

#[test]
fn a_body_begins_at_a_multiple_of_8(rt: HostRuntime) {
    assert!(rt; all_are_long(rt.alloc(), b"echo", ECHO, "[\"hi\"]", HI));
}

const LONGER: &[Row] = &[
    (Object::Plain, None, Some((0, 99)), 83),
    (Object::Banded, None, None, 83),
];

#[test]
fn a_call_that_is_longer_than_its_bind_counts(rt: HostRuntime) {
    assert!(rt;
        all_are_long(
            rt.alloc(),
            b"echo",
            ECHO,
            "[\"abcdefghijklmnopqrstuvwxyzabcd\"]",
            LONGER
        )
    );
}

const PADDED: &[(Way, One)] = &[
    (Way::Both, One::Words),
    (Way::Output, One::LongLongs),
    (Way::Input, One::Long),
];

#[test]
fn a_pad_between_arguments_counts(rt: HostRuntime) {
    assert!(rt;
        all_are_long(
            rt.alloc(),
            b"echo",
            PADDED,
            "[\"a\",7]",
            &[(Object::Plain, None, None, 60)]
        )
    );
}

/// The text of one string of so many letters.
fn letters(alloc: Global, count: usize) -> Option<String> {
    let mut text = String::new(alloc);
    text.push_str("[\"").ok()?;
    for _ in 0..count {
        text.push_str("a").ok()?;
    }
    text.push_str("\"]").ok()?;
    Some(text)
}

/// Whether an echo of so many letters is so long.
fn echo_is_long(alloc: Global, count: usize, want: u64) -> bool {
    match letters(alloc, count) {
        Some(text) => all_are_long(
            alloc,
            b"echo",
            ECHO,
            text.as_str(),
            &[(Object::Plain, None, None, want)],
        ),
        None => false,
    }
}

#[test]
fn a_string_of_262091_letters_fills_a_message(rt: HostRuntime) {
    assert!(rt; echo_is_long(rt.alloc(), 262091, 262144));
    assert!(rt; echo_is_long(rt.alloc(), 262092, 262145));
}
