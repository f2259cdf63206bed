//! Messages whose header has no reading.
use super::read_tests::read;
use cdr_core::{CdrCause, CdrFault};
use giop_frames::FrameCause;
use giop_messages::*;
use std::alloc::Global;
use std::test::*;

/// The bytes of a message, and its fault.
type Refused = (&'static [u8], MessageFault);

/// Whether the bytes are refused with this fault.
fn is_refused(alloc: Global, bytes: &[u8], fault: MessageFault) -> bool {
    match read(alloc, bytes) {
        Ok(_) => false,
        Err(told) => told == fault,
    }
}

fn all_refused(alloc: Global, rows: &[Refused]) -> bool {
    for (bytes, fault) in rows {
        if !is_refused(alloc, bytes, *fault) {
            return false;
        }
    }
    true
}

/// Requests without a reading up to their target.
const HEADS: &[Refused] = &[
    // No id.
    (
        b"GIOP\x01\x02\0\0\0\0\0\0",
        MessageFault::Cdr(CdrFault {
            cause: CdrCause::Short,
            place: 12,
        }),
    ),
    // No response flags.
    (
        b"GIOP\x01\x02\0\0\0\0\0\x04\0\0\0\x01",
        MessageFault::Cdr(CdrFault {
            cause: CdrCause::Short,
            place: 16,
        }),
    ),
    // An end within the reserved octets.
    (
        b"GIOP\x01\x02\0\0\0\0\0\x06\0\0\0\x01\x03\0",
        MessageFault::Cdr(CdrFault {
            cause: CdrCause::Short,
            place: 18,
        }),
    ),
    // A target of form 3.
    (
        b"GIOP\x01\x02\0\0\0\0\0\x0a\0\0\0\x01\x03\0\0\0\0\x03",
        MessageFault::BadTarget(20),
    ),
];

#[test]
fn refuses_a_request_at_its_head(rt: HostRuntime) {
    assert!(rt; all_refused(rt.alloc(), HEADS));
}

/// Requests without a reading after their target.
const BEHIND_TARGETS: &[Refused] = &[
    // An operation of no bytes, not even a NUL.
    (
        b"GIOP\x01\x02\0\0\0\0\0\x14\0\0\0\x01\x03\0\0\0\0\0\0\0\0\0\0\0\0\0\0\0",
        MessageFault::Cdr(CdrFault {
            cause: CdrCause::BadString,
            place: 28,
        }),
    ),
    // An operation without NUL.
    (
        b"GIOP\x01\x02\0\0\0\0\0\x15\0\0\0\x01\x03\0\0\0\0\0\0\0\0\0\0\0\0\0\0\x01a",
        MessageFault::Cdr(CdrFault {
            cause: CdrCause::BadString,
            place: 28,
        }),
    ),
    // An operation that goes past the end.
    (
        b"GIOP\x01\x02\0\0\0\0\0\x15\0\0\0\x01\x03\0\0\0\0\0\0\0\0\0\0\0\0\0\0\x02\0",
        MessageFault::Cdr(CdrFault {
            cause: CdrCause::TooMany,
            place: 28,
        }),
    ),
    // No contexts after the operation and its pad.
    (
        b"GIOP\x01\x02\0\0\0\0\0\x15\0\0\0\x01\x03\0\0\0\0\0\0\0\0\0\0\0\0\0\0\x01\0",
        MessageFault::Cdr(CdrFault {
            cause: CdrCause::Short,
            place: 36,
        }),
    ),
];

#[test]
fn refuses_a_request_behind_its_target(rt: HostRuntime) {
    assert!(rt; all_refused(rt.alloc(), BEHIND_TARGETS));
}

/// Replies without a reading up to their status.
const STATUSES: &[Refused] = &[
    // No status.
    (
        b"GIOP\x01\x02\0\x01\0\0\0\x04\0\0\0\x01",
        MessageFault::Cdr(CdrFault {
            cause: CdrCause::Short,
            place: 16,
        }),
    ),
    // A status of 6, in either order; it goes before the contexts, which are not there.
    (
        b"GIOP\x01\x02\0\x01\0\0\0\x08\0\0\0\x01\0\0\0\x06",
        MessageFault::BadStatus(16),
    ),
    (
        b"GIOP\x01\x02\x01\x01\x08\0\0\0\x01\0\0\0\x06\0\0\0",
        MessageFault::BadStatus(16),
    ),
];

#[test]
fn refuses_a_reply_at_its_status(rt: HostRuntime) {
    assert!(rt; all_refused(rt.alloc(), STATUSES));
}

/// Replies without a reading in their contexts.
const CONTEXTS: &[Refused] = &[
    // More contexts than bytes.
    (
        b"GIOP\x01\x02\0\x01\0\0\0\x0c\0\0\0\x01\0\0\0\0\xff\xff\xff\xff",
        MessageFault::Cdr(CdrFault {
            cause: CdrCause::TooMany,
            place: 20,
        }),
    ),
    // A context that goes past the end.
    (
        b"GIOP\x01\x02\0\x01\0\0\0\x14\0\0\0\x01\0\0\0\0\0\0\0\x01\0\0\0\x0a\0\0\0\x01",
        MessageFault::Cdr(CdrFault {
            cause: CdrCause::TooMany,
            place: 28,
        }),
    ),
    // A second context whose bytes have no count.
    (
        b"GIOP\x01\x02\0\x01\0\0\0\x18\0\0\0\x01\0\0\0\0\0\0\0\x02\0\0\0\x0a\0\0\0\0\0\0\0\x0b",
        MessageFault::Cdr(CdrFault {
            cause: CdrCause::Short,
            place: 36,
        }),
    ),
];

#[test]
fn refuses_a_reply_at_its_contexts(rt: HostRuntime) {
    assert!(rt; all_refused(rt.alloc(), CONTEXTS));
}

/// A CancelRequest and a LocateReply that are cut short.
const SHORT_KINDS: &[Refused] = &[
    // A CancelRequest without an id.
    (
        b"GIOP\x01\x02\0\x02\0\0\0\x02\0\0",
        MessageFault::Cdr(CdrFault {
            cause: CdrCause::Short,
            place: 12,
        }),
    ),
    // A LocateReply without a status.
    (
        b"GIOP\x01\x02\0\x04\0\0\0\x04\0\0\0\x05",
        MessageFault::Cdr(CdrFault {
            cause: CdrCause::Short,
            place: 16,
        }),
    ),
];

#[test]
fn refuses_short_kinds_without_their_numbers(rt: HostRuntime) {
    assert!(rt; all_refused(rt.alloc(), SHORT_KINDS));
}

/// Questions by a target of form 3.
const FORMS: &[Refused] = &[
    // A target of form 3, in either order.
    (
        b"GIOP\x01\x02\0\x03\0\0\0\x10\0\0\0\x05\0\x03\0\0\0\0\0\x04ping",
        MessageFault::BadTarget(16),
    ),
    (
        b"GIOP\x01\x02\x01\x03\x06\0\0\0\x05\0\0\0\x03\0",
        MessageFault::BadTarget(16),
    ),
];

#[test]
fn refuses_a_form_of_target_above_2(rt: HostRuntime) {
    assert!(rt; all_refused(rt.alloc(), FORMS));
}

/// Questions without a reading in their target.
const TARGETS: &[Refused] = &[
    // A key that goes past the end.
    (
        b"GIOP\x01\x02\0\x03\0\0\0\x0f\0\0\0\x05\0\0\0\0\0\0\0\x04pin",
        MessageFault::Cdr(CdrFault {
            cause: CdrCause::TooMany,
            place: 20,
        }),
    ),
    // A profile without bytes.
    (
        b"GIOP\x01\x02\0\x03\0\0\0\x0c\0\0\0\x05\0\x01\0\0\0\0\0\x07",
        MessageFault::Cdr(CdrFault {
            cause: CdrCause::Short,
            place: 24,
        }),
    ),
    // A reference whose repository id has a NUL inside.
    (
        b"GIOP\x01\x02\0\x03\0\0\0\x13\0\0\0\x05\0\x02\0\0\0\0\0\0\0\0\0\x03T\0\0",
        MessageFault::Cdr(CdrFault {
            cause: CdrCause::BadString,
            place: 24,
        }),
    ),
    // A reference with more profiles than bytes.
    (
        b"GIOP\x01\x02\0\x03\0\0\0\x18\0\0\0\x05\0\x02\0\0\0\0\0\0\0\0\0\x02T\0\0\0\0\0\0\x01",
        MessageFault::Cdr(CdrFault {
            cause: CdrCause::TooMany,
            place: 32,
        }),
    ),
];

#[test]
fn refuses_a_target_at_its_first_fault(rt: HostRuntime) {
    assert!(rt; all_refused(rt.alloc(), TARGETS));
}

/// Faults with their names.
const NAMES: &[(Fault, &str)] = &[
    (Fault::Frame(FrameCause::BadMagic), "BadMagic"),
    (Fault::Message(CdrCause::Short), "Short"),
    (Fault::BadTarget, "BadTarget"),
    (Fault::BadStatus, "BadStatus"),
    (Fault::WrongWay, "WrongWay"),
    (Fault::Cut, "Cut"),
];

fn is_shown(alloc: Global, fault: Fault, name: &str) -> bool {
    match format!(in alloc; "{fault}") {
        Ok(shown) => shown.as_str() == name,
        Err(_) => false,
    }
}

fn all_shown(alloc: Global, rows: &[(Fault, &str)]) -> bool {
    for (fault, name) in rows {
        if !is_shown(alloc, *fault, name) {
            return false;
        }
    }
    true
}

#[test]
fn shows_a_fault_by_the_name_of_its_cause(rt: HostRuntime) {
    assert!(rt; all_shown(rt.alloc(), NAMES));
}

/// Faults of messages with their causes.
const CAUSES: &[(MessageFault, Option<Fault>)] = &[
    (
        MessageFault::Cdr(CdrFault {
            cause: CdrCause::Short,
            place: 18,
        }),
        Some(Fault::Message(CdrCause::Short)),
    ),
    (MessageFault::BadTarget(16), Some(Fault::BadTarget)),
    (MessageFault::BadStatus(16), Some(Fault::BadStatus)),
    (MessageFault::NoMemory, None),
];

fn have_causes(rows: &[(MessageFault, Option<Fault>)]) -> bool {
    for (fault, cause) in rows {
        if fault.cause() != *cause {
            return false;
        }
    }
    true
}

#[test]
fn names_the_cause_without_its_place(rt: HostRuntime) {
    assert!(rt; have_causes(CAUSES));
}
