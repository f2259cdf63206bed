//! The line of each cause that a note can have.

use cdr_core::CdrCause;
use config_tables::{ConfigCause, ConfigFault};
use giop_frames::FrameCause;
use giop_messages::Fault;
use idl_grammar::{IdlCause, IdlFault};
use object_refs::{RefCause, RefFault};
use orb_base::Text;
use orb_command::Note;
use script_checks::{CheckCause, CheckFault};
use std::alloc::Global;

/// Whether a note's line is these words and then the name of its cause.
pub fn is_line(alloc: Global, note: &Note, words: &str, name: &str) -> bool {
    match note.to_string(alloc) {
        Ok(line) => line.as_str().strip_prefix(words) == Some(name),
        Err(_) => false,
    }
}

/// The causes of IDL.
const OF_IDL: &[(IdlCause, &str)] = &[
    (IdlCause::BadToken, "BadToken"),
    (IdlCause::NotInProfile, "NotInProfile"),
    (IdlCause::Expected, "Expected"),
    (IdlCause::Unknown, "Unknown"),
    (IdlCause::Clash, "Clash"),
    (IdlCause::WrongKind, "WrongKind"),
    (IdlCause::OutOfRange, "OutOfRange"),
    (IdlCause::BadOneway, "BadOneway"),
    (IdlCause::TwiceCase, "TwiceCase"),
    (IdlCause::TooLarge, "TooLarge"),
];

fn idl_is_printed(alloc: Global) -> bool {
    for (cause, name) in OF_IDL {
        let note = Note::Idl(IdlFault {
            cause: *cause,
            line: 1,
            column: 8,
        });
        if !is_line(alloc, &note, "refused: idl: 1:8: ", name) {
            return false;
        }
    }
    true
}

/// The causes of checked scripts.
const OF_SCRIPTS: &[(CheckCause, &str)] = &[
    (CheckCause::UnknownInterface, "UnknownInterface"),
    (CheckCause::UnknownOperation, "UnknownOperation"),
    (CheckCause::ParameterNames, "ParameterNames"),
    (CheckCause::UnknownName, "UnknownName"),
    (CheckCause::Kind, "Kind"),
    (CheckCause::MissingReturn, "MissingReturn"),
    (CheckCause::NotRaised, "NotRaised"),
    (CheckCause::Missing, "Missing"),
    (CheckCause::Twice, "Twice"),
    (CheckCause::NotSettable, "NotSettable"),
    (CheckCause::Members, "Members"),
    (CheckCause::TooManyLets, "TooManyLets"),
];

fn scripts_are_printed(alloc: Global) -> bool {
    for (cause, name) in OF_SCRIPTS {
        let note = Note::Check(CheckFault {
            cause: *cause,
            line: 17,
            column: 29,
        });
        if !is_line(alloc, &note, "refused: scripts: 17:29: ", name) {
            return false;
        }
    }
    true
}

/// The causes of configurations.
const OF_CONFIGURATIONS: &[(ConfigCause, &str)] = &[
    (ConfigCause::NotToml, "NotToml"),
    (ConfigCause::UnknownKey, "UnknownKey"),
    (ConfigCause::Missing, "Missing"),
    (ConfigCause::WrongKind, "WrongKind"),
    (ConfigCause::OutOfRange, "OutOfRange"),
    (ConfigCause::LaneOrder, "LaneOrder"),
    (ConfigCause::NoThread, "NoThread"),
    (ConfigCause::TooManyThreads, "TooManyThreads"),
    (ConfigCause::SlotLimit, "SlotLimit"),
    (ConfigCause::BorrowWithoutLanes, "BorrowWithoutLanes"),
    (ConfigCause::BadMap, "BadMap"),
    (ConfigCause::BandEmpty, "BandEmpty"),
    (ConfigCause::BandOverlap, "BandOverlap"),
    (ConfigCause::Duplicate, "Duplicate"),
    (ConfigCause::UnknownAdapter, "UnknownAdapter"),
    (ConfigCause::PriorityNotAllowed, "PriorityNotAllowed"),
    (ConfigCause::PriorityNotALane, "PriorityNotALane"),
    (ConfigCause::NoNative, "NoNative"),
    (ConfigCause::BandWithoutLane, "BandWithoutLane"),
    (ConfigCause::TransformNotAllowed, "TransformNotAllowed"),
    (ConfigCause::UnknownInterface, "UnknownInterface"),
];

fn is_refused(alloc: Global, cause: ConfigCause, name: &str) -> bool {
    match Text::new(alloc, b"pool") {
        Ok(path) => {
            let note = Note::Config(ConfigFault { cause, path });
            is_line(alloc, &note, "refused: config: pool: ", name)
        }
        Err(_) => false,
    }
}

fn configurations_are_printed(alloc: Global) -> bool {
    for (cause, name) in OF_CONFIGURATIONS {
        if !is_refused(alloc, *cause, name) {
            return false;
        }
    }
    true
}

/// The causes of references, and those of their encapsulations.
const OF_REFERENCES: &[(RefCause, &str)] = &[
    (RefCause::NoPrefix, "NoPrefix"),
    (RefCause::OddHex, "OddHex"),
    (RefCause::BadHex, "BadHex"),
    (RefCause::Cdr(CdrCause::Short), "Short"),
    (RefCause::Cdr(CdrCause::BadBool), "BadBool"),
    (RefCause::Cdr(CdrCause::BadString), "BadString"),
    (RefCause::Cdr(CdrCause::TooMany), "TooMany"),
    (RefCause::Cdr(CdrCause::BadEnum), "BadEnum"),
    (RefCause::Cdr(CdrCause::OverBound), "OverBound"),
    (RefCause::NoIiop, "NoIiop"),
    (RefCause::BadVersion, "BadVersion"),
    (RefCause::BadHost, "BadHost"),
    (RefCause::BadPort, "BadPort"),
    (RefCause::BadEscape, "BadEscape"),
];

fn references_are_printed(alloc: Global) -> bool {
    for (cause, name) in OF_REFERENCES {
        let note = Note::Reference(RefFault {
            cause: *cause,
            place: 14,
        });
        if !is_line(alloc, &note, "reference: 14: ", name) {
            return false;
        }
    }
    true
}

/// The causes of frames and of messages.
const OF_MESSAGES: &[(Fault, &str)] = &[
    (Fault::Frame(FrameCause::BadMagic), "BadMagic"),
    (Fault::Frame(FrameCause::BadVersion), "BadVersion"),
    (Fault::Frame(FrameCause::BadType), "BadType"),
    (Fault::Frame(FrameCause::TooLong), "TooLong"),
    (Fault::Frame(FrameCause::BadPiece), "BadPiece"),
    (Fault::Frame(FrameCause::TooManyPartials), "TooManyPartials"),
    (Fault::Message(CdrCause::Short), "Short"),
    (Fault::Message(CdrCause::BadBool), "BadBool"),
    (Fault::Message(CdrCause::BadString), "BadString"),
    (Fault::Message(CdrCause::TooMany), "TooMany"),
    (Fault::Message(CdrCause::BadEnum), "BadEnum"),
    (Fault::Message(CdrCause::OverBound), "OverBound"),
    (Fault::BadTarget, "BadTarget"),
    (Fault::BadStatus, "BadStatus"),
    (Fault::WrongWay, "WrongWay"),
    (Fault::Cut, "Cut"),
];

fn messages_are_printed(alloc: Global) -> bool {
    for (fault, name) in OF_MESSAGES {
        let note = Note::Input(48, *fault);
        if !is_line(alloc, &note, "input: offset 48: ", name) {
            return false;
        }
    }
    true
}

#[test]
fn each_cause_of_a_text_is_printed(rt: HostRuntime) {
    assert!(rt; idl_is_printed(rt.alloc()));
    assert!(rt; scripts_are_printed(rt.alloc()));
    assert!(rt; configurations_are_printed(rt.alloc()));
}

#[test]
fn each_cause_of_bytes_is_printed(rt: HostRuntime) {
    assert!(rt; references_are_printed(rt.alloc()));
    assert!(rt; messages_are_printed(rt.alloc()));
}
