//! Rounds over the text of a value.

use crate::json_values::shapes::Shape;
use cdr_values::{IdlType, IdlValue};
use serde_json::Value;
use std::alloc::Global;
use std::io;
use std::time::{Clock, Duration, Instant};
use value_json::{from_json, to_json};

/// How long the rounds take.
#[derive(Drop)]
pub struct Times {
    /// The library alone reads the text.
    pub reads: Duration,
    /// The library reads the text, and `from_json` its value.
    pub values: Duration,
    /// The library alone prints.
    pub prints: Duration,
    /// `to_json` makes JSON of the value, and the library prints it.
    pub shows: Duration,
}

/// The library alone reads the text, so often; whether it can.
fn read_json(alloc: Global, text: &str, rounds: u32) -> bool {
    for _ in 0..rounds {
        if Value::from_str(alloc, text).is_err() {
            return false;
        }
    }
    true
}

/// The value of a text of JSON.
fn read_value(alloc: Global, kind: &IdlType, text: &str) -> Option<IdlValue> {
    let json = Value::from_str(alloc, text).ok()?;
    from_json(alloc, kind, &json).ok()
}

/// A value is read from the text, so often; whether it can.
fn read_values(alloc: Global, shape: &Shape, rounds: u32) -> bool {
    for _ in 0..rounds {
        if read_value(alloc, &shape.kind, shape.text.as_str()).is_none() {
            return false;
        }
    }
    true
}

/// The library alone prints, so often; whether it can.
fn print_json(alloc: Global, json: &Value, rounds: u32) -> bool {
    for _ in 0..rounds {
        if json.to_string(alloc).is_err() {
            return false;
        }
    }
    true
}

/// The text of JSON of a value.
fn print_value(alloc: Global, kind: &IdlType, value: &IdlValue) -> Option<String> {
    let json = to_json(alloc, kind, value).ok()?;
    json.to_string(alloc).ok()
}

/// A value is printed, so often; whether it can.
fn print_values(alloc: Global, kind: &IdlType, value: &IdlValue, rounds: u32) -> bool {
    for _ in 0..rounds {
        if print_value(alloc, kind, value).is_none() {
            return false;
        }
    }
    true
}

/// How long so many rounds take; `None` out of memory, or where a value isn't printed as it is read.
pub fn time_rounds<R: Clock>(
    rt: &R,
    alloc: Global,
    shape: &Shape,
    rounds: u32,
) -> io::Result<Option<Times>> {
    let (kind, text) = (&shape.kind, shape.text.as_str());
    let Ok(json) = Value::from_str(alloc, text) else {
        return Ok(None);
    };
    let Some(value) = read_value(alloc, kind, text) else {
        return Ok(None);
    };
    match print_value(alloc, kind, &value) {
        Some(printed) if printed.as_str() == text => (),
        _ => return Ok(None),
    }
    let start = Instant::now(rt)?;
    let mut all = read_json(alloc, text, rounds);
    let reads = start.elapsed(rt)?;
    let start = Instant::now(rt)?;
    all = all && read_values(alloc, shape, rounds);
    let values = start.elapsed(rt)?;
    let start = Instant::now(rt)?;
    all = all && print_json(alloc, &json, rounds);
    let prints = start.elapsed(rt)?;
    let start = Instant::now(rt)?;
    all = all && print_values(alloc, kind, &value, rounds);
    let shows = start.elapsed(rt)?;
    if !all {
        return Ok(None);
    }
    Ok(Some(Times {
        reads,
        values,
        prints,
        shows,
    }))
}
