//! Texts whose characters have the codes of bytes.
ghost use Rattle.std.specs.Prelude.{◌≡◌, IfOk, IfSome, string_bytes};
ghost use Rattle.std.specs.Str.{bytes_eq, chars};
ghost use Rattle.serde_json.specs.View.{view};
ghost use Rattle.value_json.specs.Gives.{Gives, Shows};
ghost use Rattle.value_json.specs.Texts.{are_bytes, codes_in, text_data, text_of, where_so};

use crate::fault::JsonError;
use orb_base::NoMemory;
use serde_json::Value;
use std::alloc::{AllocError, Global};
use std::str;

/// The bytes themselves, where they are ASCII: then they are the text of their codes.
pub(crate) fn plain_text(bytes: &[u8]) -> Option<&str>
    ensures { IfSome result (λ s. s.now ≡ text_of bytes.now) }
{
    if !bytes.is_ascii() {
        return None;
    }
    match str::from_utf8(bytes) {
        Ok(text) => Some(text),
        Err(_) => None,
    }
}

/// The text whose characters have these byte codes. One pass over the bytes.
pub(crate) fn text_of(alloc: Global, bytes: &[u8]) -> Result<String, NoMemory>
    ensures { IfOk result (λ s. string_bytes s ≡ text_of bytes.now) }
{
    match plain_text(bytes) {
        Some(text) => Ok(String::from_str(alloc, text)?),
        None => Ok(encoded(alloc, bytes)?),
    }
}

fn encoded(alloc: Global, bytes: &[u8]) -> Result<String, AllocError>
    ensures { IfOk result (λ s. string_bytes s ≡ text_of bytes.now) }
{
    let mut text = String::with_capacity(alloc, bytes.len())?;
    for byte in bytes {
        text.push(char::from(*byte))?;
    }
    Ok(text)
}

/// That text as JSON.
pub(crate) fn text_json(alloc: Global, bytes: &[u8]) -> Result<Value, NoMemory>
    ensures { Shows result (text_data bytes.now) }
{
    Ok(Value::String(text_of(alloc, bytes)?))
}

/// Whether a text is the one whose characters have these byte codes. One pass over the codes. Takes no memory.
pub(crate) fn is_text_of(codes: &[u8], text: &[u8]) -> bool
    ensures { result ≡ bytes_eq (text_of codes.now) text.now }
{
    let mut rest = text;
    for code in codes {
        if *code < 128 {
            let [first, after @ ..] = rest else {
                return false;
            };
            if *first != *code {
                return false;
            }
            rest = after;
        } else {
            let [first, second, after @ ..] = rest else {
                return false;
            };
            if *first != 192 + *code / 64 || *second != 128 + *code % 64 {
                return false;
            }
            rest = after;
        }
    }
    rest.is_empty()
}

/// The codes of a string's characters, where it is one and they are codes of bytes. One pass over the text.
pub(crate) fn codes_in(alloc: Global, json: &Value) -> Result<Vec<u8>, JsonError>
    ensures { Gives (λ v. v.items) result (codes_in (view json.now)) }
{
    match json.as_str() {
        Some(text) => codes_of(alloc, text),
        None => Err(JsonError::NotOfType),
    }
}

fn codes_of(alloc: Global, text: &str) -> Result<Vec<u8>, JsonError>
    ensures { Gives (λ v. v.items) result (where_so are_bytes (chars text.now)) }
{
    if text.is_ascii() {
        return Ok(Vec::from_slice(alloc, text.as_bytes())?);
    }
    let characters = characters(alloc, text)?;
    bytes_of(alloc, characters.as_slice())
}

fn characters(alloc: Global, text: &str) -> Result<Vec<char>, AllocError>
    ensures { IfOk result (λ cs. cs.items ≡ chars text.now) }
{
    text.chars().collect(alloc)
}

fn bytes_of(alloc: Global, characters: &[char]) -> Result<Vec<u8>, JsonError>
    ensures { Gives (λ v. v.items) result (where_so are_bytes characters.now) }
{
    let mut bytes = Vec::with_capacity(alloc, characters.len())?;
    for c in characters {
        let code = *c as u32;
        if code > 255 {
            return Err(JsonError::NotOfType);
        }
        bytes.push(code as u8)?;
    }
    Ok(bytes)
}
