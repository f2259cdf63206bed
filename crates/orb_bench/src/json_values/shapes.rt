//! Types of many octets, each with a text.

use cdr_values::{IdlType, Member};
use orb_base::Text;
use std::alloc::Global;

/// A type, and the text of one of its values as it is printed.
#[derive(Drop)]
pub struct Shape {
    pub kind: IdlType,
    pub text: String,
}

/// A sequence of so many octets, which count from 0 to 255 over and over.
pub fn sequence(alloc: Global, count: u32) -> Option<Shape> {
    let kind = IdlType::Seq(Box::new(alloc, IdlType::Octet).ok()?, 0);
    let mut text = String::new(alloc);
    for n in 0..count {
        let octet = n % 256;
        let item = format!(in alloc; "{octet}").ok()?;
        text.push_str(if n == 0 { "[" } else { "," }).ok()?;
        text.push_str(item.as_str()).ok()?;
    }
    text.push_str(if count == 0 { "[]" } else { "]" }).ok()?;
    Some(Shape { kind, text })
}

/// The name of the member of this number; the names ascend.
fn name(alloc: Global, n: u32) -> Option<String> {
    let digits = 5_000_000_000 + u64::from(n);
    format!(in alloc; "m{digits}").ok()
}

/// A struct of so many octets.
pub fn structure(alloc: Global, count: u32) -> Option<Shape> {
    let mut members = Vec::new(alloc);
    let mut text = String::new(alloc);
    for n in 0..count {
        let octet = n % 256;
        let name = name(alloc, n)?;
        let key = name.as_str();
        let item = format!(in alloc; "\"{key}\":{octet}").ok()?;
        text.push_str(if n == 0 { "{" } else { "," }).ok()?;
        text.push_str(item.as_str()).ok()?;
        let member = Member {
            name: Text::new(alloc, key.as_bytes()).ok()?,
            kind: IdlType::Octet,
        };
        members.push(member).ok()?;
    }
    text.push_str(if count == 0 { "{}" } else { "}" }).ok()?;
    let kind = IdlType::Struct(Text::new(alloc, b"S").ok()?, members);
    Some(Shape { kind, text })
}
