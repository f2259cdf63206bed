//! The places that a tree keeps.

use super::show::script_in;
use orb_base::NoMemory;
use servant_scripts::*;
use std::alloc::Global;
use std::test::*;

fn put(places: &mut Vec<(u32, u32)>, at: At) -> Result<(), NoMemory> {
    places.push((at.line, at.column))?;
    Ok(())
}

fn put_parts(places: &mut Vec<(u32, u32)>, parts: &[Part]) -> Result<(), NoMemory> {
    for part in parts {
        put(places, part.at)?;
    }
    Ok(())
}

/// The places of a statement: its own, and the first token of its expression.
fn put_line(places: &mut Vec<(u32, u32)>, line: &Line) -> Result<(), NoMemory> {
    match line {
        Line::Let(at, name, phrase) => {
            put(places, *at)?;
            put(places, name.at)?;
            put(places, phrase.at)
        }
        Line::Set(name, phrase) => {
            put(places, name.at)?;
            put(places, phrase.at)
        }
        Line::If(phrase, _, _) => put(places, phrase.at),
        Line::Leave(at) => put(places, *at),
        Line::Return(at, phrase) => {
            put(places, *at)?;
            put(places, phrase.at)
        }
        Line::Raise(name, fields, at) => {
            put_parts(places, &name.parts)?;
            for field in fields {
                put(places, field.name.at)?;
                put(places, field.value.at)?;
            }
            put(places, *at)
        }
    }
}

fn put_method(places: &mut Vec<(u32, u32)>, method: &Method) -> Result<(), NoMemory> {
    put(places, method.name.at)?;
    put_parts(places, &method.parameters)?;
    put(places, method.close)?;
    for line in &method.body {
        put_line(places, line)?;
    }
    put(places, method.end)
}

fn put_servant(places: &mut Vec<(u32, u32)>, servant: &Servant) -> Result<(), NoMemory> {
    put(places, servant.at)?;
    put(places, servant.name.at)?;
    put_parts(places, &servant.name.parts)?;
    for method in &servant.methods {
        put_method(places, method)?;
    }
    Ok(())
}

fn put_script(places: &mut Vec<(u32, u32)>, script: &Script) -> Result<(), NoMemory> {
    for servant in &script.servants {
        put_servant(places, servant)?;
    }
    Ok(())
}

fn has_places(alloc: Global, script: &Script, want: &[(u32, u32)]) -> bool {
    let mut places = Vec::new(alloc);
    put_script(&mut places, script).is_ok() && places.as_slice() == want
}

fn keeps(alloc: Global, text: &str, want: &[(u32, u32)]) -> bool {
    match script_in(alloc, text.as_bytes()) {
        Ok(script) => has_places(alloc, &script, want),
        Err(_) => false,
    }
}

const TEXT: &str =
    "servant ::M::V {\n op f(a, b) {\n  let c = (a);\n  set a = -b;\n  if c {}\n  raise E { x = a.y + 1 };\n  return;\n  return [a];\n }\n}";

/// The lines and columns of its tokens.
const PLACES: &[(u32, u32)] = &[
    (1, 1),
    (1, 9),
    (1, 11),
    (1, 14),
    (2, 5),
    (2, 7),
    (2, 10),
    (2, 11),
    (3, 3),
    (3, 7),
    (3, 11),
    (4, 7),
    (4, 11),
    (5, 6),
    (6, 9),
    (6, 13),
    (6, 17),
    (6, 25),
    (7, 3),
    (8, 3),
    (8, 10),
    (9, 2),
];

#[test]
fn each_token_that_a_check_may_name_has_its_place(rt: HostRuntime) {
    assert!(rt; keeps(rt.alloc(), TEXT, PLACES));
}
