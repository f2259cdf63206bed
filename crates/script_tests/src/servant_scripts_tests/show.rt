//! A script in a short form, where each operator has parentheses around it and its operands.

use orb_base::NoMemory;
use servant_scripts::*;
use std::alloc::Global;

fn put(out: &mut Vec<u8>, text: &str) -> Result<(), NoMemory> {
    out.extend_from_slice(text.as_bytes())?;
    Ok(())
}

fn show_part(part: &Part, out: &mut Vec<u8>) -> Result<(), NoMemory> {
    out.extend_from_slice(part.name.as_slice())?;
    Ok(())
}

fn show_name(name: &ScopedName, out: &mut Vec<u8>) -> Result<(), NoMemory> {
    let mut between = if name.rooted { "::" } else { "" };
    for part in &name.parts {
        put(out, between)?;
        show_part(part, out)?;
        between = "::";
    }
    Ok(())
}

fn mark_of(operator: Binary) -> &'static str {
    match operator {
        Binary::Or => "||",
        Binary::And => "&&",
        Binary::Same => "==",
        Binary::Differs => "!=",
        Binary::Less => "<",
        Binary::AtMost => "<=",
        Binary::Greater => ">",
        Binary::AtLeast => ">=",
        Binary::Add => "+",
        Binary::Subtract => "-",
        Binary::Multiply => "*",
        Binary::Divide => "/",
        Binary::Remainder => "%",
        Binary::Index => "@",
    }
}

fn sign_of(operator: Unary) -> &'static str {
    match operator {
        Unary::Negate => "-",
        Unary::Not => "!",
        Unary::Len => "#",
        Unary::Group => "~",
    }
}

#[cycle(show)]
fn show_links(links: &[Link], out: &mut Vec<u8>) -> Result<(), NoMemory> {
    for link in links {
        show_link(link, out)?;
        put(out, ")")?;
    }
    Ok(())
}

#[cycle(show)]
fn show_link(link: &Link, out: &mut Vec<u8>) -> Result<(), NoMemory> {
    match link {
        Link::Binary(operator, phrase) => {
            put(out, mark_of(*operator))?;
            show_phrase(phrase, out)
        }
        Link::Member(part) => {
            put(out, ".")?;
            show_part(part, out)
        }
    }
}

#[cycle(show)]
fn show_phrases(phrases: &[Phrase], out: &mut Vec<u8>) -> Result<(), NoMemory> {
    for phrase in phrases {
        show_phrase(phrase, out)?;
        put(out, ",")?;
    }
    Ok(())
}

#[cycle(show)]
fn show_fields(fields: &[Field], out: &mut Vec<u8>) -> Result<(), NoMemory> {
    for field in fields {
        show_part(&field.name, out)?;
        put(out, "=")?;
        show_phrase(&field.value, out)?;
        put(out, ",")?;
    }
    Ok(())
}

/// Of a number the last digit.
#[cycle(show)]
fn show_form(form: &Form, out: &mut Vec<u8>) -> Result<(), NoMemory> {
    match form {
        Form::Number(z) => put(out, if *z == 1 { "1" } else { "n" }),
        Form::Truth(truth) => put(out, if *truth { "T" } else { "F" }),
        Form::Text(text) => {
            put(out, "'")?;
            out.extend_from_slice(text.as_slice())?;
            Ok(())
        }
        Form::Priority => put(out, "p()"),
        Form::Name(name) => show_name(name, out),
        Form::Unary(operator, phrase) => {
            put(out, sign_of(*operator))?;
            show_phrase(phrase, out)
        }
        Form::New(name, fields, _) => {
            put(out, "new ")?;
            show_name(name, out)?;
            put(out, "{")?;
            show_fields(fields, out)?;
            put(out, "}")
        }
        Form::List(phrases) => {
            put(out, "[")?;
            show_phrases(phrases, out)?;
            put(out, "]")
        }
    }
}

#[cycle(show)]
fn show_phrase(phrase: &Phrase, out: &mut Vec<u8>) -> Result<(), NoMemory> {
    for _ in 0..phrase.links.len() {
        put(out, "(")?;
    }
    show_form(&phrase.form, out)?;
    show_links(&phrase.links, out)
}

#[cycle(show_lines)]
fn show_line(line: &Line, out: &mut Vec<u8>) -> Result<(), NoMemory> {
    match line {
        Line::Let(_, name, phrase) => {
            put(out, "let ")?;
            show_part(name, out)?;
            put(out, " ")?;
            show_phrase(phrase, out)
        }
        Line::Set(name, phrase) => {
            put(out, "set ")?;
            show_part(name, out)?;
            put(out, " ")?;
            show_phrase(phrase, out)
        }
        Line::If(phrase, taken, otherwise) => {
            put(out, "if ")?;
            show_phrase(phrase, out)?;
            show_lines(taken, out)?;
            show_lines(otherwise, out)
        }
        Line::Leave(_) => put(out, "leave"),
        Line::Return(_, phrase) => {
            put(out, "return ")?;
            show_phrase(phrase, out)
        }
        Line::Raise(name, fields, _) => {
            put(out, "raise ")?;
            show_name(name, out)?;
            put(out, "{")?;
            show_fields(fields, out)?;
            put(out, "}")
        }
    }
}

#[cycle(show_lines)]
fn show_lines(lines: &[Line], out: &mut Vec<u8>) -> Result<(), NoMemory> {
    put(out, "{")?;
    for line in lines {
        show_line(line, out)?;
        put(out, ";")?;
    }
    put(out, "}")
}

fn show_method(method: &Method, out: &mut Vec<u8>) -> Result<(), NoMemory> {
    put(out, "op ")?;
    show_part(&method.name, out)?;
    for parameter in &method.parameters {
        put(out, " ")?;
        show_part(parameter, out)?;
    }
    show_lines(&method.body, out)
}

fn show_servant(servant: &Servant, out: &mut Vec<u8>) -> Result<(), NoMemory> {
    show_name(&servant.name, out)?;
    put(out, "{")?;
    for method in &servant.methods {
        show_method(method, out)?;
    }
    put(out, "}")
}

fn show_script(script: &Script, out: &mut Vec<u8>) -> Result<(), NoMemory> {
    for servant in &script.servants {
        show_servant(servant, out)?;
    }
    Ok(())
}

/// Whether a script has this short form.
fn has_form(alloc: Global, script: &Script, want: &[u8]) -> bool {
    let mut out = Vec::new(alloc);
    show_script(script, &mut out).is_ok() && out.as_slice() == want
}

/// Whether a text is read, and has this short form.
pub fn is_shown(alloc: Global, text: &[u8], want: &[u8]) -> bool {
    match script_in(alloc, text) {
        Ok(script) => has_form(alloc, &script, want),
        Err(_) => false,
    }
}

/// A script that is read.
pub fn script_in(alloc: Global, text: &[u8]) -> Result<Script, ScriptError> {
    if text.len() > 1_048_576 {
        return Err(ScriptError::NoMemory);
    }
    read_script(alloc, text)
}
