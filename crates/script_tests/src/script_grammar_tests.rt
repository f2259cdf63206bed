//! The grammar alone: texts that it has, and the first token at fault of others. Columns were counted by hand.
ghost use Rattle.std.specs.Prelude.{◌≡◌};

use grammar::{Builder, MAX_OPEN, ReadError, read_whole};
use idl_tokens::{Dialect, Kind, Token, tokens_of};
use orb_base::NoMemory;
use script_grammar::*;
use std::alloc::Global;
use std::test::*;

/// Builds nothing.
#[derive(Debug, Drop)]
struct Outline;

impl Builder for Outline {
    ghost use Rattle.std.specs.Prelude.{Ok};
    ghost use Rattle.script_grammar.specs.ScriptRules as Spec;
    ghost use Rattle.script_grammar.specs.Stopping as stopping;

    type Label = ScriptLabel;

    type Inner = Inner;

    type Fault = ScriptFault;

    ghost Built = { Unit {0} };

    ghost built = { λ o. tt };

    ghost inside = { Spec.inside };

    ghost act = { λ l t b. Ok b };

    ghost judge = { λ l b. Ok b };

    ghost stop = { stopping.stop };

    fn inside(inner: Inner) -> &'static ScriptRule {
        inside(inner)
    }

    fn act(&mut self, _: ScriptLabel, _: Token<'_>) -> Result<(), ReadError<ScriptFault>> {
        Ok(())
    }

    fn judge(&mut self, _: ScriptLabel) -> Result<(), ReadError<ScriptFault>> {
        Ok(())
    }

    fn stop(token: Token<'_>) -> ScriptFault {
        stop_at(token)
    }
}

/// None where a text is of the grammar, and else its first token at fault.
fn fault_of(alloc: Global, text: &str) -> Result<Option<ScriptFault>, NoMemory> {
    let bytes = text.as_bytes();
    if bytes.len() > 2000 {
        return Err(NoMemory);
    }
    let found = tokens_of(alloc, Dialect::Script, bytes)?;
    let mut outline = Outline;
    let mut tokens = found.stream();
    match read_whole(file_rule(), &mut tokens, &mut outline, Kind::End, MAX_OPEN) {
        Ok(()) => Ok(None),
        Err(ReadError::Refused(fault)) => Ok(Some(fault)),
        Err(ReadError::NoMemory) => Err(NoMemory),
    }
}

const TEXTS: &[&str] = &[
    "",
    "servant A {} servant ::M::V { op f() {} op _get_a(x, y) {} }",
    "servant A { op f(a) { let b = -a + !a * len(a) - priority(); set a = (b); } }",
    "servant A { op f(a) { if a == 1 || a != 2 && TRUE { return; } else { return a.b[1]; } } }",
    "servant A { op f(a) { raise E {}; raise ::M::E { x = [], y = [1, \"t\"] }; } }",
    "servant A { op f(a) { return new M::S { x = FALSE, y = a / 2 % 3 < 4 }; } }",
];

fn all_are_taken(alloc: Global) -> bool {
    for text in TEXTS {
        if fault_of(alloc, text) != Ok(None) {
            return false;
        }
    }
    true
}

#[test]
fn each_rule_has_its_texts(rt: HostRuntime) {
    assert!(rt; all_are_taken(rt.alloc()));
}

/// Texts, with the line and the column of their first token at fault.
const REFUSED: &[(&str, u32, u32)] = &[
    ("servant { }", 1, 9),
    ("servant A { op f(a,) {} }", 1, 20),
    ("servant A {\n op f() { return 1 < 2 < 3; } }", 2, 24),
    ("servant A { op f() { return - -1; } }", 1, 31),
    ("servant A { op f() { return new S {}; } }", 1, 36),
    ("servant A { op f() {} ", 1, 23),
];

fn is_refused(alloc: Global, text: &str, line: u32, column: u32) -> bool {
    fault_of(alloc, text) == Ok(Some(ScriptFault { line, column }))
}

fn all_are_refused(alloc: Global) -> bool {
    for (text, line, column) in REFUSED {
        if !is_refused(alloc, text, *line, *column) {
            return false;
        }
    }
    true
}

#[test]
fn a_text_is_refused_at_its_first_token_at_fault(rt: HostRuntime) {
    assert!(rt; all_are_refused(rt.alloc()));
}
