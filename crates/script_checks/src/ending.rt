//! Paths through statements.
ghost use Rattle.std.specs.Prelude.{◌≡◌, map};
ghost use Rattle.servant_scripts.specs.Trees.{says_of};
ghost use Rattle.servant_scripts.specs.Views.{say_of};
ghost use Rattle.script_checks.specs.Blocks as Spec;

use servant_scripts::Line;

/// Whether every path through a statement ends with `return` or `raise`.
#[cycle(ending)]
fn ends_line(line: &Line) -> bool
    ensures { result ≡ Spec.ends_line (say_of line.now) }
{
    match line {
        Line::Let(_, _, _) => false,
        Line::Set(_, _) => false,
        Line::If(_, taken, other) => ends(taken) && ends(other),
        Line::Leave(_) => true,
        Line::Return(_, _) => true,
        Line::Raise(_, _, _) => true,
    }
}

/// Whether every path through statements does.
#[cycle(ending)]
pub(crate) fn ends(lines: &[Line]) -> bool
    ensures { result ≡ Spec.ends (says_of (map say_of lines.now)) }
{
    for line in lines {
        if ends_line(line) {
            return true;
        }
    }
    false
}
