//! The check of statements.
ghost use Rattle.std.specs.Prelude.{◌≡◌, ◌++◌, [], map, position, option_to_list, OnOk};
ghost use Rattle.std.specs.Str.{bytes_eq};
ghost use Rattle.std.specs.Option.{option_map};
ghost use Rattle.idl_types.specs.Views.{exception_of};
ghost use Rattle.servant_scripts.specs.Trees.{say_let, say_set, say_leave, say_return, say_raise, says_of, fields_of};
ghost use Rattle.servant_scripts.specs.Views.{said_of, scoped_of, entry_of, say_of};
ghost use Rattle.script_checks.specs.Blocks as Spec;
ghost use Rattle.script_checks.specs.Gives.{Gives};
ghost use Rattle.script_checks.specs.Views.{ground_of, things_in, var_of, vars_view, set_of};
ghost use Rattle.script_checks.specs.Done.{goal_of, done_of, block_of};

use crate::built::complete;
use crate::checking::{check_any, check_fields, check_given, check_kind};
use crate::done::{Block, Done, Goal};
use crate::dues::short;
use crate::fault::{CheckCause, CheckError};
use crate::ground::Ground;
use crate::naming::{exception_named, last_part, place, refuse};
use crate::scene::{Settable, Sort, Variable};
use idl_types::Exception;
use orb_base::{NoMemory, Text};
use script_values::Stmt;
use servant_scripts::{At, Field, Line, Part, Phrase, ScopedName};

/// How many `let` a method may have.
const MOST_LETS: usize = 64;

/// One more `let`, whose word is there.
fn one_let(at: At, lets: usize) -> Result<usize, CheckError>
    ensures { Gives (λ n. n) result (Spec.one_let at lets) }
{
    if lets < MOST_LETS {
        Ok(lets + 1)
    } else {
        Err(refuse(CheckCause::TooManyLets, at))
    }
}

/// A name that no living variable has.
fn new_name<'r>(vars: &[Variable<'_>], name: &'r Part) -> Result<&'r [u8], CheckError>
    ensures { Gives (λ n. n.now) result (Spec.new_name (vars_view vars.now) name.now) }
{
    match place(vars, name.name.as_slice()) {
        None => Ok(name.name.as_slice()),
        Some(_) => Err(refuse(CheckCause::Twice, name.at)),
    }
}

/// The slot and the type of the variable of a name, which may be set.
fn set_place(vars: &[Variable<'_>], name: &Part) -> Result<Settable, CheckError>
    ensures { Gives set_of result (Spec.set_place (vars_view vars.now) name.now) }
{
    match place(vars, name.name.as_slice()) {
        None => Err(refuse(CheckCause::UnknownName, name.at)),
        Some(place) => match place.due {
            None => Err(refuse(CheckCause::NotSettable, name.at)),
            Some(due) => Ok(Settable {
                slot: place.slot,
                due,
            }),
        },
    }
}

/// The place of an id among others.
fn place_of(ids: &[Text], id: &Text) -> Option<usize>
    ensures { result ≡ position (bytes_eq id.now) ids.now }
{
    ids.iter()
        .position(|other| id.as_slice() == other.as_slice())
}

/// The index of an exception among those that a method may raise.
fn raised_at(raises: &[Text], name: &ScopedName, exception: &Exception) -> Result<usize, CheckError>
    ensures { Gives (λ n. n) result (Spec.raised_at raises.now (scoped_of name.now) (exception_of exception.now)) }
{
    match place_of(raises, &exception.id) {
        Some(at) => Ok(at),
        None => Err(refuse(CheckCause::NotRaised, last_part(name))),
    }
}

#[tactic(auto, unfolding(crate::specs::Blocks::line))]
fn check_let<'r>(
    phrase: &Phrase,
    at: At,
    name: &'r Part,
    goal: Goal<'r>,
    lets: usize,
    ground: &Ground<'r>,
    vars: &[Variable<'r>],
) -> Result<Done<'r>, CheckError>
    ensures { Gives (done_of (things_in ground.now)) result
        (Spec.line (ground_of ground.now) (goal_of goal.entry) (vars_view vars.now) lets
        (say_let at name.now (said_of phrase.now))) }
{
    let lets = one_let(at, lets)?;
    let name = new_name(vars, name)?;
    let checked = check_any(phrase, None, ground, vars)?;
    Ok(Done {
        stmt: Stmt::Let(vars.len(), checked.expr),
        new: Some(Variable {
            name,
            sort: checked.sort,
            due: None,
        }),
        lets,
    })
}

#[tactic(auto, unfolding(crate::specs::Blocks::line))]
fn check_set<'r>(
    phrase: &Phrase,
    name: &Part,
    goal: Goal<'r>,
    lets: usize,
    ground: &Ground<'r>,
    vars: &[Variable<'r>],
) -> Result<Done<'r>, CheckError>
    ensures { Gives (done_of (things_in ground.now)) result
        (Spec.line (ground_of ground.now) (goal_of goal.entry) (vars_view vars.now) lets
        (say_set name.now (said_of phrase.now))) }
{
    let place = set_place(vars, name)?;
    let expr = check_given(phrase, place.due, ground, vars)?;
    Ok(Done {
        stmt: Stmt::Set(place.slot, place.due, expr),
        new: None,
        lets,
    })
}

#[tactic(auto, using(crate::proofs::Written::phrase_place), unfolding(crate::specs::Blocks::line))]
fn check_return<'r>(
    phrase: &Phrase,
    at: At,
    goal: Goal<'r>,
    lets: usize,
    ground: &Ground<'r>,
    vars: &[Variable<'r>],
) -> Result<Done<'r>, CheckError>
    ensures { Gives (done_of (things_in ground.now)) result
        (Spec.line (ground_of ground.now) (goal_of goal.entry) (vars_view vars.now) lets
        (say_return at (said_of phrase.now))) }
{
    match goal.result {
        None => Err(refuse(CheckCause::Kind, phrase.at)),
        Some(due) => {
            let expr = check_given(phrase, due, ground, vars)?;
            Ok(Done {
                stmt: Stmt::Return(due, expr),
                new: None,
                lets,
            })
        }
    }
}

#[tactic(auto, unfolding(crate::specs::Blocks::line))]
fn check_leave<'r>(
    at: At,
    goal: Goal<'r>,
    lets: usize,
    ground: &Ground<'r>,
    vars: &[Variable<'r>],
) -> Result<Done<'r>, CheckError>
    ensures { Gives (done_of (things_in ground.now)) result
        (Spec.line (ground_of ground.now) (goal_of goal.entry) (vars_view vars.now) lets (say_leave at)) }
{
    match goal.result {
        None => Ok(Done {
            stmt: Stmt::Leave,
            new: None,
            lets,
        }),
        Some(_) => Err(refuse(CheckCause::Kind, at)),
    }
}

#[tactic(auto, unfolding(crate::specs::Blocks::line))]
fn check_raise<'r>(
    fields: &[Field],
    name: &ScopedName,
    close: At,
    goal: Goal<'r>,
    lets: usize,
    ground: &Ground<'r>,
    vars: &[Variable<'r>],
) -> Result<Done<'r>, CheckError>
    ensures { Gives (done_of (things_in ground.now)) result
        (Spec.line (ground_of ground.now) (goal_of goal.entry) (vars_view vars.now) lets
        (say_raise (scoped_of name.now) (fields_of (map entry_of fields.now)) close)) }
{
    let thrown = exception_named(name, ground)?;
    let at = raised_at(goal.raises, name, thrown.exception)?;
    let members = thrown.exception.members.as_slice();
    let elements = check_fields(fields, thrown.place, members, ground, vars)?;
    let elements = complete(members, close, elements)?;
    Ok(Done {
        stmt: Stmt::Raise(short(at), elements),
        new: None,
        lets,
    })
}

/// Puts the variable that a statement brings after the others.
fn declare<'r>(vars: &mut Vec<Variable<'r>>, new: Option<Variable<'r>>) -> Result<(), NoMemory>
    ensures items { OnOk result (vars.new.items ≡ vars.old.items ++ option_to_list new.entry) }
    ensures view { OnOk result (vars_view vars.new.items ≡ vars_view vars.old.items ++ option_to_list (option_map var_of new.entry)) }
{
    match new {
        Some(variable) => {
            vars.push(variable)?;
            Ok(())
        }
        None => Ok(()),
    }
}

#[cycle(block)]
#[tactic(auto, unfolding(crate::specs::Blocks::line))]
fn check_line<'r>(
    line: &'r Line,
    goal: Goal<'r>,
    lets: usize,
    ground: &Ground<'r>,
    vars: &mut Vec<Variable<'r>>,
) -> Result<Done<'r>, CheckError>
    ensures done { Gives (done_of (things_in ground.now)) result
        (Spec.line (ground_of ground.now) (goal_of goal.entry) (vars_view vars.old.items) lets
        (say_of line.now)) }
    ensures kept { OnOk result (vars.new.items ≡ vars.old.items) }
{
    match line {
        Line::Let(at, name, phrase) => check_let(
            phrase,
            *at,
            name,
            goal,
            lets,
            ground,
            vars.as_slice(),
        ),
        Line::Set(name, phrase) => check_set(phrase, name, goal, lets, ground, vars.as_slice()),
        Line::If(phrase, taken, other) => {
            let expr = check_kind(phrase, Sort::Truth, ground, vars.as_slice())?;
            let taken = check_lines(taken, goal, lets, ground, vars)?;
            let other = check_lines(other, goal, taken.lets, ground, vars)?;
            Ok(Done {
                stmt: Stmt::If(expr, taken.stmts, other.stmts),
                new: None,
                lets: other.lets,
            })
        }
        Line::Leave(at) => check_leave(*at, goal, lets, ground, vars.as_slice()),
        Line::Return(at, phrase) => check_return(phrase, *at, goal, lets, ground, vars.as_slice()),
        Line::Raise(name, fields, close) => check_raise(
            fields,
            name,
            *close,
            goal,
            lets,
            ground,
            vars.as_slice(),
        ),
    }
}

/// The check of a block, before which so many `let` are. The variables are as before where it answers.
#[cycle(block)]
#[tactic(auto, unfolding(crate::specs::Blocks::lines))]
pub(crate) fn check_lines<'r>(
    lines: &'r [Line],
    goal: Goal<'r>,
    lets: usize,
    ground: &Ground<'r>,
    vars: &mut Vec<Variable<'r>>,
) -> Result<Block, CheckError>
    ensures block { Gives (block_of (things_in ground.now)) result
        (Spec.lines (ground_of ground.now) (goal_of goal.entry) (vars_view vars.old.items) lets
        (says_of (map say_of lines.now)) []) }
    ensures kept { OnOk result (vars.new.items ≡ vars.old.items) }
{
    let before = vars.len();
    let mut stmts = Vec::new(ground.alloc);
    let mut lets = lets;
    for line in lines {
        let done = check_line(line, goal, lets, ground, vars)?;
        stmts.push(done.stmt)?;
        declare(vars, done.new)?;
        lets = done.lets;
    }
    vars.truncate(before);
    Ok(Block { stmts, lets })
}
