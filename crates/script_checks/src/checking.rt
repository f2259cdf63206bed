//! The check of expressions. Functions of one cycle: the tree comes first, as its depth is the measure.
ghost use Rattle.std.specs.Prelude.{◌≡◌, [], List, map, IfOk};
ghost use Rattle.cdr_values.specs.Kinds.{members_view};
ghost use Rattle.cdr_values.specs.Trees.{members_of, text as text_value};
ghost use Rattle.idl_types.specs.Things.{Thing};
ghost use Rattle.servant_scripts.specs.Trees.{say_unary, say_new, say_list, fields_of, saids_of};
ghost use Rattle.servant_scripts.specs.Views.{said_of, shape_of, operator, joint_of, scoped_of, entry_of};
ghost use Rattle.script_values.specs.Trees.{literal};
ghost use Rattle.script_values.specs.Views.{term_of, parts_view};
ghost use Rattle.script_checks.specs.Kinds.{text_kind};
ghost use Rattle.script_checks.specs.Checking as Spec;
ghost use Rattle.script_checks.specs.Chains.{linked, chained, joints_view, want_first as want_in_front};
ghost use Rattle.script_checks.specs.Gives.{Gives};
ghost use Rattle.script_checks.specs.Views.{ground_of, things_in, vars_view, sort_of, checked_of};

use crate::built::{built, complete, due_sort, list_due, list_of, new_member};
use crate::dues::{element_due, member_due};
use crate::fault::CheckError;
use crate::ground::Ground;
use crate::naming::{named, struct_named};
use crate::scene::{Checked, Sort, Variable};
use crate::typing::{asked, members, need, single, want_in, with_link, with_member, with_unary};
use cdr_values::{IdlValue, Member};
use idl_types::TypeRef;
use orb_base::{NoMemory, Text};
use script_grammar::{Binary, Unary};
use script_values::{Element, Expr, Form as RunForm, Link as RunLink};
use servant_scripts::{At, Field, Form, Link, Phrase, ScopedName};
use std::alloc::Global;

/// A literal text.
fn words<'r>(text: &Text, alloc: Global) -> Result<Checked<'r>, NoMemory>
    ensures { (ts : List Thing) → IfOk result (λ c. checked_of ts c ≡ (literal (text_value text.now), text_kind)) }
{
    let text = text.copy(alloc)?;
    Ok(Checked {
        expr: single(RunForm::Literal(IdlValue::Words(text)), alloc),
        sort: Sort::Words,
    })
}

/// The type that is due before these.
fn want_first(want: Option<TypeRef>, links: &[Link]) -> Option<TypeRef>
    ensures { result ≡ want_in_front want (joints_view links.now) }
{
    if links.is_empty() { want } else { None }
}

#[cycle(check)]
#[tactic(auto, using(crate::proofs::Written::phrase_place), unfolding(crate::specs::Checking::shaped))]
fn check_unary<'r>(
    phrase: &Phrase,
    op: Unary,
    at: At,
    want: Option<TypeRef>,
    ground: &Ground<'r>,
    vars: &[Variable<'r>],
) -> Result<Checked<'r>, CheckError>
    ensures { Gives (checked_of (things_in ground.now)) result
        (Spec.shaped (ground_of ground.now) (vars_view vars.now) want at (say_unary op (said_of phrase.now))) }
{
    let checked = check_any(phrase, want_in(op, want), ground, vars)?;
    with_unary(op, phrase.at, checked, ground.alloc)
}

#[cycle(check)]
#[tactic(auto, unfolding(crate::specs::Checking::shaped))]
fn check_new<'r>(
    fields: &[Field],
    name: &ScopedName,
    close: At,
    at: At,
    want: Option<TypeRef>,
    ground: &Ground<'r>,
    vars: &[Variable<'r>],
) -> Result<Checked<'r>, CheckError>
    ensures { Gives (checked_of (things_in ground.now)) result
        (Spec.shaped (ground_of ground.now) (vars_view vars.now) want at
        (say_new (scoped_of name.now) (fields_of (map entry_of fields.now)) close)) }
{
    let new = struct_named(name, ground)?;
    let members = members(new.kind);
    let elements = check_fields(fields, new.place, members, ground, vars)?;
    let elements = complete(members, close, elements)?;
    Ok(Checked {
        expr: built(elements, ground.alloc),
        sort: Sort::Type(new.kind),
    })
}

#[cycle(check)]
#[tactic(auto, unfolding(crate::specs::Checking::shaped))]
fn check_list<'r>(
    phrases: &[Phrase],
    at: At,
    want: Option<TypeRef>,
    ground: &Ground<'r>,
    vars: &[Variable<'r>],
) -> Result<Checked<'r>, CheckError>
    ensures { Gives (checked_of (things_in ground.now)) result
        (Spec.shaped (ground_of ground.now) (vars_view vars.now) want at
        (say_list (saids_of (map said_of phrases.now)))) }
{
    let list = list_due(ground.repository, want, at)?;
    let elements = check_elements(phrases, element_due(list.due), ground, vars)?;
    list_of(list.kind, at, elements, ground.alloc)
}

#[cycle(check)]
#[tactic(auto, unfolding(crate::specs::Checking::shaped))]
fn check_form<'r>(
    form: &Form,
    at: At,
    want: Option<TypeRef>,
    ground: &Ground<'r>,
    vars: &[Variable<'r>],
) -> Result<Checked<'r>, CheckError>
    ensures { Gives (checked_of (things_in ground.now)) result
        (Spec.shaped (ground_of ground.now) (vars_view vars.now) want at (shape_of form.now)) }
{
    match form {
        Form::Number(n) => Ok(Checked {
            expr: single(RunForm::Literal(IdlValue::Number(*n)), ground.alloc),
            sort: Sort::Number,
        }),
        Form::Truth(b) => Ok(Checked {
            expr: single(RunForm::Literal(IdlValue::Boolean(*b)), ground.alloc),
            sort: Sort::Truth,
        }),
        Form::Text(text) => Ok(words(text, ground.alloc)?),
        Form::Priority => Ok(Checked {
            expr: single(RunForm::Priority, ground.alloc),
            sort: Sort::Number,
        }),
        Form::Name(name) => named(name, ground, vars),
        Form::Unary(op, phrase) => check_unary(phrase, *op, at, want, ground, vars),
        Form::New(name, fields, close) => check_new(fields, name, *close, at, want, ground, vars),
        Form::List(phrases) => check_list(phrases, at, want, ground, vars),
    }
}

#[cycle(check)]
fn check_operand<'r>(
    phrase: &Phrase,
    op: Binary,
    at: At,
    left: Checked<'r>,
    ground: &Ground<'r>,
    vars: &[Variable<'r>],
) -> Result<Checked<'r>, CheckError>
    ensures { Gives (checked_of (things_in ground.now)) result
        (linked (ground_of ground.now) (vars_view vars.now) at
        (operator op (said_of phrase.now)) (checked_of (things_in ground.now) left.entry)) }
{
    let asked = asked(op, at, &left)?;
    let right = check_kind(phrase, asked.need, ground, vars)?;
    Ok(Checked {
        expr: with_link(left.expr, RunLink::Binary(op, right))?,
        sort: asked.gives,
    })
}

#[cycle(check)]
fn check_link<'r>(
    link: &Link,
    at: At,
    left: Checked<'r>,
    ground: &Ground<'r>,
    vars: &[Variable<'r>],
) -> Result<Checked<'r>, CheckError>
    ensures { Gives (checked_of (things_in ground.now)) result
        (linked (ground_of ground.now) (vars_view vars.now) at
        (joint_of link.now) (checked_of (things_in ground.now) left.entry)) }
{
    match link {
        Link::Binary(op, phrase) => check_operand(phrase, *op, at, left, ground, vars),
        Link::Member(part) => with_member(at, part, left),
    }
}

#[cycle(check)]
fn check_links<'r>(
    links: &[Link],
    at: At,
    first: Checked<'r>,
    ground: &Ground<'r>,
    vars: &[Variable<'r>],
) -> Result<Checked<'r>, CheckError>
    ensures { Gives (checked_of (things_in ground.now)) result
        (chained (ground_of ground.now) (vars_view vars.now) at
        (joints_view links.now) (checked_of (things_in ground.now) first.entry)) }
{
    let mut checked = first;
    for link in links {
        checked = check_link(link, at, checked, ground, vars)?;
    }
    Ok(checked)
}

/// The check of an expression, where this type is due, or none. Costs a look-up for each name in it, and a comparison for
/// each variable that is alive.
#[cycle(check)]
#[tactic(auto, using(crate::proofs::Written::phrase_is_chain))]
pub(crate) fn check_any<'r>(
    phrase: &Phrase,
    want: Option<TypeRef>,
    ground: &Ground<'r>,
    vars: &[Variable<'r>],
) -> Result<Checked<'r>, CheckError>
    ensures { Gives (checked_of (things_in ground.now)) result
        (Spec.typed (ground_of ground.now) (vars_view vars.now) want (said_of phrase.now)) }
{
    let links = phrase.links.as_slice();
    let first = check_form(
        &phrase.form,
        phrase.at,
        want_first(want, links),
        ground,
        vars,
    )?;
    check_links(links, phrase.at, first, ground, vars)
}

/// The check of an expression of a kind.
#[cycle(check)]
#[tactic(auto, using(crate::proofs::Written::kind_behind))]
pub(crate) fn check_kind<'r>(
    phrase: &Phrase,
    sort: Sort<'r>,
    ground: &Ground<'r>,
    vars: &[Variable<'r>],
) -> Result<Expr, CheckError>
    ensures { Gives (term_of (things_in ground.now)) result
        (Spec.of_kind (ground_of ground.now) (vars_view vars.now) (sort_of sort.entry) (said_of phrase.now)) }
{
    let checked = check_any(phrase, None, ground, vars)?;
    need(checked, Some(sort), phrase.at)
}

/// The check of an expression of the type that is due.
#[cycle(check)]
#[tactic(auto, using(crate::proofs::Written::given_behind))]
pub(crate) fn check_given<'r>(
    phrase: &Phrase,
    due: TypeRef,
    ground: &Ground<'r>,
    vars: &[Variable<'r>],
) -> Result<Expr, CheckError>
    ensures { Gives (term_of (things_in ground.now)) result
        (Spec.given (ground_of ground.now) (vars_view vars.now) due (said_of phrase.now)) }
{
    let checked = check_any(phrase, Some(due), ground, vars)?;
    need(checked, due_sort(ground.repository, due), phrase.at)
}

/// The check of the members of the struct or the exception at a place. Costs a step for each member that was given before,
/// and a comparison for each that is there.
#[cycle(check)]
#[tactic(auto, using(crate::proofs::Written::field_is, script_values::proofs::Parts::part_is), unfolding(crate::specs::Checking::fields))]
pub(crate) fn check_fields<'r>(
    fields: &[Field],
    place: usize,
    members: &[Member],
    ground: &Ground<'r>,
    vars: &[Variable<'r>],
) -> Result<Vec<Element>, CheckError>
    ensures { Gives (λ v. parts_view (things_in ground.now) v.items) result
        (Spec.fields (ground_of ground.now) (vars_view vars.now) place
        (members_of (members_view members.now)) (fields_of (map entry_of fields.now)) []) }
{
    let mut elements = Vec::new(ground.alloc);
    for field in fields {
        let at = new_member(members, elements.as_slice(), &field.name)?;
        let due = member_due(place, at);
        let value = check_given(&field.value, due, ground, vars)?;
        elements.push(Element {
            place: at,
            due,
            value,
        })?;
    }
    Ok(elements)
}

/// The check of the elements of a list.
#[cycle(check)]
#[tactic(auto, using(script_values::proofs::Parts::part_is, crate::proofs::Parts::parts_count), unfolding(crate::specs::Checking::elements))]
fn check_elements<'r>(
    phrases: &[Phrase],
    due: TypeRef,
    ground: &Ground<'r>,
    vars: &[Variable<'r>],
) -> Result<Vec<Element>, CheckError>
    ensures { Gives (λ v. parts_view (things_in ground.now) v.items) result
        (Spec.elements (ground_of ground.now) (vars_view vars.now) due
        (saids_of (map said_of phrases.now)) []) }
{
    let mut elements = Vec::new(ground.alloc);
    for phrase in phrases {
        let value = check_given(phrase, due, ground, vars)?;
        let place = elements.len();
        elements.push(Element { place, due, value })?;
    }
    Ok(elements)
}
