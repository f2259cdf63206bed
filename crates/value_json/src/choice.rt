//! Which member of a union a number chooses.
ghost use Rattle.std.specs.Prelude.{◌≡◌, position};
ghost use Rattle.std.specs.List.{list_any};
ghost use Rattle.std.specs.Option.{option_or};
ghost use Rattle.std.specs.Ordering.{int_eq};
ghost use Rattle.cdr_values.specs.Choice.{choose, has_label};
ghost use Rattle.cdr_values.specs.Kinds.{cases_view};
ghost use Rattle.cdr_values.specs.Trees.{cases_of};

use cdr_values::Case;

/// The index of the case that a number chooses: the first with the number among its labels, else the first default.
/// One pass over the labels and one over the cases.
pub(crate) fn chosen_case(tag: i128, cases: &[Case]) -> Option<usize>
    ensures { result ≡ choose tag (cases_of (cases_view cases.now)) }
{
    first_of(labelled(tag, cases), default_case(cases))
}

fn first_of(first: Option<usize>, other: Option<usize>) -> Option<usize>
    ensures { result ≡ option_or first other }
{
    match first {
        Some(index) => Some(index),
        None => other,
    }
}

fn labelled(tag: i128, cases: &[Case]) -> Option<usize>
    ensures { result ≡ position (λ c. has_label tag c.labels.items) cases.now }
{
    cases
        .iter()
        .position(|case| is_among(tag, case.labels.as_slice()))
}

fn default_case(cases: &[Case]) -> Option<usize>
    ensures { result ≡ position (λ c. c.is_default) cases.now }
{
    cases.iter().position(|case| case.is_default)
}

fn is_among(tag: i128, labels: &[i128]) -> bool
    ensures { result ≡ has_label tag labels.now }
{
    labels.iter().any(|label| *label == tag)
}
