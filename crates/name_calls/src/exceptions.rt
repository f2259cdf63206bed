//! The system exceptions of a name service.
ghost use Rattle.std.specs.Prelude.{◌≡◌};
ghost use Rattle.orb_base.specs.Outcomes as base;
ghost use Rattle.orb_base.specs.declared.outcome.Outcome.TheVariants.{System};
ghost use Rattle.name_calls.specs.Bodies as Spec;

use orb_base::{Completed, Outcome, Sys, SysName};

fn system(name: SysName, completed: Completed) -> Outcome
    ensures { result ≡ System (record { name = name; minor = 1; completed = completed }) }
{
    Outcome::System(Sys {
        name,
        minor: 1,
        completed,
    })
}

/// The service has no operation of the name.
pub(crate) fn bad_operation() -> Outcome
    ensures { result ≡ base.bad_operation }
{
    system(SysName::BadOperation, Completed::No)
}

/// The body hasn't the operation's parameters.
pub(crate) fn marshal() -> Outcome
    ensures { result ≡ Spec.marshal }
{
    system(SysName::Marshal, Completed::No)
}

/// A text is too long, or a key is empty.
pub(crate) fn limited() -> Outcome
    ensures { result ≡ Spec.limited }
{
    system(SysName::ImpLimit, Completed::Maybe)
}
