//! System exceptions that servants answer.
ghost use Rattle.std.specs.Prelude.{◌≡◌};
ghost use Rattle.orb_base.specs.Outcomes as base;
ghost use Rattle.orb_base.specs.declared.outcome.Outcome.{Outcome};
ghost use Rattle.orb_base.specs.declared.outcome.Outcome.TheVariants.{System};
ghost use Rattle.script_values.specs.Operations.{Comes};
ghost use Rattle.script_values.specs.Gives.{Gives};
ghost use Rattle.dynamic_servants.specs.Exceptions as Spec;
ghost use Rattle.dynamic_servants.specs.Gives.{Answers};

use orb_base::{Completed, NoMemory, Outcome, Sys, SysName};
use script_values::{Limit, Stop};

fn system(name: SysName, completed: Completed) -> Outcome
    ensures { result ≡ System (record { name = name; minor = 1; completed = completed }) }
{
    Outcome::System(Sys {
        name,
        minor: 1,
        completed,
    })
}

pub(crate) fn marshal() -> Outcome
    ensures { result ≡ Spec.marshal }
{
    system(SysName::Marshal, Completed::No)
}

pub(crate) fn bad_operation() -> Outcome
    ensures { result ≡ base.bad_operation }
{
    system(SysName::BadOperation, Completed::No)
}

pub(crate) fn no_memory() -> Outcome
    ensures { result ≡ base.no_memory }
{
    system(SysName::NoMemory, Completed::Maybe)
}

fn limited(limit: Limit) -> Outcome
    ensures { result ≡ Spec.limited limit }
{
    let minor = match limit {
        Limit::TooLarge => 1,
        Limit::Arithmetic => 2,
        Limit::Index => 3,
        Limit::Misfit => 4,
    };
    Outcome::System(Sys {
        name: SysName::ImpLimit,
        minor,
        completed: Completed::Maybe,
    })
}

/// An outcome, or IMP_LIMIT with the minor of the limit that was met.
pub(crate) fn or_limited(answer: Result<Outcome, Stop>) -> Result<Outcome, NoMemory>
    ensures { (asked : Comes Outcome) → Gives (λ o. o) answer asked → Answers result (Spec.or_limited asked) }
{
    match answer {
        Ok(outcome) => Ok(outcome),
        Err(Stop::Limit(limit)) => Ok(limited(limit)),
        Err(Stop::NoMemory) => Err(NoMemory),
    }
}
