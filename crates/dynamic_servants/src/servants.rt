//! Servants of interfaces.
ghost use Rattle.std.specs.Prelude.{◌≡◌, ◌++◌, [], IfOk, OnErr, is_some, replicate, Some};
ghost use Rattle.std.specs.Option.{option_map};
ghost use Rattle.orb_base.specs.Outcomes as base;
ghost use Rattle.cdr_core.specs.Reading.{string_at};
ghost use Rattle.cdr_values.specs.Values.{values_view};
ghost use Rattle.idl_types.specs.BuiltIn.{with_ping};
ghost use Rattle.idl_types.specs.Contents.{things_of};
ghost use Rattle.idl_types.specs.Views.{operation_of};
ghost use Rattle.servant_scripts.specs.Views.{script_of};
ghost use Rattle.script_values.specs.Operations.{blank};
ghost use Rattle.script_values.specs.Gives as run;
ghost use Rattle.script_checks.specs.Gives as check;
ghost use Rattle.script_checks.specs.Methods as methods;
ghost use Rattle.dynamic_servants.specs.Arguments as Begin;
ghost use Rattle.dynamic_servants.specs.Gives.{Answers};
ghost use Rattle.dynamic_servants.specs.Outcome as Spec;

use crate::arguments::arguments;
use crate::built_in::with_built_in;
use crate::finding::{find_operation, interface_at, servant_at, work_at};
use crate::kin::is_one_of;
use crate::replies::{BODY_PLACE, end_with, tell_truth};
use crate::system::{bad_operation, marshal, no_memory, or_limited};
use crate::target::{Target, Work};
use cdr_core::Reader;
use cdr_values::{DecodeFault, IdlValue};
use idl_types::{Operation, Repository};
use orb_base::{Job, NoMemory, Outcome, Serving, Text};
use script_checks::{CheckError, CheckedServant, check};
use script_values::{Stop, run};
use servant_scripts::Script;
use std::alloc::Global;

/// Servants of the interfaces of a repository, the built-in one among them.
///
/// A request costs a hash for its interface, a comparison of numbers for each servant, one of names for each operation up to
/// its own, and one of numbers for each method; then its parameters are read, its method is run and its reply is spelled,
/// at the cost of their sizes. No other name is compared. For `_is_a` the bases are followed, none of them twice. The stack
/// grows with the depth of types and of brackets.
#[derive(Drop)]
pub struct Servants {
    alloc: Global,
    repository: Repository,
    servants: Vec<CheckedServant>,
}

/// Values, and after them so many variables in which nothing was put.
fn extended(mut slots: Vec<IdlValue>, n: usize) -> Result<Vec<IdlValue>, NoMemory>
    ensures { IfOk result (λ v. values_view v.items ≡ values_view slots.items ++ replicate n blank) }
{
    for _ in 0..n {
        slots.push(IdlValue::Boolean(false))?;
    }
    Ok(slots)
}

impl Servants {
    ghost use Rattle.dynamic_servants.specs.Served.{served_of, served_by, target_view, work_view};

    /// The servants that a script gives the interfaces of a repository, and that of the built-in module, which is put into
    /// the repository where it isn't there yet; or the first fault of the script in the order of the text. Works as the
    /// check of the script does.
    pub fn check(
        alloc: Global,
        repository: Repository,
        script: &Script,
    ) -> Result<Servants, CheckError>
        ensures { check.Gives served_of result (served_by (with_ping (things_of repository)) (script_of script.now)) }
    {
        let repository = repository.with_ping()?;
        let checked = check(alloc, &repository, script)?;
        let servants = with_built_in(checked.servants, &repository, alloc)?;
        Ok(Servants {
            alloc,
            repository,
            servants,
        })
    }

    /// The interface at a place with its servant.
    fn target_at(&self, place: usize) -> Option<Target<'_>>
        ensures { option_map (target_view (things_of self.now.repository)) result ≡ Spec.target_at (served_of self.now) place }
    {
        match interface_at(&self.repository, place) {
            Some(interface) => match servant_at(self.servants.as_slice(), place) {
                Some(servant) => Some(Target { interface, servant }),
                None => None,
            },
            None => None,
        }
    }

    /// The interface of an id with its servant.
    fn target(&self, id: &[u8]) -> Option<Target<'_>>
        ensures { option_map (target_view (things_of self.now.repository)) result ≡ Spec.target_of (served_of self.now) id.now }
    {
        match self.repository.place_of(id) {
            Some(place) => self.target_at(place),
            None => None,
        }
    }

    /// Whether there is a servant of the interface of an id. Costs a hash, and a comparison of numbers for each servant.
    /// Takes no memory.
    pub fn serves(&self, interface: &[u8]) -> bool
        ensures { result ≡ is_some (Spec.target_of (served_of self.now) interface.now) }
    {
        self.target(interface).is_some()
    }

    /// What a method comes to on the values of its parameters.
    fn carry_out(
        &self,
        operation: &Operation,
        work: Work<'_>,
        job: &Job,
        values: Vec<IdlValue>,
    ) -> Result<Outcome, Stop>
        ensures { run.Gives (λ o. o) result (Spec.carried_out (things_of self.now.repository) (operation_of operation.now)
            (work_view (things_of self.now.repository) work.entry) job.now (values_view values.items)) }
    {
        let mut slots = extended(values, work.lets)?;
        let flow = run(
            work.body,
            &self.repository,
            self.alloc,
            job.priority,
            &mut slots,
        )?;
        end_with(
            flow,
            operation,
            slots.as_slice(),
            &self.repository,
            job.order,
            self.alloc,
        )
    }

    /// What an operation comes to on the parameters of a job.
    fn carry(&self, operation: &Operation, work: Work<'_>, job: &Job) -> Result<Outcome, NoMemory>
        ensures { Answers result (Spec.carried (things_of self.now.repository) (operation_of operation.now)
            (work_view (things_of self.now.repository) work.entry) job.now
            (Begin.arguments (operation_of operation.now).params [] (Spec.body_at job.now))) }
    {
        match arguments(
            operation.params.as_slice(),
            job.order,
            job.body.as_slice(),
            self.alloc,
        ) {
            Ok(values) => or_limited(self.carry_out(operation, work, job, values)),
            Err(DecodeFault::Cdr(_)) => Ok(marshal()),
            Err(DecodeFault::NoMemory) => Err(NoMemory),
        }
    }

    /// What an object answers to a job whose operation isn't the broker's own.
    #[tactic(auto, using(crate::proofs::Fine::carried_other))]
    fn ask(&self, target: Target<'_>, job: &Job) -> Result<Outcome, NoMemory>
        ensures value { Answers result (Spec.asked (things_of self.now.repository) (target_view (things_of self.now.repository) target.entry).1 job.now
            (methods.find_operation 0 (target_view (things_of self.now.repository) target.entry).0.operations job.now.operation)) }
        ensures served { OnErr result (Spec.asked (things_of self.now.repository) (target_view (things_of self.now.repository) target.entry).1 job.now
            (methods.find_operation 0 (target_view (things_of self.now.repository) target.entry).0.operations job.now.operation) ≡ base.bad_operation → ⊥) }
    {
        let operations = target.interface.operations.as_slice();
        let Some(asked) = find_operation(operations, job.operation.as_slice()) else {
            return Ok(bad_operation());
        };
        let work = work_at(target.servant.methods.as_slice(), asked.at);
        self.carry(asked.operation, work, job)
    }

    /// Whether the interface is one of the id that the body has.
    fn tell_kin(&self, id: &[u8], job: &Job) -> Result<Outcome, NoMemory>
        ensures { Answers result (Spec.told_kin (things_of self.now.repository) id.now job.now (string_at (Spec.body_at job.now))) }
    {
        let mut reader = Reader::new(job.order, BODY_PLACE, job.body.as_slice());
        match reader.take_string() {
            Ok(other) => {
                let holds = is_one_of(&self.repository, id, other);
                or_limited(tell_truth(holds, job.order, self.alloc))
            }
            Err(_) => Ok(marshal()),
        }
    }

    /// What an object of a served interface answers.
    #[tactic(auto, using(crate::proofs::Fine::told_other, crate::proofs::Fine::told_kin_other))]
    fn tell(&self, id: &[u8], target: Target<'_>, job: &Job) -> Result<Outcome, NoMemory>
        ensures value { Answers result (Spec.answered (things_of self.now.repository) id.now job.now (Some (target_view (things_of self.now.repository) target.entry))) }
        ensures served { OnErr result (Spec.answered (things_of self.now.repository) id.now job.now (Some (target_view (things_of self.now.repository) target.entry)) ≡ base.bad_operation → ⊥) }
    {
        if job.operation.as_slice() == b"_is_a".as_slice() {
            return self.tell_kin(id, job);
        }
        if job.operation.as_slice() == b"_non_existent".as_slice() {
            return or_limited(tell_truth(false, job.order, self.alloc));
        }
        self.ask(target, job)
    }

    /// What an object of the interface of an id answers.
    #[tactic(auto, unfolding(crate::specs::Outcome::outcome_of))]
    fn answer(&self, id: &[u8], job: &Job) -> Result<Outcome, NoMemory>
        ensures value { Answers result (Spec.outcome_of (served_of self.now) id.now job.now) }
        ensures served { OnErr result (Spec.outcome_of (served_of self.now) id.now job.now ≡ base.bad_operation → ⊥) }
    {
        match self.target(id) {
            Some(target) => self.tell(id, target, job),
            None => Ok(bad_operation()),
        }
    }
}

impl Serving for Servants {
    ghost use Rattle.dynamic_servants.specs.Served.{served_of};

    ghost outcome = { λ s interface job. Spec.outcome_of (served_of s) interface job };

    #[tactic(auto, using(crate::proofs::Fine::outcome_small))]
    fn invoke(&self, interface: &Text, job: &Job) -> Outcome {
        match self.answer(interface.as_slice(), job) {
            Ok(outcome) => outcome,
            Err(NoMemory) => no_memory(),
        }
    }
}
