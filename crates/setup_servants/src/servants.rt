//! The servants of a setup.
ghost use Rattle.std.specs.Prelude.{◌≡◌};
ghost use Rattle.idl_types.specs.Contents.{things_of};
ghost use Rattle.servant_scripts.specs.Views.{script_of};
ghost use Rattle.dynamic_servants.specs.Served.{served_of};
ghost use Rattle.setup_servants.specs.Servants.{GivesServants, JudgesObjects, Serves};

use crate::fault::ServingFault;
use crate::interfaces::read_interfaces;
use crate::scripts::read_scripts;
use crate::serving::judge_served;
use adapter_policies::Setup;
use config_tables::SetupError;
use dynamic_servants::Servants;
use idl_types::Repository;
use orb_base::Files;
use script_checks::CheckError;
use servant_scripts::Script;
use std::alloc::Global;

/// Servants, where each object of a setup is served.
fn judge_objects(alloc: Global, setup: &Setup, servants: Servants) -> Result<Servants, ServingFault>
    ensures { JudgesObjects result setup.now (served_of servants) }
{
    match judge_served(alloc, setup, &servants) {
        Ok(()) => Ok(servants),
        Err(SetupError::Refused(fault)) => Err(ServingFault::Object(fault)),
        Err(SetupError::NoMemory) => Err(ServingFault::NoMemory),
    }
}

/// The servants that a script gives interfaces, where each object of a setup is served.
#[tactic(auto, using(crate::proofs::Ends::serves_judged))]
fn check_script(
    alloc: Global,
    setup: &Setup,
    repository: Repository,
    script: &Script,
) -> Result<Servants, ServingFault>
    ensures { Serves result setup.now (things_of repository) (script_of script.now) }
{
    match Servants::check(alloc, repository, script) {
        Ok(servants) => judge_objects(alloc, setup, servants),
        Err(CheckError::Refused(fault)) => Err(ServingFault::Check(fault)),
        Err(CheckError::NoMemory) => Err(ServingFault::NoMemory),
    }
}

/// The servants of a setup: those that its scripts give its interfaces, and that of the built-in interface. Each text is that of
/// the file that the setup names, of at most 1,048,576 bytes, or the empty one where it names none; and each object of the setup
/// is of an interface that they serve. The first fault is given in the order of work, as `ServingFault` has it. Work and memory
/// grow with the texts and with what they declare, and each object costs a look-up and a comparison of numbers for each servant.
#[tactic(auto, using(crate::proofs::Ends::both_read, crate::proofs::Ends::scripts_not, crate::proofs::Ends::interfaces_not))]
pub fn servants_of<F: Files>(
    alloc: Global,
    files: &mut F,
    setup: &Setup,
) -> Result<Servants, ServingFault>
    // The servants, or the first fault; the files are those that the store told before.
    ensures gives { GivesServants result setup.now (F.state files.old) (F.state files.new) }
    // The store tells the same files as before.
    ensures kept { (F.state files.new).files ≡ (F.state files.old).files }
{
    match read_interfaces(alloc, files, setup) {
        Ok(repository) => match read_scripts(alloc, files, setup) {
            Ok(script) => check_script(alloc, setup, repository, &script),
            Err(fault) => Err(fault),
        },
        Err(fault) => Err(fault),
    }
}
