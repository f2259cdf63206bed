//! A setup with its servants.
ghost use Rattle.std.specs.Prelude.{◌≡◌, option_map};
ghost use Rattle.setup_files.specs.Brokers.{GivesBroker, Serves};

use crate::setup_end::SetupEnd;
use crate::setups::setup_of;
use adapter_policies::Setup;
use dynamic_servants::Servants;
use orb_base::{Files, Text};
use setup_servants::servants_of;
use std::alloc::Global;

/// A setup, and servants for all its objects.
#[derive(Drop)]
pub struct Broker {
    pub setup: Setup,
    pub servants: Servants,
}

/// A setup with the servants that its files give.
fn with_servants<F: Files>(alloc: Global, files: &mut F, setup: Setup) -> Result<Broker, SetupEnd>
    ensures serves { Serves result setup (F.state files.old) (F.state files.new) }
    ensures kept { (F.state files.new).files ≡ (F.state files.old).files }
{
    match servants_of(alloc, files, &setup) {
        Ok(servants) => Ok(Broker { setup, servants }),
        Err(fault) => Err(SetupEnd::Unserved(fault)),
    }
}

/// The setup of the configuration of this name, or the built-in one where there is no name, with the servants of its interfaces and
/// scripts. The first fault in the order of work is the answer: of the file of the configuration, of the configuration, of its
/// interfaces, of its scripts, of an object that no servant serves. It reads each file once, and costs what reading their texts costs.
#[tactic(auto, using(crate::proofs::Ends::setup_serves, crate::proofs::Ends::no_setup))]
pub fn read_broker<F: Files>(
    alloc: Global,
    files: &mut F,
    config: Option<&Text>,
) -> Result<Broker, SetupEnd>
    // The setup and its servants, or why there are none.
    ensures gives { GivesBroker result (option_map (λ name. name.now) config.entry) (F.state files.old) (F.state files.new) }
    // The store knows the same files as before.
    ensures kept { (F.state files.new).files ≡ (F.state files.old).files }
{
    let setup = setup_of(alloc, files, config)?;
    with_servants(alloc, files, setup)
}
