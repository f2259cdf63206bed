//! The scripts of a setup.
ghost use Rattle.std.specs.Prelude.{◌≡◌, ◌≤◌, length};
ghost use Rattle.setup_servants.specs.Scripts.{Says, ReadsScripts};

use crate::fault::{ServingFault, TextRole};
use crate::texts::text_of;
use adapter_policies::Setup;
use idl_tokens::MAX_TEXT;
use orb_base::Files;
use servant_scripts::{Script, ScriptError, read_script};
use std::alloc::Global;

/// What the bytes of a text of scripts say.
fn said_by(alloc: Global, bytes: &[u8]) -> Result<Script, ServingFault>
    requires { length bytes.now ≤ MAX_TEXT }
    ensures { Says result bytes.now }
{
    match read_script(alloc, bytes) {
        Ok(script) => Ok(script),
        Err(ScriptError::Refused(fault)) => Err(ServingFault::Script(fault)),
        Err(ScriptError::NoMemory) => Err(ServingFault::NoMemory),
    }
}

/// What the setup's text of scripts says.
#[tactic(auto, using(crate::proofs::Readings::scripts_read, crate::proofs::Readings::scripts_unread))]
pub(crate) fn read_scripts<F: Files>(
    alloc: Global,
    files: &mut F,
    setup: &Setup,
) -> Result<Script, ServingFault>
    ensures reads { ReadsScripts result setup.now.scripts (F.state files.old) (F.state files.new) }
    ensures kept { (F.state files.new).files ≡ (F.state files.old).files }
{
    match text_of(alloc, files, setup.scripts(), TextRole::Scripts) {
        Ok(bytes) => said_by(alloc, bytes.as_slice()),
        Err(fault) => Err(fault),
    }
}
