//! The lines of the objects of a configuration, or of the built-in setup.
ghost use Rattle.std.specs.Prelude.{option_map};
ghost use Rattle.object_lines.specs.Lines.{At};

use crate::address::Address;
use crate::at_end::AtEnd;
use crate::lines::lines_run;
use orb_base::{Files, Sink, Text};
use setup_files::read_broker;
use std::alloc::Global;

/// Writes a line for each object of the configuration of a name, or of the built-in setup where there is no name: the object's key,
/// and the text of its reference at an address. The first fault in the order of work is the answer: of the setup and its servants, of
/// the sink.
#[tactic(auto, using(crate::proofs::Ends::at_broker))]
pub fn at_run<F: Files, O: Sink>(
    alloc: Global,
    files: &mut F,
    sink: &mut O,
    config: Option<&Text>,
    at: &Address,
) -> AtEnd
    ensures { At result (option_map (λ name. name.now) config.entry) at.now (F.state files.old) (F.state files.new)
        (O.state sink.old) (O.state sink.new) }
{
    match read_broker(alloc, files, config) {
        Ok(broker) => lines_run(alloc, sink, &broker.setup, &at.host, at.port),
        Err(end) => AtEnd::NoBroker(end),
    }
}
