//! What the words of a command line mean.

use client_mux::CallerCount;
use client_runs::CallWords;
use load_runs::LoadPlan;
use object_lines::Address;
use orb_base::Text;
use pipe_runs::{Batch, Shown};
use server_runs::RunPlan;

/// The options of `pipe`.
#[derive(Drop)]
pub struct PipeWords {
    /// The name of a configuration, where there is one.
    pub config: Option<Text>,
    /// How many calls a group has at most; 1 where none is said.
    pub batch: Batch,
    /// What is written: the bytes of GIOP, with `--history` the text of the history, or with `--trace` its trace.
    pub shown: Shown,
}

/// The options of `serve`.
#[derive(Drop)]
pub struct ServeWords {
    /// The name of the configuration.
    pub config: Text,
    /// Where to listen.
    pub at: Address,
    /// How many runs are made at most, 1 where no number is said, and whether the trace of each is written.
    pub plan: RunPlan,
}

/// The options of `load`.
#[derive(Drop)]
pub struct LoadWords {
    /// The name of a configuration, where there is one.
    pub config: Option<Text>,
    /// What the load is to be.
    pub plan: LoadPlan,
}

/// What the words of a command line mean.
#[derive(Drop)]
pub enum Meaning {
    /// The command `pipe`.
    Pipe(PipeWords),
    /// The command `serve`.
    Serve(ServeWords),
    /// The command `names`, at an address.
    Names(Address),
    /// The command `dump`.
    Dump,
    /// The command `audit`.
    Audit,
    /// The command `refs`.
    Refs,
    /// The command `refs` at an address, with the name of a configuration where there is one.
    RefsAt(Address, Option<Text>),
    /// The command `idl`, with the name of a file.
    Idl(Text),
    /// The command `call`.
    Call(CallWords),
    /// The command `call` with `--callers`: so many callers make the call over one link.
    SharedCall {
        /// The call.
        words: CallWords,
        /// How many callers there are.
        callers: CallerCount,
    },
    /// The command `load`.
    Load(LoadWords),
    /// The words have no reading.
    Unread,
}
