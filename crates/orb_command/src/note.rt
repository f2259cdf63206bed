//! What a run came to.

use adapter_policies::ConfigFault;
use client_calls::SystemException;
use client_runs::LocalFault;
use giop_messages::Fault;
use idl_grammar::IdlFault;
use object_refs::RefFault;
use orb_base::Text;
use script_checks::CheckFault;
use script_grammar::ScriptFault;
use std::fmt;
use text_streams::shown;

/// What a file that the words or a configuration name is for.
#[derive(Clone, Copy, Debug, PartialEq, Eq)]
pub enum Role {
    /// It is the configuration.
    Config,
    /// It is the text of IDL.
    Idl,
    /// It is the text of scripts.
    Scripts,
}

/// What a run came to, as the program prints it on standard error.
#[derive(Debug, Drop)]
pub enum Note {
    /// It did what the words say; nothing is printed.
    Nothing,
    /// The words have no reading.
    Usage,
    /// The configuration has this first fault, or no servant serves this first object of it.
    Config(ConfigFault),
    /// The text of IDL has this first fault.
    Idl(IdlFault),
    /// The text of scripts isn't of the grammar, from this token on.
    Script(ScriptFault),
    /// The scripts have this first fault over the interfaces.
    Check(CheckFault),
    /// A file is longer than it may be.
    TooLong(Role),
    /// The input, or the store of files, failed.
    ReadFault,
    /// The output failed.
    WriteFault,
    /// The net failed.
    NetFault,
    /// The input is refused at this offset.
    Input(u64, Fault),
    /// There is no file of the name that the words or the configuration have.
    Absent(Role),
    /// The text of a reference is refused.
    Reference(RefFault),
    /// The words ask for no call, for this reason. The net was not asked.
    Local(LocalFault),
    /// The remote object answered this system exception.
    System(SystemException),
    /// The remote object answered an exception of an IDL file, which has this id.
    User(Text),
    /// The remote object is elsewhere, by a reply of this status: 3 to 5.
    Forward(u32),
    /// The peer broke a rule before its reply: the offset in its bytes, and the cause.
    Peer(u64, Fault),
    /// The body of the reply has no reading.
    PeerBody,
    /// The peer ended the connection before its reply.
    Closed,
    /// Out of memory.
    Memory,
    /// A limit of the run was met.
    Limit,
    /// The input is no traces: the offset of its first line at fault.
    Trace(u64),
    /// A run of a trace isn't legal: its number in the input, and that of its first entry that isn't.
    Audit(u32, u32),
}

/// The name of what a file is for.
fn role_name(role: Role) -> &'static str {
    match role {
        Role::Config => "config",
        Role::Idl => "idl",
        Role::Scripts => "scripts",
    }
}

/// The name of why words ask for no call.
fn local_name(fault: LocalFault) -> &'static str {
    match fault {
        LocalFault::BadReference => "BadReference",
        LocalFault::NoInterface => "NoInterface",
        LocalFault::NoOperation => "NoOperation",
        LocalFault::BadArguments => "BadArguments",
        LocalFault::NoBand => "NoBand",
        LocalFault::SharedBand => "SharedBand",
    }
}

/// The line that the program prints of it on standard error, without its line feed. `Nothing` prints nothing.
impl fmt::Display for Note {
    fn fmt<W: fmt::Write>(&self, f: &mut fmt::Formatter<W>) -> fmt::Result {
        match self {
            Note::Nothing => Ok(()),
            Note::Usage => f.write_str("usage"),
            Note::Config(fault) => {
                let path = shown(fault.path.as_slice());
                write!(f, "refused: config: {path}: {}", fault.cause)
            }
            Note::Idl(fault) => write!(f, "refused: idl: {fault}"),
            Note::Script(fault) => write!(f, "refused: scripts: {fault}"),
            Note::Check(fault) => write!(f, "refused: scripts: {fault}"),
            Note::TooLong(role) => write!(f, "refused: {}: TooLong", role_name(*role)),
            Note::ReadFault => f.write_str("read fault"),
            Note::WriteFault => f.write_str("write fault"),
            Note::NetFault => f.write_str("network fault"),
            Note::Input(offset, fault) => write!(f, "input: offset {offset}: {fault}"),
            Note::Absent(role) => write!(f, "absent: {}", role_name(*role)),
            Note::Reference(fault) => write!(f, "reference: {fault}"),
            Note::Local(fault) => write!(f, "local: {}", local_name(*fault)),
            Note::System(exception) => {
                let id = shown(exception.id.as_slice());
                let minor = exception.minor;
                write!(
                    f,
                    "remote: {id} minor {minor} completed {}",
                    exception.completed
                )
            }
            Note::User(id) => {
                let id = shown(id.as_slice());
                write!(f, "remote: {id}")
            }
            Note::Forward(status) => write!(f, "remote: status {status}"),
            Note::Peer(offset, fault) => write!(f, "peer: offset {offset}: {fault}"),
            Note::PeerBody => f.write_str("peer: body"),
            Note::Closed => f.write_str("closed"),
            Note::Memory => f.write_str("memory"),
            Note::Limit => f.write_str("limit"),
            Note::Trace(offset) => write!(f, "trace: offset {offset}"),
            Note::Audit(run, entry) => write!(f, "audit: run {run} entry {entry}"),
        }
    }
}
