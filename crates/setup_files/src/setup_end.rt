//! Why there is no setup with servants.

use adapter_policies::ConfigFault;
use setup_servants::ServingFault;

/// The most bytes of a configuration that is read: own profile.
pub const MAX_CONFIG: usize = 1_048_576;

/// Why there is no setup with servants.
#[derive(Drop)]
pub enum SetupEnd {
    /// The configuration has this first fault.
    Refused(ConfigFault),
    /// There is no configuration of this name.
    Absent,
    /// The configuration is longer than `MAX_CONFIG` bytes.
    TooLong,
    /// There are no servants for the objects of the configuration, for this reason.
    Unserved(ServingFault),
    /// The store of files failed when the configuration was read.
    ReadFault,
    /// Out of memory for the setup.
    NoMemory,
}
