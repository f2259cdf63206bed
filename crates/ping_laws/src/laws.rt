//! Laws on the runs of the pipe.
ghost use Rattle.ping_laws.specs.Setup.{HasDistinctKeys, IsRunnable};
ghost use Rattle.adapter_policies.specs.BuiltIn.{built_in};
ghost use Rattle.ping_laws.specs.Replied.{PingsReplied, PingRunsAt100, MeetsNoLimit};
ghost use Rattle.ping_laws.specs.Telling.{BuiltInTells};

/// Bytes of an input of which the laws speak.
pub const MAX_PINGS: usize = 8192;

/// The objects of the built-in setup have different keys.
pub fn built_in_is_distinct()
    ensures { HasDistinctKeys built_in }
{}

/// The built-in setup is one of which these laws speak: a pool of one static thread, with slots.
#[tactic(auto, using(crate::proofs::CanOpen::built_in_is_runnable))]
pub fn built_in_is_runnable()
    ensures { IsRunnable built_in }
{}

/// The servant of `Orb::Ping` answers each request for `current` that runs over the built-in setup by its priority.
#[tactic(auto, using(crate::proofs::Tellings::built_in_tells))]
pub fn built_in_tells_priorities()
    ensures { BuiltInTells }
{}

/// What the pipe of a setup whose servants tell priorities writes to bytes of the built form, where no limit of the run is met, is read as exactly one reply to each
/// request of the bytes, in the order in which the requests were completed, with its id and in its byte order, and as nothing else:
/// at the end of the input, and after a failed read. In the built-in setup no such bytes meet a limit of the run, and each request
/// runs at the priority 100.
pub fn pings_are_replied()
    ensures replied { PingsReplied }
    ensures unlimited { MeetsNoLimit }
    ensures level { PingRunsAt100 }
{}
