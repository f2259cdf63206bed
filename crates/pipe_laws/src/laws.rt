//! Laws on the runs of the pipe. The bodies are empty: each contract is a law of the definitions.
ghost use Rattle.std.specs.Prelude.{ℕ, List};
ghost use Rattle.orb_base.specs.JobRecord.{JobRecord};
ghost use Rattle.orb_base.specs.declared.outcome.Outcome.{Outcome};
ghost use Rattle.lane_machine.specs.declared.call.How.{How};
ghost use Rattle.lane_machine.specs.declared.call.LaneCall.{LaneCall};
ghost use Rattle.lane_machine.specs.State.{opening};
ghost use Rattle.adapter_policies.specs.SetupData.{SetupData};
ghost use Rattle.pipe_laws.specs.Piped.{IsReplayed, piped};
ghost use Rattle.pipe_laws.specs.Groups.{GroupsAreFolded, FoldsGoOn};
ghost use Rattle.pipe_laws.specs.Grouping.{GroupsEndWhereTheyMust};
ghost use Rattle.pipe_laws.specs.Legality.{PipedIsLegal, PipedOwesNothing, PipedIsDone};
ghost use Rattle.pipe_laws.specs.Begun.{BegunTellsLacks};
ghost use Rattle.pipe_laws.specs.Lacking.{LacksAreThere};
ghost use Rattle.pipe_laws.specs.Serials.{OfferedFinishesOnce, PipedMakesCalls, CountingRises, RisingOffersOnce, PipedTakesOnce};

/// A run of the pipe, over any setup, servants, calls and groups, is where its history leads.
pub fn piped_is_replayed()
    ensures { (setup : SetupData) (outcome : List ℕ → JobRecord → Outcome) (batch : ℕ) (calls : List LaneCall) (how : How)
        (lacks : List ℕ) → IsReplayed (opening setup.pool setup.slots setup.per_slot) (piped setup outcome batch calls how lacks) }
{}

/// The history of each run of the pipe is legal: over any setup that can open, any servant whose answers fit into a
/// message, any calls of one connection, and groups of any size.
pub fn piped_is_legal()
    ensures { PipedIsLegal }
{}

/// At the end of a run nothing is owed to the connection.
pub fn piped_owes_nothing()
    ensures { PipedOwesNothing }
{}

/// At the end of a run each request that was admitted was finished or removed.
pub fn piped_is_done()
    ensures { PipedIsDone }
{}

/// The groups are a fold over the calls, which may come in several reads.
pub fn groups_are_folded()
    ensures same { GroupsAreFolded }
    ensures more { FoldsGoOn }
{}

/// The calls are made in groups of at most `batch`. A group that isn't the last is full, or the next call isn't ready after it; after
/// the last no call is left, unless the run is closing.
pub fn groups_end_where_they_must()
    ensures { GroupsEndWhereTheyMust }
{}

/// In a legal history from an opening, whose requests are one connection's and have serial numbers that differ, no request
/// is finished twice.
pub fn offered_finishes_once()
    ensures { OfferedFinishesOnce }
{}

/// Where each answer is the outcome of its request, or says out of memory, and no request is finished twice, there are
/// serial numbers with which the servants of `piped` give these answers.
pub fn lacks_are_there()
    ensures { LacksAreThere }
{}

/// A run of the pipe makes its calls in order: all of them, unless one was answered Closing.
pub fn piped_makes_calls()
    ensures { PipedMakesCalls }
{}

/// Serial numbers that count the calls rise.
pub fn counting_rises()
    ensures { CountingRises }
{}

/// A history that made a prefix of calls whose serial numbers rise offered no request twice.
pub fn rising_offers_once()
    ensures { RisingOffersOnce }
{}

/// With serial numbers that rise, each request that a run of the pipe admitted and did not remove was taken once and
/// finished once.
pub fn piped_takes_once()
    ensures { PipedTakesOnce }
{}

/// What was done from the opening of a setup on tells the serial numbers of the requests to which memory was wanting, if it
/// is legal, each answer is the outcome or tells of that want, and whatever prefix of it the servants of a run of the pipe
/// give, that run begins so. The serial numbers of the calls rise.
pub fn begun_tells_lacks()
    ensures { BegunTellsLacks }
{}
