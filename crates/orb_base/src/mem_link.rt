//! Links in memory.
ghost use Rattle.std.specs.Prelude.{◌≡◌, []};
ghost use Rattle.orb_base.specs.Outside.{IsNewSource, IsNewSink};

use crate::mem_sink::MemSink;
use crate::mem_source::MemSource;
use crate::sink::Sink;
use crate::source::Source;

/// A link in memory, of which nothing was asked.
#[derive(Drop)]
pub struct MemLink {
    pub source: MemSource,
    pub sink: MemSink,
    ghost unread: { (source.faults ≡ 0) × (source.steady.ends ≡ 0) × (source.steady.tape.taken ≡ []) },
    ghost unwritten: { (sink.faults ≡ 0) × (sink.held.items ≡ []) },
}

impl MemLink {
    /// The link of a source and a sink of which nothing was asked.
    pub fn new(source: MemSource, sink: MemSink) -> MemLink
        requires unread { IsNewSource (⟦<MemSource as Source>⟧.state source) }
        requires unwritten { IsNewSink (⟦<MemSink as Sink>⟧.state sink) }
        ensures source { result.source ≡ source }
        ensures sink { result.sink ≡ sink }
    {
        MemLink { source, sink }
    }
}
