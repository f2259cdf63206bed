//! Laws on dumps.
ghost use Rattle.giop_dump.specs.Growth.{TextGrows, RefusalStays};
ghost use Rattle.giop_dump.specs.Written.{ShowsWritten};

/// Further bytes add lines after those of the earlier ones, and after a refusal they change nothing. So what a dump
/// answers and writes of the bytes that it took before a fault is what it would of the whole input.
pub fn dumps_go_on()
    ensures text { TextGrows }
    ensures refusal { RefusalStays }
{}

/// A dump of messages that are written one after the other shows each of them, as it was written and at the offset where it
/// begins, and nothing else: none is refused, and nothing is left unfinished.
pub fn written_is_shown()
    ensures { ShowsWritten }
{}
