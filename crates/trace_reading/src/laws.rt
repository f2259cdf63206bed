//! Laws of reading traces. The bodies are empty: each contract is a law of the definitions.
ghost use Rattle.trace_reading.specs.Laws.{LinesReadBack, LinesWereWritten, HasOneReading, HasOneFault};

/// A line is read back as it was printed, and what is read as a line was printed so.
pub fn lines_read_back()
    ensures back { LinesReadBack }
    ensures written { LinesWereWritten }
{}

/// An input has one reading.
pub fn inputs_have_one_reading()
    ensures { HasOneReading }
{}

/// An input has its first line at fault at one offset at most.
pub fn first_fault_is_one()
    ensures { HasOneFault }
{}
