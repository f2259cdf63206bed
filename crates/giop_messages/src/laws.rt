//! Laws that tie the definitions of messages to one another.
ghost use Rattle.std.specs.Prelude.{◌≡◌, ℕ, ◌<◌, ◌^◌, List, length};
ghost use Rattle.orb_base.specs.declared.order.Order.{Order};
ghost use Rattle.cdr_core.specs.Spelling.{fields_bytes};
ghost use Rattle.giop_messages.specs.Message.{Message, Fits};
ghost use Rattle.giop_messages.specs.Spelling.{spelled, all_fields};
ghost use Rattle.giop_messages.specs.Reading.{ReadsIn, Reads};
ghost use Rattle.giop_messages.specs.Framing.{StreamsMessages, FeedsMessages, ReadsMessages};
ghost use Rattle.giop_messages.specs.Written.{StreamsWritten, ReadsWritten, UncutWritten};

/// What a message is spelled as is read as that message, in either order.
pub fn spelled_is_read()
    ensures { (order : Order) (message : Message) → Fits message
        → length (fields_bytes order 12 (all_fields message)) < 2 ^ 32
        → ReadsIn order message (spelled order message) }
{}

/// Whole bytes are read as at most one message.
pub fn reads_one_way()
    ensures { (m n : Message) (bytes : List ℕ) → Reads m bytes → Reads n bytes → m ≡ n }
{}

/// What a framer appends, under a limit of at most 262,144 bytes, can be read as messages: `read_message` requires no more.
pub fn framed_is_message()
    ensures stream { StreamsMessages }
    ensures feed { FeedsMessages }
    ensures whole { ReadsMessages }
{}

/// Messages that are written one after the other are what a stream of those bytes holds, and nothing else, under a limit of at
/// most 262,144 bytes; each is read as it was written, and can be cut into pieces where its kind allows it.
pub fn written_is_read()
    ensures stream { StreamsWritten }
    ensures read { ReadsWritten }
    ensures uncut { UncutWritten }
{}
