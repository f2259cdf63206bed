//! The lines of whole messages.
ghost use Rattle.std.specs.Prelude.{◌≡◌, ◌++◌, IfOk, OnOk, string_bytes};
ghost use Rattle.std.specs.List.{All};
ghost use Rattle.giop_messages.specs.MessageReading.{IsMessage, message_at};
ghost use Rattle.giop_dump.specs.Ending.{line_by, refusal_by, lines_before, first_refusal};

use crate::dump_line::put_line;
use crate::refusal::Refusal;
use giop_frames::Whole;
use giop_messages::read_parts;
use orb_base::NoMemory;
use std::alloc::Global;

/// The lines of the messages before the first one without a reading, and why that one has none.
#[derive(Drop)]
pub struct DumpLines {
    pub text: String,
    pub refusal: Option<Refusal>,
}

/// Reads a whole message where it lies, and puts its line after the text. Gives why the message has no reading, if it has none.
fn put_message(text: &mut String, whole: &Whole) -> Result<Option<Refusal>, NoMemory>
    requires { IsMessage whole.now }
    ensures text { OnOk result (string_bytes text.new ≡ string_bytes text.old ++ line_by whole.now (message_at whole.now)) }
    ensures refusal { IfOk result (λ refusal. refusal ≡ refusal_by whole.now (message_at whole.now)) }
{
    match read_parts(whole) {
        Ok(parts) => {
            put_line(text, whole, &parts)?;
            Ok(None)
        }
        Err(fault) => match fault.cause() {
            Some(fault) => {
                let offset = whole.at;
                Ok(Some(Refusal { offset, fault }))
            }
            // Reading in parts takes no memory.
            None => Err(NoMemory),
        },
    }
}

/// Reads whole messages, up to the first one without a reading.
pub fn dump_lines(alloc: Global, messages: &[Whole]) -> Result<DumpLines, NoMemory>
    requires { All IsMessage messages.now }
    ensures text { IfOk result (λ lines. string_bytes lines.text ≡ lines_before messages.now) }
    ensures refusal { IfOk result (λ lines. lines.refusal ≡ first_refusal messages.now) }
{
    let mut text = String::new(alloc);
    for whole in messages {
        let refusal = put_message(&mut text, whole)?;
        if refusal.is_some() {
            return Ok(DumpLines { text, refusal });
        }
    }
    Ok(DumpLines {
        text,
        refusal: None,
    })
}
