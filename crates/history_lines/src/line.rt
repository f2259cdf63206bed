//! The lines of a history.
ghost use Rattle.std.specs.Prelude.{◌≡◌, ◌++◌, IfOk, OnOk, string_bytes};
ghost use Rattle.history_lines.specs.Lines as Text;

use crate::call_text::CallText;
use crate::reply_text::ReplyText;
use lane_machine::{LaneCall, LaneReply, Lanes};
use orb_base::NoMemory;
use std::alloc::Global;
use std::fmt;
use std::fmt::Write;
use turn_cell::Entry;

/// The line of a call with its reply.
#[derive(Clone, Copy)]
struct Line<'a> {
    call: &'a LaneCall,
    reply: &'a LaneReply,
}

impl fmt::Display for Line<'_> {
    ghost use Rattle.std.specs.Prelude.{Some};

    ghost output = { λ l. Some (Text.line l.call.now l.reply.now) };

    fn fmt<W: fmt::Write>(&self, f: &mut fmt::Formatter<W>) -> fmt::Result {
        let call = CallText { call: self.call };
        let reply = ReplyText { reply: self.reply };
        writeln!(f, "{call}{reply}")
    }
}

/// Puts the line of a call and its reply after the text; once out of memory the text may hold a part of the line. The
/// work is that of the line.
pub fn put_line(text: &mut String, entry: &Entry<Lanes>) -> Result<(), NoMemory>
    ensures { OnOk result (string_bytes text.new ≡ string_bytes text.old ++ Text.entry_line entry.now) }
{
    let call = &entry.call;
    let reply = &entry.reply;
    let line = Line { call, reply };
    write!(text, "{line}")?;
    Ok(())
}

/// The lines of a history, one for each of its calls, in their order. A line has the call's kind, its connection as
/// `c<slot>.<nth>`, the id of its request after `#`, its priority after `p` and its lane after `l`, a thread after `t`,
/// and then the reply; it ends with a line feed. Work and memory grow with the text.
pub fn history_text(alloc: Global, history: &[Entry<Lanes>]) -> Result<String, NoMemory>
    ensures { IfOk result (λ text. string_bytes text ≡ Text.history_text history.now) }
{
    let mut text = String::new(alloc);
    for entry in history {
        put_line(&mut text, entry)?;
    }
    Ok(text)
}
