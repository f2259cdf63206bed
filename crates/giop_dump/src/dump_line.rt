//! The lines of `orb dump`.
ghost use Rattle.std.specs.Prelude.{◌≡◌, ◌++◌, OnOk, length, string_bytes};
ghost use Rattle.cdr_core.specs.Lists.{listed, IsAtList, context_of};
ghost use Rattle.giop_messages.specs.PartsView.{parts_message, AreSound};
ghost use Rattle.giop_dump.specs.Lines as Text;

use cdr_core::Reader;
use giop_frames::Whole;
use giop_messages::{PartTarget, Parts};
use orb_base::{NoMemory, Order};
use std::fmt;
use std::fmt::Write;
use text_streams::shown;

/// The name of a message's kind: CORBA 3.0.3, section 15.4.1.
fn kind_name(parts: &Parts<'_>) -> &'static str
    ensures { result.now ≡ Text.kind_name (parts_message parts.now) }
{
    match parts {
        Parts::Request { .. } => "Request",
        Parts::Reply { .. } => "Reply",
        Parts::Cancel(_) => "CancelRequest",
        Parts::Locate { .. } => "LocateRequest",
        Parts::Located { .. } => "LocateReply",
        Parts::Close => "CloseConnection",
        Parts::Error => "MessageError",
    }
}

fn order_name(order: Order) -> &'static str
    ensures { result.now ≡ Text.order_name order }
{
    match order {
        Order::Big => "big",
        Order::Little => "little",
    }
}

/// How many contexts the list has that a reader is at.
#[tactic(auto, using(crate::proofs::Counts::counted, crate::proofs::Counts::uncounted))]
fn context_count(list: &Reader<'_>) -> u32
    requires { IsAtList context_of list.now }
    ensures { result ≡ length (listed context_of list.now) }
{
    let mut reader = list.copy();
    match reader.take_count() {
        Ok(count) => count,
        // A list that has a reading begins with its count.
        Err(_) => 0,
    }
}

/// The object that a message is for.
#[derive(Clone, Copy)]
struct ShownTarget<'a> {
    target: &'a PartTarget<'a>,
}

impl fmt::Display for ShownTarget<'_> {
    ghost use Rattle.std.specs.Prelude.{Some};
    ghost use Rattle.giop_messages.specs.PartsView.{parts_target};

    ghost output = { λ t. Some (Text.target_text (parts_target t.target.now)) };

    fn fmt<W: fmt::Write>(&self, f: &mut fmt::Formatter<W>) -> fmt::Result {
        match self.target {
            PartTarget::Key(key) => write!(f, "key {}", shown(key)),
            PartTarget::Profile { .. } => f.write_str("profile"),
            PartTarget::Addressing { .. } => f.write_str("addressing"),
        }
    }
}

/// How many service contexts and octets of a body a message has.
#[derive(Clone, Copy)]
struct ShownCounts {
    contexts: u32,
    body: usize,
}

impl fmt::Display for ShownCounts {
    ghost use Rattle.std.specs.Prelude.{◌++◌, Some, codes};
    ghost use Rattle.std.specs.Fmt.{decimal};

    ghost output = { λ c. Some (codes " contexts " ++ decimal c.contexts ++ codes " body " ++ decimal c.body) };

    fn fmt<W: fmt::Write>(&self, f: &mut fmt::Formatter<W>) -> fmt::Result {
        write!(f, " contexts {} body {}", self.contexts, self.body)
    }
}

/// The counts of the contexts that a reader is at, and of a body.
fn counts(contexts: &Reader<'_>, body: &[u8]) -> ShownCounts
    requires { IsAtList context_of contexts.now }
    ensures contexts { result.contexts ≡ length (listed context_of contexts.now) }
    ensures body { result.body ≡ length body.now }
{
    ShownCounts {
        contexts: context_count(contexts),
        body: body.len(),
    }
}

/// Puts the fields of a message after the text.
fn put_fields(text: &mut String, parts: &Parts<'_>) -> Result<(), NoMemory>
    requires { AreSound parts.now }
    ensures { OnOk result (string_bytes text.new ≡ string_bytes text.old ++ Text.fields_text (parts_message parts.now)) }
{
    match parts {
        Parts::Request {
            id,
            flags,
            target: object,
            operation: name,
            contexts,
            body,
        } => {
            let target = ShownTarget { target: object };
            let operation = shown(name);
            let counts = counts(contexts, body);
            write!(
                text,
                " id {id} flags {flags} {target} op {operation}{counts}"
            )?;
        }
        Parts::Reply {
            id,
            status,
            contexts,
            body,
        } => {
            let counts = counts(contexts, body);
            write!(text, " id {id} status {status}{counts}")?;
        }
        Parts::Cancel(id) => write!(text, " id {id}")?,
        Parts::Locate { id, target: object } => {
            let target = ShownTarget { target: object };
            write!(text, " id {id} {target}")?;
        }
        Parts::Located { id, status } => write!(text, " id {id} status {status}")?,
        Parts::Close => (),
        Parts::Error => (),
    }
    Ok(())
}

/// What comes before the fields of a message.
#[derive(Clone, Copy)]
struct ShownHead<'a> {
    whole: &'a Whole,
    parts: &'a Parts<'a>,
}

impl fmt::Display for ShownHead<'_> {
    ghost use Rattle.std.specs.Prelude.{Some};

    ghost output = { λ h. Some (Text.head_text h.whole.now (parts_message h.parts.now)) };

    fn fmt<W: fmt::Write>(&self, f: &mut fmt::Formatter<W>) -> fmt::Result {
        let whole = self.whole;
        let kind = kind_name(self.parts);
        let order = order_name(whole.order);
        write!(f, "{} {kind} {order} {}", whole.at, whole.bytes.len())
    }
}

/// Puts the line of a whole message, which was read in these parts, after the text.
#[tactic(auto, using(crate::proofs::Counts::put_in_parts))]
pub fn put_line(text: &mut String, whole: &Whole, parts: &Parts<'_>) -> Result<(), NoMemory>
    requires { AreSound parts.now }
    ensures { OnOk result (string_bytes text.new ≡ string_bytes text.old ++ Text.dump_line whole.now (parts_message parts.now)) }
{
    let head = ShownHead { whole, parts };
    write!(text, "{head}")?;
    put_fields(text, parts)?;
    text.push_str("\n")?;
    Ok(())
}
