//! Lists of tagged data and of service contexts: CORBA 3.0.3, sections 13.6.2 and 13.7.
ghost use Rattle.std.specs.Prelude.{◌≡◌, ◌<◌, ◌^◌, length, refl, OnErr};
ghost use Rattle.std.specs.List.{AllByRecursion, flat_map};
ghost use Rattle.cdr_core.specs.Answers.{Gives};
ghost use Rattle.cdr_core.specs.Errors.{fault_of};
ghost use Rattle.cdr_core.specs.Lists.{item_at, made_at, list_at, are_spelled_as, AreCounted};
ghost use Rattle.cdr_core.specs.Lists.{item_of_tagged, tagged_of, item_of_context, context_of};
ghost use Rattle.cdr_core.specs.Lists as Spec;
ghost use Rattle.cdr_core.specs.Sequence.{times, Leaves};
ghost use Rattle.cdr_core.specs.Writing.{Puts};

use crate::fault::{CdrError, CdrFault};
use crate::reader::Reader;
use crate::writer::Writer;
use orb_base::{Context, List, NoMemory, Octets, Tagged};
use std::alloc::Global;

/// A value that is spelled as an item: a number of four bytes and an octet sequence.
pub trait Item: Drop {
    /// The item as which it is spelled.
    ghost item: { Self → Spec.Item };

    /// What an item is read as.
    ghost made: { Spec.Item → Self };

    /// The value of these parts.
    fn of(number: u32, bytes: Octets) -> Self
        ensures { result ≡ made (number, bytes.items) };

    /// Its number.
    fn number(&self) -> u32
        ensures { result ≡ (item self.now).0 };

    /// Its octets.
    fn bytes(&self) -> &[u8]
        ensures { result.now ≡ (item self.now).1 };

    ghost again: { (x : Spec.Item) → item (made x) ≡ x };
}

impl Item for Tagged {
    ghost item = { item_of_tagged };

    ghost made = { tagged_of };

    fn of(number: u32, bytes: Octets) -> Tagged {
        Tagged { tag: number, bytes }
    }

    fn number(&self) -> u32 {
        self.tag
    }

    fn bytes(&self) -> &[u8] {
        self.bytes.as_slice()
    }

    ghost again = { λ x. refl };
}

impl Item for Context {
    ghost item = { item_of_context };

    ghost made = { context_of };

    fn of(number: u32, bytes: Octets) -> Context {
        Context { id: number, bytes }
    }

    fn number(&self) -> u32 {
        self.id
    }

    fn bytes(&self) -> &[u8] {
        self.bytes.as_slice()
    }

    ghost again = { λ x. refl };
}

/// Takes a list after its count: tagged data or service contexts, whose octets are copied once. Gives the first fault,
/// of the count or of an item, and leaves the reader where it was where it answers none. Takes memory as items come,
/// and no more for the count's word. Work grows with the bytes that it takes.
#[tactic(auto, unfolding(crate::specs::Lists::list_at))]
pub fn take_list<T: Item>(alloc: Global, reader: &mut Reader<'_>) -> Result<List<T>, CdrError>
    ensures exact { Gives fault_of (λ l. l.items) result reader.new (list_at (made_at T.made) reader.old) }
    ensures kept { OnErr result (reader.new ≡ reader.old) }
{
    let mut copy = reader.copy();
    let count = match copy.take_count() {
        Ok(count) => count,
        Err(fault) => return Err(CdrError::Refused(fault)),
    };
    let list = take_so_many(alloc, count, &mut copy)?;
    *reader = copy;
    Ok(list)
}

/// Takes so many items.
fn take_so_many<T: Item>(
    alloc: Global,
    count: u32,
    reader: &mut Reader<'_>,
) -> Result<List<T>, CdrError>
    ensures { Gives fault_of (λ l. l.items) result reader.new (times (made_at T.made) count reader.old) }
{
    let mut list = List::new(alloc);
    for _ in 0..count {
        let value = take_one(alloc, reader)?;
        match list.push(value) {
            Ok(()) => {}
            Err(_) => return Err(CdrError::NoMemory),
        }
    }
    Ok(list)
}

/// Takes an item.
fn take_one<T: Item>(alloc: Global, reader: &mut Reader<'_>) -> Result<T, CdrError>
    ensures { Gives fault_of (λ x. x) result reader.new (made_at T.made reader.old) }
{
    match reader.take_item() {
        Ok((number, bytes)) => match Vec::from_slice(alloc, bytes) {
            Ok(copy) => Ok(T::of(number, List::from_vec(copy))),
            Err(_) => Err(CdrError::NoMemory),
        },
        Err(fault) => Err(CdrError::Refused(fault)),
    }
}

/// Passes over a list after its count: tagged data or service contexts. Gives the first fault, of the count or of an
/// item, as `take_list` does, and leaves the reader where it was where it tells one. Takes no memory; work grows with
/// the number of items.
#[tactic(auto, unfolding(crate::specs::Lists::list_at))]
pub fn pass_list(reader: &mut Reader<'_>) -> Result<(), CdrFault>
    ensures exact { Leaves result reader.new (list_at item_at reader.old) }
    ensures kept { OnErr result (reader.new ≡ reader.old) }
{
    let mut copy = reader.copy();
    let count = copy.take_count()?;
    pass_items(count, &mut copy)?;
    *reader = copy;
    Ok(())
}

/// Passes over so many items.
fn pass_items(count: u32, reader: &mut Reader<'_>) -> Result<(), CdrFault>
    ensures { Leaves result reader.new (times item_at count reader.old) }
{
    for _ in 0..count {
        reader.take_item()?;
    }
    Ok(())
}

/// Puts a list after its count: tagged data or service contexts. Work grows with the bytes that it puts.
pub fn put_list<T: Item>(into: &mut Writer, list: &[T]) -> Result<(), NoMemory>
    requires { AreCounted T.item list.now }
    ensures { Puts result into.old into.new (are_spelled_as T.item list.now) }
{
    into.put_u32(list.len() as u32)?;
    put_each(into, list)
}

/// Puts items one after the other.
fn put_each<T: Item>(into: &mut Writer, list: &[T]) -> Result<(), NoMemory>
    requires { AllByRecursion (λ x. length (T.item x).1 < 2 ^ 32) list.now }
    ensures { Puts result into.old into.new (flat_map (λ x. Spec.item_fields (T.item x)) list.now) }
{
    for value in list {
        into.put_item(value.number(), value.bytes())?;
    }
    Ok(())
}
