//! The numbers of objects by their keys.
ghost use Rattle.std.specs.Prelude.{◌≡◌, ◌≤◌, ◌<◌, ◌+◌, IfOk, OnOk, length, drop};
ghost use Rattle.adapter_policies.specs.Index.{IsIndexed, Keeps};

use crate::object_spec::ObjectSpec;
use orb_base::NoMemory;
use std::alloc::Global;
use std::collections::HashMap;

/// The number of each object by its key, the first one's where a key is there twice. One pass over the objects, from the last.
#[tactic(auto, using(crate::proofs::Keyed::indexed_none, crate::proofs::Keyed::indexed_all))]
pub fn indexed(alloc: Global, objects: &[ObjectSpec]) -> Result<HashMap<Vec<u8>, u16>, NoMemory>
    requires { length objects.now ≤ 1024 }
    ensures { IfOk result (λ numbers. IsIndexed numbers 0 objects.now) }
{
    let mut numbers = HashMap::new(alloc);
    let mut n = objects.len();
    while n > 0 {
        keep_object(alloc, &mut numbers, objects, n - 1)?;
        n -= 1;
    }
    Ok(numbers)
}

/// Keeps the number of an object before those after it.
fn keep_object(
    alloc: Global,
    numbers: &mut HashMap<Vec<u8>, u16>,
    objects: &[ObjectSpec],
    n: usize,
) -> Result<(), NoMemory>
    requires few { length objects.now ≤ 1024 }
    requires within { n < length objects.now }
    requires behind { IsIndexed numbers.old (n + 1) (drop (n + 1) objects.now) }
    ensures { OnOk result (IsIndexed numbers.new n (drop n objects.now)) }
{
    keep_number(alloc, numbers, objects[n].key.as_slice(), n as u16)?;
    Ok(())
}

/// Keeps a number for a key of these bytes.
fn keep_number(
    alloc: Global,
    numbers: &mut HashMap<Vec<u8>, u16>,
    bytes: &[u8],
    n: u16,
) -> Result<(), NoMemory>
    ensures { OnOk result (Keeps bytes.now n numbers.old numbers.new) }
{
    let key = Vec::from_slice(alloc, bytes)?;
    put_number(numbers, key, n)
}

/// Keeps a number for a key.
fn put_number(numbers: &mut HashMap<Vec<u8>, u16>, key: Vec<u8>, n: u16) -> Result<(), NoMemory>
    ensures { OnOk result (Keeps key.items n numbers.old numbers.new) }
{
    numbers.insert(key, n)?;
    Ok(())
}
