//! Types with their leaves and levels: own profile.
ghost use Rattle.std.specs.Prelude.{◌≡◌, IfOk};
ghost use Rattle.cdr_values.specs.Kinds.{kind_of};
ghost use Rattle.idl_names.specs.Sizes as Spec;
ghost use Rattle.idl_names.specs.Views.{sized_of};

use cdr_values::{IdlType, copy_type};
use idl_grammar::Basic;
use orb_base::NoMemory;
use std::alloc::Global;

/// One more than the leaves that a file may have; above it nothing is counted further.
const MOST: u32 = 1_048_577;

/// The leaves that a type may have, and its levels.
const MAX_LEAVES: u32 = 65_536;

const MAX_LEVELS: u32 = 64;

/// A type, its leaves and its levels.
#[derive(Drop)]
pub struct SizedType {
    pub kind: IdlType,
    pub leaves: u32,
    pub levels: u32,
}

/// The sum of two counts, as far as is counted.
pub fn plus(m: u32, n: u32) -> u32
    ensures { result ≡ Spec.plus m n }
{
    m.saturating_add(n).min(MOST)
}

/// The product of two counts, as far as is counted.
pub fn times(m: u32, n: u32) -> u32
    ensures { result ≡ Spec.times m n }
{
    m.saturating_mul(n).min(MOST)
}

/// A type that is one leaf.
pub fn leaf(kind: IdlType) -> SizedType
    ensures { sized_of result ≡ Spec.leaf (kind_of kind) }
{
    SizedType {
        kind,
        leaves: 1,
        levels: 0,
    }
}

/// A sequence with this bound, where 0 is none.
pub fn sequence_of(alloc: Global, bound: u32, element: SizedType) -> Result<SizedType, NoMemory>
    ensures { IfOk result (λ k. sized_of k ≡ Spec.sequence_of bound (sized_of element)) }
{
    let kind = Box::new(alloc, element.kind)?;
    Ok(SizedType {
        kind: IdlType::Seq(kind, bound),
        leaves: plus(element.leaves, 1),
        levels: plus(element.levels, 1),
    })
}

/// An array of this length.
pub fn array_of(alloc: Global, len: u32, element: SizedType) -> Result<SizedType, NoMemory>
    ensures { IfOk result (λ k. sized_of k ≡ Spec.array_of len (sized_of element)) }
{
    let kind = Box::new(alloc, element.kind)?;
    Ok(SizedType {
        kind: IdlType::Array(kind, len),
        leaves: times(element.leaves, len),
        levels: plus(element.levels, 1),
    })
}

/// An array of several lengths, the innermost first.
pub fn arrays_of(alloc: Global, lengths: &[u32], kind: SizedType) -> Result<SizedType, NoMemory>
    ensures { IfOk result (λ k. sized_of k ≡ Spec.arrays_of lengths.now (sized_of kind)) }
{
    let mut array = kind;
    for len in lengths {
        array = array_of(alloc, *len, array)?;
    }
    Ok(array)
}

/// The leaves of an array of several lengths, the innermost first, whose element has so many.
fn array_leaves(lengths: &[u32], leaves: u32) -> u32
    ensures { result ≡ Spec.array_leaves lengths.now leaves }
{
    let mut total = leaves;
    for len in lengths {
        total = times(total, *len);
    }
    total
}

/// Its levels.
fn array_levels(lengths: &[u32], levels: u32) -> u32
    ensures { result ≡ Spec.array_levels lengths.now levels }
{
    let mut total = levels;
    for _len in lengths {
        total = plus(total, 1);
    }
    total
}

/// Whether an array of several lengths, the innermost first, has more than 65,536 leaves or more than 64 levels. The array
/// isn't built for it.
#[tactic(auto, using(crate::proofs::Arrays::large_array))]
pub fn is_large_array(lengths: &[u32], element: &SizedType) -> bool
    ensures { result ≡ Spec.is_large (Spec.arrays_of lengths.now (sized_of element.now)) }
{
    MAX_LEAVES < array_leaves(lengths, element.leaves)
        || MAX_LEVELS < array_levels(lengths, element.levels)
}

/// A copy.
pub fn copy_sized(alloc: Global, kind: &SizedType) -> Result<SizedType, NoMemory>
    ensures { IfOk result (λ k. sized_of k ≡ sized_of kind.now) }
{
    Ok(SizedType {
        kind: copy_type(alloc, &kind.kind)?,
        leaves: kind.leaves,
        levels: kind.levels,
    })
}

impl SizedType {
    /// Whether it has more than 65,536 leaves or more than 64 levels.
    pub fn is_large(&self) -> bool
        ensures { result ≡ Spec.is_large (sized_of self.now) }
    {
        MAX_LEAVES < self.leaves || MAX_LEVELS < self.levels
    }
}

/// The type that words spell.
pub fn basic_type(basic: Basic) -> IdlType
    ensures { kind_of result ≡ Spec.basic_kind basic }
{
    match basic {
        Basic::Boolean => IdlType::Boolean,
        Basic::Octet => IdlType::Octet,
        Basic::Char => IdlType::Char,
        Basic::Short => IdlType::Short,
        Basic::UShort => IdlType::UShort,
        Basic::Long => IdlType::Long,
        Basic::ULong => IdlType::ULong,
        Basic::LongLong => IdlType::LongLong,
        Basic::ULongLong => IdlType::ULongLong,
    }
}
