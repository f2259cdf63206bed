//! Transforms of priorities.
ghost use Rattle.std.specs.Prelude.{◌≡◌, ◌∷◌, [], ◌↔◌, IsSome, IfSome, drop, length, ◌<◌};
ghost use Rattle.std.specs.List.{list_any};
ghost use Rattle.orb_base.specs.Apart.{are_apart, overlap};
ghost use Rattle.priority_models.specs.Transforms.{AreRows, bands, inbound, mapped};

use orb_base::limits::MAX_TRANSFORM_ROWS;
use orb_base::{Band, List, Priority};
use std::alloc::Global;
use std::marker::Model;

/// A row of a transform: a client that sends a priority of the band asks for the priority `to`.
#[derive(Clone, Copy, Debug, PartialEq, Eq)]
pub struct TransformRow {
    pub band: Band,
    pub to: Priority,
}

/// What becomes of the priorities that clients send (Real-time CORBA 1.2, Priority transforms; the form, a table of at most
/// 32 rows, is own profile). A transform without rows keeps each priority.
#[derive(Debug, Drop)]
pub struct Transform {
    rows: List<TransformRow>,
}

impl Model for Transform {
    ghost use Rattle.std.specs.Prelude.{List};
    ghost use Rattle.priority_models.specs.declared.transform.TransformRow.{TransformRow};
    ghost use Rattle.priority_models.specs.Transforms.{AreRows};

    ghost Value = { List TransformRow };

    ghost view = { λ t. t.rows.items };

    ghost invariant = { λ t. AreRows t.rows.items };
}

impl Transform {
    /// The transform of these rows. None exactly where there are more than 32 of them, or two of their bands share a
    /// priority. Takes no memory; the work is the square of their number.
    pub fn new(rows: List<TransformRow>) -> Option<Transform>
        ensures none { IsSome result ↔ AreRows rows.items }
        ensures value { IfSome result (λ t. t ≡ rows.items) }
    {
        if rows.len() > MAX_TRANSFORM_ROWS || !are_apart(rows.as_slice()) {
            return None;
        }
        Some(Transform { rows })
    }

    /// The transform without rows. Takes no memory.
    #[tactic(auto, using(crate::proofs::Rows::no_rows))]
    pub fn none(alloc: Global) -> Transform
        ensures { result ≡ [] }
    {
        Transform {
            rows: List::new(alloc),
        }
    }

    /// What becomes of a priority that a client sent: without rows it is kept; else it is the `to` of the row whose band
    /// holds it, and None where no row does. One pass over the rows, no memory.
    #[tactic(auto, using(crate::proofs::Rows::some_rows))]
    pub fn inbound(&self, p: Priority) -> Option<Priority>
        ensures value { result ≡ inbound self.now p }
        ensures rows { AreRows self.now }
    {
        if self.rows.is_empty() {
            return Some(p);
        }
        mapped(self.rows.as_slice(), p)
    }
}

/// The `to` of the row whose band holds a priority.
fn mapped(rows: &[TransformRow], p: Priority) -> Option<Priority>
    ensures { result ≡ mapped rows.now p }
{
    for row in rows {
        if row.band.holds(p) {
            return Some(row.to);
        }
    }
    None
}

/// Whether no two rows have bands that share a priority, tested pair by pair.
fn are_apart(rows: &[TransformRow]) -> bool
    ensures { result ≡ are_apart (bands rows.now) }
{
    for at in 0..rows.len() {
        if meets_one(rows[at].band, &rows[at + 1..]) {
            return false;
        }
    }
    true
}

/// Whether a band shares a priority with that of one of the rows.
fn meets_one(band: Band, rows: &[TransformRow]) -> bool
    ensures { result ≡ list_any (overlap band) (bands rows.now) }
{
    for row in rows {
        if overlap(band, row.band) {
            return true;
        }
    }
    false
}

/// Whether two bands share a priority.
fn overlap(a: Band, b: Band) -> bool
    ensures { result ≡ overlap a b }
{
    a.low() <= b.high() && b.low() <= a.high()
}
