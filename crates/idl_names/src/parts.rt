//! What a declaration with a body has gathered.
ghost use Rattle.std.specs.Prelude.{◌≡◌, IfOk, OnOk, not};
ghost use Rattle.std.specs.Bool.{OnTrue};
ghost use Rattle.std.specs.List.{list_any};
ghost use Rattle.cdr_values.specs.Kinds.{cases_view};
ghost use Rattle.idl_names.specs.Bodies as Spec;
ghost use Rattle.idl_names.specs.Views.{parts_of, sized_of};

use crate::sizes::{SizedType, plus};
use crate::state::Parts;
use cdr_values::{Case, Member};
use orb_base::{List, NoMemory, Text};
use std::alloc::Global;
use std::mem;

/// Whether one of these cases is the default.
fn has_default_case(cases: &[Case]) -> bool
    ensures { result ≡ list_any (λ c. c.is_default) cases.now }
{
    cases.iter().any(|case| case.is_default)
}

/// The same, of the cases as plain data.
fn is_default_in(cases: &[Case]) -> bool
    ensures { result ≡ list_any (λ c. c.1) (cases_view cases.now) }
{
    has_default_case(cases)
}

impl Parts {
    /// A part adds its leaves, and lifts the levels.
    pub(crate) fn add_part(&mut self, kind: &SizedType)
        ensures { parts_of self.new ≡ Spec.with_part (sized_of kind.now) (parts_of self.old) }
    {
        self.leaves = plus(self.leaves, kind.leaves);
        self.levels = self.levels.max(kind.levels);
    }

    /// One more member.
    pub(crate) fn add_member(&mut self, name: Text, kind: SizedType) -> Result<(), NoMemory>
        ensures { OnOk result (parts_of self.new ≡ Spec.with_member name (sized_of kind) (parts_of self.old)) }
    {
        self.add_part(&kind);
        self.members.push(Member {
            name,
            kind: kind.kind,
        })?;
        Ok(())
    }

    /// One more case, with the labels that are before it.
    pub(crate) fn add_case(
        &mut self,
        alloc: Global,
        name: Text,
        kind: SizedType,
    ) -> Result<(), NoMemory>
        ensures { OnOk result (parts_of self.new ≡ Spec.with_case name (sized_of kind) (parts_of self.old)) }
    {
        self.add_part(&kind);
        let labels = mem::replace(&mut self.labels, Vec::new(alloc));
        let is_default = mem::replace(&mut self.is_default, false);
        self.cases.push(Case {
            labels: List::from_vec(labels),
            is_default,
            member: Member {
                name,
                kind: kind.kind,
            },
        })?;
        Ok(())
    }

    /// One more label, unless the union has it already. One look-up by the index.
    pub(crate) fn add_label(&mut self, z: i128) -> Result<bool, NoMemory>
        ensures new { IfOk result (λ b. b ≡ not (Spec.is_twice z (parts_of self.old))) }
        ensures put { IfOk result (λ b. OnTrue b (parts_of self.new ≡ Spec.with_label z (parts_of self.old))) }
    {
        if !self.taken.insert(z)? {
            return Ok(false);
        }
        self.labels.push(z)?;
        Ok(true)
    }

    /// Whether it has a default label already.
    pub(crate) fn has_default(&self) -> bool
        ensures { result ≡ Spec.has_default (parts_of self.now) }
    {
        self.is_default || is_default_in(&self.cases)
    }
}
