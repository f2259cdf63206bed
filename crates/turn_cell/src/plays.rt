//! What the steps on the table's word tell the seats that make them.
use crate::board::{Core, Known};
use crate::object::Object;
use atomic_table::{Join, Play, Split};
use std::marker::PhantomData;

/// Takes the turn.
pub struct Take<O> {
    object: PhantomData<O>,
}

impl<O: Object> Play<Option<Core<O>>, Known<O>> for Take<O> {
    ghost use Rattle.turn_cell.specs.Steps.{taken};

    ghost then = { taken O.ready O.sound O.step O.opens O.fit };
}

/// Gives the turn back, with one entry more or with none.
pub struct Release<O> {
    object: PhantomData<O>,
}

impl<O: Object> Play<Option<Core<O>>, Known<O>> for Release<O> {
    ghost use Rattle.turn_cell.specs.Steps.{released};

    ghost then = { released };
}

/// Takes in what was given.
pub struct Hear<O> {
    object: PhantomData<O>,
}

impl<O: Object> Play<Option<Core<O>>, Known<O>> for Hear<O> {
    ghost use Rattle.turn_cell.specs.Steps.{heard};

    ghost then = { heard O.ready O.sound O.step O.opens O.fit };
}

/// Cuts a seat's next heir off.
pub struct Parting<O> {
    object: PhantomData<O>,
}

impl<O: Object> Split<Known<O>> for Parting<O> {
    ghost use Rattle.turn_cell.specs.Views.{parted, child};

    ghost left = { parted };

    ghost right = { child O.heir };
}

/// Takes another seat in.
pub struct Joining<O> {
    object: PhantomData<O>,
}

impl<O: Object> Join<Known<O>> for Joining<O> {
    ghost use Rattle.turn_cell.specs.Views.{joined, spent};

    ghost both = { joined };

    ghost spent = { spent };
}

/// Tells what was seen, by a note that has no number.
pub struct Telling<O> {
    object: PhantomData<O>,
}

impl<O: Object> Split<Known<O>> for Telling<O> {
    ghost use Rattle.turn_cell.specs.Views.{note};

    ghost left = { λ v. v };

    ghost right = { note };
}

impl<O: Object> Join<Known<O>> for Telling<O> {
    ghost use Rattle.turn_cell.specs.Views.{telling, spent};

    ghost both = { telling };

    ghost spent = { spent };
}
