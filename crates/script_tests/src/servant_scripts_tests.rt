//! Scripts with the trees that the grammar spells, and others with their first token at fault. Trees and columns were
//! worked out by hand.

mod faults;
mod places;
mod show;
mod trees;
