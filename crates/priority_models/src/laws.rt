//! Laws of placing and of transforms.
ghost use Rattle.priority_models.specs.Laws.{PlacesOneWay, KeepsWithoutRows, RowsCountByBands};

/// Each request is placed, or misplaced for one cause, and in one way.
#[tactic(auto, using(crate::proofs::OneWay::places_one_way))]
pub fn requests_are_placed_one_way()
    ensures { PlacesOneWay }
{}

/// Without a transform the priority that was sent counts, or the server's; with one, a priority is held by one row at most,
/// which says what becomes of it, so that the order of the rows has no meaning.
#[tactic(auto, using(crate::proofs::Rows::keeps))]
pub fn transforms_map_by_bands()
    ensures without { KeepsWithoutRows }
    ensures by_bands { RowsCountByBands }
{}
