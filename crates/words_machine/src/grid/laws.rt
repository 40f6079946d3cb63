//! A law of the invariant of a grid's table, which runs nothing.

ghost use Rattle.words_machine.specs.grid.Law.{PlacesAreDistinct, PlacesAreLow, DoorsSplit};

/// A law: under the table's invariant, no two walks have ended at one place.
///
/// Where b walks have begun, each has ended on one of the first b diagonals. Each door keeps the law of the splitter,
/// in the registers that the words spell. A walk that left a door has met another there, which had set Y or at least
/// entered.
pub fn law_of_the_grid_rule()
    ensures distinct { PlacesAreDistinct }
    ensures low { PlacesAreLow }
    ensures doors { DoorsSplit }
{}
