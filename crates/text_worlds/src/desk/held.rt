//! What a register of a desk holds.

ghost use Rattle.std.specs.Prelude.{◌≡◌, ◌<◌};
ghost use Rattle.text_worlds.specs.desk.Held.{door_number, held_by_grid, held_by_tree, proposed_in, register_in_grid, register_in_tree};

use crate::desk::coming::Register;
use model_renaming::over::{GridRegister, GridValue};
use model_splitter::tree::{TreeRegister, TreeValue};
use model_steps::{Place, Segment};

/// The most doors of a grid: those of a grid for 16 participants.
pub const MOST_DOORS: Place = 136;

/// X (`part` is 0) or Y (`part` is 1) of a door, or `None` past the last door.
fn door_number(place: Place, part: usize) -> Option<GridRegister>
    requires { part < 2 }
    ensures { result ≡ door_number place part }
{
    if place < MOST_DOORS {
        Some(GridRegister::Door(2 * place as usize + part))
    } else {
        None
    }
}

/// The register of a grid that this is, or `None` if a grid has none such.
pub(crate) fn register_in_grid(register: Register) -> Option<GridRegister>
    ensures { result ≡ register_in_grid register }
{
    match register {
        Register::X(place) => door_number(place, 0),
        Register::Y(place) => door_number(place, 1),
        Register::Mark(_) => None,
        Register::Segment(place) => Some(GridRegister::Segment(place)),
    }
}

/// The register of a tree that this is.
pub(crate) fn register_in_tree(register: Register) -> TreeRegister
    ensures { result ≡ register_in_tree register }
{
    match register {
        Register::X(node) => TreeRegister::X(node),
        Register::Y(node) => TreeRegister::Y(node),
        Register::Mark(node) => TreeRegister::Mark(node),
        Register::Segment(node) => TreeRegister::Contents(node),
    }
}

/// The proposal in a segment, or `None` if the segment is empty.
fn proposed_in(segment: &Segment) -> Option<u64>
    ensures { result ≡ proposed_in segment.now }
{
    match segment {
        Some(record) => Some(record.value),
        None => None,
    }
}

/// The word or the proposal in a register of a grid.
pub(crate) fn held_by_grid(value: GridValue) -> Option<u64>
    ensures { result ≡ held_by_grid value }
{
    match &value {
        GridValue::Word(word) => Some(*word),
        GridValue::Contents(segment) => proposed_in(segment),
    }
}

/// The word or the proposal in a register of a tree.
pub(crate) fn held_by_tree(value: TreeValue) -> Option<u64>
    ensures { result ≡ held_by_tree value }
{
    match &value {
        TreeValue::Word(word) => Some(*word),
        TreeValue::Contents(segment) => proposed_in(segment),
    }
}
