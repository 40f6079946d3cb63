//! Where the doors of a grid lie, and how they are numbered.

ghost use Rattle.std.specs.Prelude.{◌≡◌, ◌+◌, ◌*◌};
ghost use Rattle.model_splitter.specs.grid.Door.{corner, number_of, right_of, down_of};

/// A door of the grid, by its depth and its column. Its depth is the sum of its row and its column.
#[derive(Clone, Copy, Debug, Drop, PartialEq, Eq)]
pub struct Door {
    /// How many doors a walk has passed before it.
    pub depth: u8,
    /// How many of these it left down: at most the depth.
    pub column: u8,
}

impl Door {
    /// Returns the door at which every walk begins.
    pub fn corner() -> Door
        ensures { result ≡ corner }
    {
        Door {
            depth: 0,
            column: 0,
        }
    }

    /// Returns the number of the door. Numbers go from 0, diagonal by diagonal, and along each by rising column. (This
    /// order is this project's own.)
    pub fn number(self) -> u16
        ensures { result ≡ number_of self }
    {
        u16::from(self.depth) * (u16::from(self.depth) + 1) / 2 + u16::from(self.column)
    }

    /// Returns the register of the door's X.
    pub fn x(self) -> usize
        ensures { result ≡ 2 * number_of self }
    {
        2 * usize::from(self.number())
    }

    /// Returns the register of the door's Y.
    pub fn y(self) -> usize
        ensures { result ≡ 2 * number_of self + 1 }
    {
        self.x() + 1
    }

    /// Returns the door to the right: the next row, the same column. A depth of 255, which no grid has, stays 255.
    pub fn right(self) -> Door
        ensures { result ≡ right_of self }
    {
        Door {
            depth: self.depth.saturating_add(1),
            column: self.column,
        }
    }

    /// Returns the door below: the same row, the next column. A depth of 255, which no grid has, stays 255.
    pub fn down(self) -> Door
        ensures { result ≡ down_of self }
    {
        Door {
            depth: self.depth.saturating_add(1),
            column: self.column.saturating_add(1),
        }
    }
}
