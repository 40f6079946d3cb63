//! One thread's part in what threads share.

use crate::grid_member::GridMember;
use crate::line_member::LineMember;
use crate::member::Member;
use crate::names_member::NamesMember;

/// One thread's part in a pool, a line, a grid or names.
#[derive(Drop)]
pub enum Part {
    /// In a pool.
    Pool(Member),
    /// In a line.
    Line(LineMember),
    /// In a grid.
    Grid(GridMember),
    /// In names.
    Names(NamesMember),
}
