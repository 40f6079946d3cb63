//! Updates and scans over a grid and a tree.

use crate::common::holds;
use crate::snapshot_tests::{Call, Reported, Row, plays};
use model_renaming::over::{Grid, TreePlaces};
use model_snapshot::SnapWorld;
use model_steps::{Place, Refusal};
use std::alloc::Global;
use std::process::Abort;
use std::test::Fail;

/// 20 comes while 10 scans in a grid.
const TWO_IN_A_GRID: &[Row] = &[
    (10, Call::Begin, Reported::Done),
    (20, Call::Begin, Reported::Done),
    (10, Call::Scan, Reported::Refused(Refusal::AlreadyBegun)),
    (10, Call::Steps(4), Reported::Placed(0)),
    (20, Call::Steps(6), Reported::Placed(1)),
    (10, Call::Scan, Reported::Done),
    (10, Call::Steps(3), Reported::Quiet),
    (20, Call::Update(5), Reported::Done),
    (20, Call::Steps(7), Reported::Written),
    (10, Call::Steps(6), Reported::Shown(&[(20, 5)])),
];

/// The value that was written at a place of a grid.
fn value_at(places: &Grid<Global>, place: Place) -> Option<u64> {
    Some(places.segment_at(place)?.value)
}

/// Two in a grid: whether the values at places 0, 1 and 3 are those that were written.
fn go_in_a_grid(rt: &impl Abort, world: &mut SnapWorld<Grid<Global>, Global>) -> bool {
    plays(rt, world, TWO_IN_A_GRID);
    let places = world.places();
    let is_written = value_at(places, 1) == Some(5);
    is_written && value_at(places, 0).is_none() && value_at(places, 3).is_none()
}

/// A new world over a grid for two.
fn in_a_grid(alloc: Global) -> Result<SnapWorld<Grid<Global>, Global>, Refusal> {
    SnapWorld::new(alloc, Grid::new(alloc, 2)?)
}

#[test]
fn two_over_a_grid(rt: HostRuntime) -> Result<(), Fail> {
    let mut world = in_a_grid(rt.alloc())?;
    holds(&rt, 2, go_in_a_grid(&rt, &mut world));
    Ok(())
}

/// 20 comes while 10 scans in a tree.
const TWO_IN_A_TREE: &[Row] = &[
    (10, Call::Begin, Reported::Done),
    (20, Call::Begin, Reported::Done),
    (10, Call::Steps(5), Reported::Placed(1)),
    (10, Call::Scan, Reported::Done),
    (10, Call::Steps(4), Reported::Quiet),
    (20, Call::Steps(8), Reported::Placed(3)),
    (20, Call::Update(5), Reported::Done),
    (20, Call::Steps(15), Reported::Written),
    (10, Call::Steps(14), Reported::Shown(&[(20, 5)])),
];

/// A new world over a tree for two.
fn in_a_tree(alloc: Global) -> Result<SnapWorld<TreePlaces<Global>, Global>, Refusal> {
    SnapWorld::new(alloc, TreePlaces::new(alloc, 2)?)
}

#[test]
fn two_over_a_tree(rt: HostRuntime) -> Result<(), Fail> {
    let mut world = in_a_tree(rt.alloc())?;
    plays(&rt, &mut world, TWO_IN_A_TREE);
    Ok(())
}
