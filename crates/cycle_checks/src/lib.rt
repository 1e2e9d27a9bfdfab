// One given cycle checked against a map of regions: walked by the rule of steps from its first corner, and compared corner by corner.
#![tactic(auto)]

ghost use Rattle.std.specs.Prelude.{◌≡◌, ◌<◌};
ghost use Rattle.lattice.specs.Directions.{point, edge};
ghost use Rattle.steps.specs.Look.{Square};
ghost use Rattle.cycles.specs.Points.{EdgeAt};
ghost use Rattle.cycles.specs.Rounds.{FirstEdge};
ghost use Rattle.cycles.specs.Straight.{Gone};
ghost use Rattle.sequences.specs.Says.{Says};
ghost use Rattle.cycle_checks.specs.Comparing.{CornerDue, CornerAgrees, Compared};
ghost use Rattle.cycle_checks.specs.Checked.{Checkable, CycleChecked};

use cycles::{along_column, along_row};
use interleaving::{Spreads, code8};
use steps::{EAST, Edge, MARK_BIT};

// The walk of `cycles` along a row or a column, the eastward edges marked.
fn along(map: &mut [u32], side: u32, r: u32, at: Edge) -> Edge
    requires { EdgeAt side r map.old at.x at.y at.d }
    ensures { Gone 0 side r map.old at.x at.y at.d map.new result.x result.y result.d }
{
    if at.d % 2 == 0 {
        along_row::<EAST>(map, side, r, at)
    } else {
        along_column::<EAST>(map, side, r, at)
    }
}

// Whether the eastward edge at (x, y) is an edge of the region r at which its outline turns, told by the rule of steps there: it goes straight
// on east, and the pixel southwest is not in the region, or the one northwest is.
fn begins(map: &[u32], side: u32, r: u32, x: u32, y: u32) -> bool
    requires { Square side map.now × (0 < r) × (x < 512) × (y < 512) }
    ensures { Says result (FirstEdge side r (edge (point x y) 0) map.now) }
{
    steps::next_digit(map, side, r, x, y, 0) == 0
        && (steps::next_digit(map, side, r, x, y, 3) == 2
            || steps::next_digit(map, side, r, x, y, 2) != 1)
}

// Whether the corner where the edge begins is the next given one, and the pixel on the right of an eastward edge has no code below `least`.
fn corner_agrees(table: &Spreads, given: &[u32], used: usize, least: u32, at: Edge) -> bool
    requires { CornerDue given.now used at.x at.y at.d }
    ensures { Says result (CornerAgrees given.now used least at.x at.y at.d) }
{
    used < given.len()
        && given[used] == at.tail()
        && (at.d != EAST || least <= code8(table, at.x as usize, at.y as usize))
}

// Walks the cycle of the region r from the eastward edge at (column, row), whose direction differs from that of the edge before, and tells
// whether its corners are the given ones and no eastward edge has a pixel with a smaller code on its right than the first. Marks the eastward
// edges up to where it breaks off.
fn walk(
    table: &Spreads,
    map: &mut [u32],
    side: u32,
    r: u32,
    column: u32,
    row: u32,
    given: &[u32],
) -> bool
    requires { FirstEdge side r (edge (point column row) 0) map.old × (column < 512) }
    ensures { Compared side r (edge (point column row) 0) map.old given.now map.new result }
{
    let least = code8(table, column as usize, row as usize);
    let start = Edge {
        x: column,
        y: row,
        d: EAST,
    };
    let mut edge = start;
    let mut used: usize = 0;
    loop {
        if !corner_agrees(table, given, used, least, edge) {
            return false;
        }
        edge = along(map, side, r, edge);
        used += 1;
        if edge == start {
            return used == given.len();
        }
    }
}

// Whether the points, owned by the region `owner`, are a cycle of the map from its start. If so, its eastward edges are marked; if not, the
// content of the map is free.
pub fn cycle_agrees(n: u32, table: &Spreads, owner: u32, points: &[u32], map: &mut [u32]) -> bool
    requires { Checkable n map.old }
    ensures { CycleChecked n owner points.now map.old map.new result }
{
    if points.is_empty() {
        return false;
    }
    let p = points[0];
    // y below 512, and a region of the map: else the point or the owner is none of the map's.
    if 512 * 512 <= p {
        return false;
    }
    if MARK_BIT <= owner {
        return false;
    }
    let r = owner + 1;
    let side = location::side(n) as u32;
    begins(map, side, r, p % 512, p / 512) && walk(table, map, side, r, p % 512, p / 512, points)
}
