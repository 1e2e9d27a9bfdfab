// The first cycle of a region walked by the rule of steps: the pixels north of its westward edges marked.
#![tactic(auto)]

ghost use Rattle.std.specs.Prelude.{◌≡◌, ◌%◌, ◌<◌};
ghost use Rattle.interleaving.specs.Codes.{code};
ghost use Rattle.lattice.specs.Directions.{point, edge};
ghost use Rattle.grid.specs.Cycles.{cycle_from};
ghost use Rattle.steps.specs.Look.{map_at};
ghost use Rattle.cycles.specs.Marks.{marks};
ghost use Rattle.cycles.specs.Rounds.{FirstEdge};
ghost use Rattle.cycles.specs.CycleStarts.{CycleStart, CycleMarked};

use cycles::{along_column, along_row};
use steps::{EAST, Edge, MARK_BIT, WEST};

// Walks the cycle of the region r from the eastward edge at (column, row), whose direction differs from that of the edge before: along rows
// and columns by turns. Marks its westward edges.
fn walk(map: &mut [u32], side: u32, r: u32, column: u32, row: u32)
    requires { FirstEdge side r (edge (point column row) 0) map.old × (column < 512) }
    ensures { map.new ≡ marks 2 side r (cycle_from (map_at side map.old) (edge (point column row) 0)) map.old }
{
    let start = Edge {
        x: column,
        y: row,
        d: EAST,
    };
    let mut edge = start;
    loop {
        let turn = along_row::<WEST>(map, side, r, edge);
        edge = along_column::<WEST>(map, side, r, turn);
        if edge == start {
            return;
        }
    }
}

// Marks the pixels whose south sides are on the cycle that starts at the pixel (x, y).
pub fn mark_south_sides(n: u32, map: &mut [u32], x: u32, y: u32)
    requires { CycleStart n map.old x y }
    ensures { CycleMarked 2 n map.old (code n x y) map.new }
{
    let side = location::side(n) as u32;
    let i = (y * side + x) as usize;
    let r = map[i] % MARK_BIT;
    walk(map, side, r, x, y);
}
