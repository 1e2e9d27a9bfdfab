// One cycle walked by the rule of steps: its corners written, its area added up, its eastward edges marked.
#![tactic(auto)]

ghost use Rattle.std.specs.Prelude.{◌≡◌, ◌%◌, ◌≤◌, ◌<◌};
ghost use Rattle.interleaving.specs.Codes.{code};
ghost use Rattle.lattice.specs.Directions.{point, edge};
ghost use Rattle.lattice.specs.Area.{leg_area};
ghost use Rattle.cycles.specs.Marks.{mark};
ghost use Rattle.cycles.specs.Points.{EdgeAt};
ghost use Rattle.cycles.specs.Straight.{Gone};
ghost use Rattle.cycles.specs.Walking.{Ready, CycleWalked};
ghost use Rattle.cycles.specs.Promise.{StartsHere, CycleWritten};

use steps::{EAST, Edge, MARK_BIT};

// Marks the pixel of the region r on the right of the edge, if it has the digit MARKED.
fn mark<const MARKED: u8>(map: &mut [u32], side: u32, r: u32, at: Edge)
    requires { EdgeAt side r map.old at.x at.y at.d }
    ensures { map.new ≡ mark MARKED side r map.old (edge (point at.x at.y) at.d) }
{
    if at.d == MARKED {
        let column = steps::column_at(at.x, MARKED);
        let row = steps::row_at(at.y, MARKED);
        let i = ((row - 1) * side + (column - 1)) as usize;
        map[i] = r + MARK_BIT;
    }
}

// Goes straight on from the edge at (column, row) with the digit D up to the first turn, and marks each edge with the digit MARKED; gives the
// edge after it. Both digits are constants, so that each direction has a loop of its own.
fn straight<const MARKED: u8, const D: u8>(
    map: &mut [u32],
    side: u32,
    r: u32,
    column: u32,
    row: u32,
) -> Edge
    requires { EdgeAt side r map.old column row D }
    ensures { Gone MARKED side r map.old column row D map.new result.x result.y result.d }
{
    let mut edge = Edge {
        x: column,
        y: row,
        d: D,
    };
    loop {
        mark::<MARKED>(map, side, r, edge);
        let next = edge.next(map, side, r);
        if next.d != D {
            return next;
        }
        edge = next;
    }
}

// The same along a row. It has two callers, and is inlined at each: as a call it takes the tracing of short runs up to 35 percent longer.
#[inline(always)]
pub fn along_row<const MARKED: u8>(map: &mut [u32], side: u32, r: u32, at: Edge) -> Edge
    requires { EdgeAt side r map.old at.x at.y at.d × (at.d % 2 ≡ 0) }
    ensures { Gone MARKED side r map.old at.x at.y at.d map.new result.x result.y result.d }
{
    match at.d {
        0 => straight::<MARKED, 0>(map, side, r, at.x, at.y),
        _ => straight::<MARKED, 2>(map, side, r, at.x, at.y),
    }
}

// The same along a column.
#[inline(always)]
pub fn along_column<const MARKED: u8>(map: &mut [u32], side: u32, r: u32, at: Edge) -> Edge
    requires { EdgeAt side r map.old at.x at.y at.d × (at.d % 2 ≡ 1) }
    ensures { Gone MARKED side r map.old at.x at.y at.d map.new result.x result.y result.d }
{
    match at.d {
        1 => straight::<MARKED, 1>(map, side, r, at.x, at.y),
        _ => straight::<MARKED, 3>(map, side, r, at.x, at.y),
    }
}

// What a run along the column x from the row y to the row z adds to the area.
fn leg_area(x: u32, y: u32, z: u32) -> i32
    requires { (x ≤ 256) × (y ≤ 256) × (z ≤ 256) }
    ensures { result ≡ leg_area x y z }
{
    x as i32 * (z as i32 - y as i32)
}

// A cycle that was walked: how many corners were written, and its area.
#[derive(Clone, Copy, Debug, PartialEq, Eq)]
pub struct Walked {
    pub corners: usize,
    pub area: i32,
}

// Walks the cycle of the region r from the eastward edge at (column, row), whose direction differs from that of the edge before: along rows
// and columns by turns. Only the columns add to the area.
fn walk(map: &mut [u32], side: u32, r: u32, column: u32, row: u32, corners: &mut [u32]) -> Walked
    requires { Ready side r (edge (point column row) 0) map.old corners.old × (column < 512) }
    ensures { CycleWalked side r (edge (point column row) 0) map.old corners.old map.new corners.new
        result.corners result.area }
{
    let start = Edge {
        x: column,
        y: row,
        d: EAST,
    };
    let mut edge = start;
    let mut used: usize = 0;
    let mut area: i32 = 0;
    loop {
        corners[used] = edge.tail();
        let turn = along_row::<EAST>(map, side, r, edge);
        corners[used + 1] = turn.tail();
        let next = along_column::<EAST>(map, side, r, turn);
        used += 2;
        let sum = area + leg_area(turn.x, turn.y, next.y);
        edge = next;
        if edge == start {
            return Walked {
                corners: used,
                area: sum,
            };
        }
        area = sum;
    }
}

// Writes the cycle that starts at the pixel (x, y): its corners to the front of the list, in which they have room. Gives their number and
// its area.
pub fn write_cycle(n: u32, map: &mut [u32], x: u32, y: u32, corners: &mut [u32]) -> Walked
    requires { StartsHere n map.old corners.old x y }
    ensures { CycleWritten n map.old corners.old (code n x y) map.new corners.new
        result.corners result.area }
{
    let side = location::side(n) as u32;
    let i = (y * side + x) as usize;
    let r = map[i] % MARK_BIT;
    walk(map, side, r, x, y, corners)
}
