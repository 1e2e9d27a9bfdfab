// Whether given cycles are the outlines of a map of regions: each is walked and compared, they stand in order, and no edge is left over.
#![tactic(auto)]

ghost use Rattle.std.specs.Prelude.{◌≡◌, ◌≤◌, ◌<◌, length};
ghost use Rattle.interleaving.specs.Codes.{code};
ghost use Rattle.lattice.specs.Directions.{x_of, y_of};
ghost use Rattle.cycles.specs.Mapped.{Mapped};
ghost use Rattle.given_outlines.specs.Given.{cycles_in};
ghost use Rattle.sequences.specs.Says.{Says};
ghost use Rattle.retracing.specs.Promise.{Retraceable, Retraced};
ghost use Rattle.retracing.specs.Ranks.{rank};
ghost use Rattle.retracing.specs.Checking.{EachChecked};
ghost use Rattle.retracing.specs.LastPass.{Passes, EachMarked};

use cycle_checks::cycle_agrees;
use interleaving::{Spreads, code8};
use steps::MARK_BIT;

// The rank of the cycle of the region `owner` whose first corner is p: cycles are listed by region number, then by the code of the start pixel.
fn rank(table: &Spreads, owner: u32, p: u32) -> u64
    requires { (x_of p < 256) × (y_of p < 256) }
    ensures { result ≡ rank owner (code 8 (x_of p) (y_of p)) }
{
    65536 * owner as u64 + code8(table, (p % 512) as usize, (p / 512) as usize) as u64
}

// Whether each cycle is one of the map from its start, and their ranks rise. If so, their eastward edges are marked; if not, the content of the
// map is free.
fn each_agrees(
    n: u32,
    table: &Spreads,
    owners: &[u32],
    ends: &[u32],
    corners: &[u32],
    map: &mut [u32],
) -> bool
    requires { Retraceable n owners.now ends.now corners.now map.old }
    ensures { EachChecked n (cycles_in owners.now ends.now corners.now) map.old map.new result }
{
    let mut begin: usize = 0;
    let mut least: u64 = 0;
    for k in 0..ends.len() {
        let end = ends[k] as usize;
        let owner = owners[k];
        if !cycle_agrees(n, table, owner, &corners[begin..end], map) {
            return false;
        }
        let r = rank(table, owner, corners[begin]);
        if r < least {
            return false;
        }
        begin = end;
        least = r + 1;
    }
    true
}

// Whether the pixel at the place i bears a mark, or the pixel to the north has the same number.
fn passes(map: &[u32], side: usize, i: usize) -> bool
    requires { i < length map.now }
    ensures { Says result (Passes side map.now i) }
{
    let here = map[i];
    MARK_BIT <= here || (side <= i && map[i - side] % MARK_BIT == here)
}

// Whether each pixel whose north side is an edge bears a mark.
fn each_marked(n: u32, map: &[u32]) -> bool
    requires { (n ≤ 8) × Mapped n map.now }
    ensures { Says result (EachMarked n map.now) }
{
    let side = location::side(n);
    for i in 0..location::pixels(n) {
        if !passes(map, side, i) {
            return false;
        }
    }
    true
}

// Whether the given cycles are the outlines of the numbers in the map, in their order. Marks pixels of the map; where they are not, the content
// of the map is free.
pub fn cycles_agree(n: u32, owners: &[u32], ends: &[u32], corners: &[u32], map: &mut [u32]) -> bool
    requires { Retraceable n owners.now ends.now corners.now map.old }
    ensures { Retraced n (cycles_in owners.now ends.now corners.now) map.old map.new result }
{
    let table = location::table::spreads();
    each_agrees(n, &table, owners, ends, corners, map) && each_marked(n, map)
}
