// The parent of each region of labelled blocks: the innermost region that surrounds it. The region north of a region's least pixel is its
// parent, unless the side between them lies in that region's first cycle: then both have one parent.
#![tactic(auto)]

ghost use Rattle.std.specs.Prelude.{◌≡◌, get_or};
ghost use Rattle.interleaving.specs.Codes.{code};
ghost use Rattle.cycles.specs.Mapped.{nums_of};
ghost use Rattle.surrounding.specs.Parents.{parent_of};
ghost use Rattle.parents.specs.RegionsSettled.{LeastAt, RegionNext, RegionSettled};
ghost use Rattle.parents.specs.Blocks.{BlockNext, BlockPassed, AllNext, AllSettled};
ghost use Rattle.parents.specs.Promise.{RegionsNumbered, ParentsFound};

use first_cycles::mark_south_sides;
use steps::MARK_BIT;

// 1 plus the parent of the region whose least pixel is (x, y), 0 where it has none. The work list holds the map and behind it the parents of
// the regions with smaller numbers, whose first cycles are marked. The answer is what is stored there, so it is a number and no Option.
fn parent_at(n: u32, work: &[u32], x: u32, y: u32) -> u32
    requires { LeastAt n work.now x y }
    ensures { result ≡ parent_of n (nums_of n work.now) (get_or (nums_of n work.now) (code n x y) 0) }
{
    if y == 0 {
        return 0;
    }
    let side = location::side(n);
    let whole = location::pixels(n);
    let north = work[(y as usize - 1) * side + x as usize];
    if north < MARK_BIT {
        return north;
    }
    work[whole + (north % MARK_BIT) as usize - 1]
}

// Settles the region s, whose least pixel has this code: writes its parent and marks its first cycle.
fn settle(n: u32, s: usize, code: u32, work: &mut [u32])
    requires { RegionNext n s code work.old }
    ensures { RegionSettled n s work.old work.new }
{
    let x = location::column(code) as u32;
    let y = location::row(code) as u32;
    let at = location::pixels(n) + s;
    work[at] = parent_at(n, work, x, y);
    mark_south_sides(n, work, x, y);
}

// Settles the region of block i where it is s, the next one: then i is its first block. Gives the next region.
fn settle_next(n: u32, codes: &[u32], labels: &[u32], i: usize, s: usize, work: &mut [u32]) -> usize
    requires { BlockNext n codes.now labels.now i s work.old }
    ensures { BlockPassed n labels.now i s work.old work.new result }
{
    if labels[i] as usize != s {
        return s;
    }
    settle(n, s, codes[i], work);
    s + 1
}

// Settles all regions, `count` in number, each at its first block.
fn settle_all(n: u32, count: usize, codes: &[u32], labels: &[u32], work: &mut [u32])
    requires { AllNext n count codes.now labels.now work.old }
    ensures { AllSettled n count work.old work.new }
{
    let mut s = 0;
    let mut i = 0;
    // It ends at the last region, not at the last block, so no range goes over it.
    while s < count {
        s = settle_next(n, codes, labels, i, s, work);
        i += 1;
    }
}

// Writes 1 plus the parent of each region, 0 where it has none, behind the first 4^n entries of the work list. Of these one a region is 0
// then; what the others hold is free.
pub fn find_parents(
    n: u32,
    count: usize,
    codes: &[u32],
    levels: &[u8],
    labels: &[u32],
    work: &mut [u32],
)
    requires { RegionsNumbered n count codes.now levels.now labels.now work.old }
    ensures { ParentsFound n count codes.now levels.now labels.now work.old work.new }
{
    mapping::fill_map(n, codes, levels, labels, work);
    settle_all(n, count, codes, labels, work);
    filling::fill(work, 0, count, 0);
}
