// The cycles that start in one block, listed: only at pixels of its top row can one start.
#![tactic(auto)]

ghost use Rattle.std.specs.Prelude.{◌∷◌, []};
ghost use Rattle.interleaving.specs.Codes.{code};
ghost use Rattle.links.specs.TopRows.{row_from};
ghost use Rattle.starts.specs.Unmarked.{PixelOf, Tells, told};
ghost use Rattle.starts.specs.Progress.{state, entry_state, exit_state, StartsListed};
ghost use Rattle.starts.specs.Pixels.{PixelNext};
ghost use Rattle.starts.specs.Rows.{RowNext};
ghost use Rattle.starts.specs.Blocks.{top_of, BlockNext};

use cycles::write_cycle;
use steps::MARK_BIT;

// How many cycles and how many corners are written.
#[derive(Clone, Copy, Debug, PartialEq, Eq)]
pub struct Counts {
    pub cycles: usize,
    pub corners: usize,
}

// The region of the pixel (x, y), where its north side is an edge and bears no mark.
fn unmarked(n: u32, map: &[u32], x: u32, y: u32) -> Option<u32>
    requires { PixelOf n map.now x y }
    ensures { Tells n map.now (code n x y) (told result) }
{
    let side = location::side(n);
    let i = y as usize * side + x as usize;
    let here = map[i];
    if MARK_BIT <= here {
        return None;
    }
    if 0 < y && map[i - side] % MARK_BIT == here {
        return None;
    }
    Some(here - 1)
}

// Writes the cycle that starts at the pixel (x, y), if one does: its owner, its end, its area, and its corners into the unused rest of the
// corner list.
fn list_pixel(
    n: u32,
    x: u32,
    y: u32,
    counts: Counts,
    work: &mut [u32],
    owners: &mut [u32],
    ends: &mut [u32],
    corners: &mut [u32],
    areas: &mut [i32],
) -> Counts
    requires { PixelNext n x y (state work.old owners.old ends.old corners.old areas.old counts) }
    ensures { StartsListed n (code n x y ∷ []) (entry_state work owners ends corners areas counts) (exit_state work owners ends corners areas result) }
{
    let Some(region) = unmarked(n, work, x, y) else {
        return counts;
    };
    let cycles = counts.cycles;
    let at = counts.corners;
    let walked = write_cycle(n, work, x, y, &mut corners[at..]);
    let next = cycles + 1;
    let end = at + walked.corners;
    let area = walked.area;
    owners[cycles] = region;
    ends[cycles] = end as u32;
    areas[cycles] = area;
    Counts {
        cycles: next,
        corners: end,
    }
}

// Lists the cycles that start at the `width` pixels of the row y from the column x on.
fn list_row(
    n: u32,
    x: u32,
    y: u32,
    width: u32,
    counts: Counts,
    work: &mut [u32],
    owners: &mut [u32],
    ends: &mut [u32],
    corners: &mut [u32],
    areas: &mut [i32],
) -> Counts
    requires { RowNext n x y width (state work.old owners.old ends.old corners.old areas.old counts) }
    ensures { StartsListed n (row_from n y x width) (entry_state work owners ends corners areas counts) (exit_state work owners ends corners areas result) }
{
    let end = x + width;
    let mut listed = counts;
    for i in x..end {
        listed = list_pixel(n, i, y, listed, work, owners, ends, corners, areas);
    }
    listed
}

// Lists the cycles that start in the block with this code and level: only at pixels of its top row can one start.
pub fn list_block(
    n: u32,
    code: u32,
    level: u8,
    counts: Counts,
    work: &mut [u32],
    owners: &mut [u32],
    ends: &mut [u32],
    corners: &mut [u32],
    areas: &mut [i32],
) -> Counts
    requires { BlockNext n code level (state work.old owners.old ends.old corners.old areas.old counts) }
    ensures { StartsListed n (top_of n code level)
        (state work.old owners.old ends.old corners.old areas.old counts)
        (state work.new owners.new ends.new corners.new areas.new result) }
{
    let x = location::column(code) as u32;
    let y = location::row(code) as u32;
    let width = location::side(level as u32) as u32;
    list_row(n, x, y, width, counts, work, owners, ends, corners, areas)
}
