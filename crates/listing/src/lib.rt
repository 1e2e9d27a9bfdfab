// The cycles listed, region after region, along the chain of each region's blocks.
#![tactic(auto)]

ghost use Rattle.starts.specs.Progress.{state, entry_state, exit_state, none_counted};
ghost use Rattle.listing.specs.Chains.{ChainNext, ChainListed};
ghost use Rattle.listing.specs.MapAndLinks.{MapAndLinks, entry_blocks};
ghost use Rattle.listing.specs.Regions.{ListedBefore, ListedAfter, AllListed};

use starts::{Counts, list_block};

// Lists the cycles of one region: along its chain of blocks from the block `first` on. The link of block j stands at 4^n + j in the work list:
// 1 plus the next block, 0 behind the last.
fn list_region(
    n: u32,
    codes: &[u32],
    levels: &[u8],
    first: usize,
    counts: Counts,
    work: &mut [u32],
    owners: &mut [u32],
    ends: &mut [u32],
    corners: &mut [u32],
    areas: &mut [i32],
) -> Counts
    requires { ChainNext n codes.now levels.now first (state work.old owners.old ends.old corners.old areas.old counts) }
    ensures { ChainListed n codes.now levels.now first
        (entry_state work owners ends corners areas counts) (exit_state work owners ends corners areas result) }
{
    let whole = location::pixels(n);
    let mut listed = counts;
    let mut next = first + 1;
    while let Some(j) = next.checked_sub(1) {
        listed = list_block(
            n, codes[j], levels[j], listed, work, owners, ends, corners, areas,
        );
        next = work[whole + j] as usize;
    }
    listed
}

// What the pass over the blocks has reached: how many regions are listed, and how many cycles and corners of theirs.
#[derive(Clone, Copy, Debug, PartialEq, Eq)]
struct Reached {
    regions: u32,
    counts: Counts,
}

// Lists the cycles of the region of block i, where it is the next one not listed yet: then i is its first block.
fn list_next(
    n: u32,
    codes: &[u32],
    levels: &[u8],
    labels: &[u32],
    i: usize,
    reached: Reached,
    work: &mut [u32],
    owners: &mut [u32],
    ends: &mut [u32],
    corners: &mut [u32],
    areas: &mut [i32],
) -> Reached
    requires { ListedBefore n codes.now levels.now labels.now i reached.regions
        (state work.old owners.old ends.old corners.old areas.old reached.counts) }
    ensures { ListedAfter n (entry_blocks codes levels labels) i result.regions
        (entry_state work owners ends corners areas reached.counts) (exit_state work owners ends corners areas result.counts) }
{
    if labels[i] != reached.regions {
        return reached;
    }
    let counts = list_region(
        n,
        codes,
        levels,
        i,
        reached.counts,
        work,
        owners,
        ends,
        corners,
        areas,
    );
    Reached {
        regions: reached.regions + 1,
        counts,
    }
}

// Lists all cycles of a labelled list of blocks, whose map and links stand in the work list.
pub fn list_all(
    n: u32,
    codes: &[u32],
    levels: &[u8],
    labels: &[u32],
    work: &mut [u32],
    owners: &mut [u32],
    ends: &mut [u32],
    corners: &mut [u32],
    areas: &mut [i32],
) -> Counts
    requires { MapAndLinks n codes.now levels.now labels.now (state work.old owners.old ends.old corners.old areas.old none_counted) }
    ensures { AllListed n (entry_blocks codes levels labels)
        (state work.old owners.old ends.old corners.old areas.old none_counted)
        (state work.new owners.new ends.new corners.new areas.new result) }
{
    let mut reached = Reached {
        regions: 0,
        counts: Counts {
            cycles: 0,
            corners: 0,
        },
    };
    for i in 0..codes.len() {
        reached = list_next(
            n, codes, levels, labels, i, reached, work, owners, ends, corners, areas,
        );
    }
    reached.counts
}
