// The outlines of labelled blocks: a map of region numbers, and a walk along each cycle that writes its corners and adds up its area.
#![tactic(auto)]

ghost use Rattle.starts.specs.Progress.{state, none_counted};
ghost use Rattle.listing.specs.MapAndLinks.{entry_blocks};
ghost use Rattle.outlining.specs.Outlining.{Outlinable, Outlined};

use starts::Counts;

// Lists the outlines of all regions of labelled blocks. The work list holds the map and behind it the links of the blocks meanwhile; only
// these entries are cleared.
pub fn outline(
    n: u32,
    codes: &[u32],
    levels: &[u8],
    labels: &[u32],
    work: &mut [u32],
    owners: &mut [u32],
    ends: &mut [u32],
    corners: &mut [u32],
    areas: &mut [i32],
) -> Counts
    requires { Outlinable n codes.now levels.now labels.now (state work.old owners.old ends.old corners.old areas.old none_counted) }
    ensures { Outlined n (entry_blocks codes levels labels)
        (state work.old owners.old ends.old corners.old areas.old none_counted)
        (state work.new owners.new ends.new corners.new areas.new result) }
{
    let whole = location::pixels(n);
    let used = whole + codes.len();
    mapping::link(whole, codes.len(), labels, work);
    mapping::fill_map(n, codes, levels, labels, work);
    let counts = listing::list_all(n, codes, levels, labels, work, owners, ends, corners, areas);
    filling::fill(work, 0, used, 0);
    counts
}
