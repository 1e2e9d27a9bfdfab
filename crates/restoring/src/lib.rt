// The block list of the only image that has given outlines and region colours.
#![tactic(auto)]

ghost use Rattle.std.specs.Prelude.{◌≡◌, ◌≤◌, length};
ghost use Rattle.answers.specs.Results.{written};
ghost use Rattle.sequences.specs.Fill.{fill};
ghost use Rattle.quadtree.specs.BlockLists.{list_of};
ghost use Rattle.sequences.specs.Says.{Says};
ghost use Rattle.given_outlines.specs.Given.{outline_lists, given_as};
ghost use Rattle.given_outlines.specs.Counts.{CountsFit};
ghost use Rattle.restoring.specs.Restored.{Restorable, Restored};
ghost use Rattle.restoring.specs.Promise.{lent_short, Restoring};

use answers::Cause;
use judge::has_image;
use map_blocks::write_blocks;

mod judge;

// Whether one of the lists for the blocks or the work list is shorter than its need, by their lengths.
fn one_short(n: u32, codes: usize, levels: usize, colours: usize, work: usize) -> bool
    requires { n ≤ 8 }
    ensures { result ≡ lent_short n codes levels colours work }
{
    let whole = location::pixels(n);
    if codes < whole {
        return true;
    }
    if levels < whole {
        return true;
    }
    if colours < whole {
        return true;
    }
    work < 8 * whole
}

// Whether each list has as many entries as its count says.
fn counts_fit(
    regions: u32,
    cycles: u32,
    corner_count: u32,
    owners: &[u32],
    ends: &[u32],
    corners: &[u32],
    region_colours: &[u16],
) -> bool
    ensures { Says result (CountsFit (given_as regions cycles corner_count
        (outline_lists owners.now ends.now corners.now region_colours.now))) }
{
    if owners.len() < cycles as usize {
        return false;
    }
    if ends.len() < cycles as usize {
        return false;
    }
    if corners.len() < corner_count as usize {
        return false;
    }
    regions as usize <= region_colours.len()
}

// The answer where there is no such image: the first `need` entries of the work list are cleared.
fn no_image(need: usize, work: &mut [u32]) -> Result<u32, Cause>
    requires { need ≤ length work.old }
    ensures { (written result ≡ record { number = 18; count = 0 }) × (work.new ≡ fill work.old 0 need 0) }
{
    filling::fill(work, 0, need, 0);
    Err(Cause::NoImage)
}

// The block list of the image that has these outlines, if there is one. Clears the work list.
fn restore(
    n: u32,
    owners: &[u32],
    ends: &[u32],
    corners: &[u32],
    region_colours: &[u16],
    codes: &mut [u32],
    levels: &mut [u8],
    colours: &mut [u16],
    work: &mut [u32],
) -> Result<u32, Cause>
    requires { Restorable n (outline_lists owners.now ends.now corners.now region_colours.now)
        (list_of codes.old levels.old colours.old) work.old }
    ensures { Restored n (outline_lists owners.now ends.now corners.now region_colours.now)
        (list_of codes.old levels.old colours.old)
        (list_of codes.new levels.new colours.new) work.new (written result) }
{
    let entries = work.len();
    if !has_image(n, owners, ends, corners, region_colours, work) {
        return no_image(entries, work);
    }
    let count = write_blocks(n, work, region_colours, codes, levels, colours) as u32;
    filling::fill(work, 0, entries, 0);
    Ok(count)
}

// The block list of the image that has these outlines and region colours. The lists are looked at up to the counts.
pub fn blocks_from_outlines(
    n: u32,
    regions: u32,
    cycles: u32,
    corner_count: u32,
    owners: &[u32],
    ends: &[u32],
    corners: &[u32],
    region_colours: &[u16],
    codes: &mut [u32],
    levels: &mut [u8],
    colours: &mut [u16],
    work: &mut [u32],
) -> Result<u32, Cause>
    ensures { Restoring n
        (given_as regions cycles corner_count (outline_lists owners.now ends.now corners.now region_colours.now))
        (list_of codes.old levels.old colours.old) work.old
        (list_of codes.new levels.new colours.new) work.new (written result) }
{
    if 8 < n {
        return Err(Cause::SideTooLarge);
    }
    if one_short(n, codes.len(), levels.len(), colours.len(), work.len()) {
        return Err(Cause::ListTooShort);
    }
    let need = 8 * location::pixels(n);
    if !counts_fit(
        regions,
        cycles,
        corner_count,
        owners,
        ends,
        corners,
        region_colours,
    ) {
        return no_image(need, work);
    }
    restore(
        n,
        &owners[..cycles as usize],
        &ends[..cycles as usize],
        &corners[..corner_count as usize],
        &region_colours[..regions as usize],
        codes,
        levels,
        colours,
        &mut work[..need],
    )
}
