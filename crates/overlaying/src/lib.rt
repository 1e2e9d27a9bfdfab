// One block list laid over another: the merged list whose every pixel has the larger of the two colours.
#![tactic(auto)]

ghost use Rattle.answers.specs.Results.{written};
ghost use Rattle.quadtree.specs.BlockLists.{list_of};
ghost use Rattle.overlaying.specs.Promise.{Overlay};

use answers::Cause;
use pass::lay_over;

mod pass;

// The first block list laid over the second: how many blocks were written. The first is judged to its end before the second is looked at.
pub fn overlay(
    n: u32,
    first_codes: &[u32],
    first_levels: &[u8],
    first_colours: &[u16],
    second_codes: &[u32],
    second_levels: &[u8],
    second_colours: &[u16],
    codes: &mut [u32],
    levels: &mut [u8],
    colours: &mut [u16],
) -> Result<u32, Cause>
    ensures { Overlay n
        (list_of first_codes.now first_levels.now first_colours.now)
        (list_of second_codes.now second_levels.now second_colours.now)
        (list_of codes.old levels.old colours.old)
        (list_of codes.new levels.new colours.new) (written result) }
{
    blocks::check(n, first_codes, first_levels, first_colours)?;
    blocks::check(n, second_codes, second_levels, second_colours)?;
    let whole = location::pixels(n);
    let room = codes.len().min(levels.len()).min(colours.len());
    if room < whole {
        return Err(Cause::ListTooShort);
    }
    let count = lay_over(
        n,
        first_codes,
        first_levels,
        first_colours,
        second_codes,
        second_levels,
        second_colours,
        codes,
        levels,
        colours,
    );
    Ok(count as u32)
}
