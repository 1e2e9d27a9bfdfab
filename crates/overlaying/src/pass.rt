// One pass over two block lists, a cursor in each: from the end of one piece to the nearer end of the two blocks, with the larger of
// their colours.
ghost use Rattle.quadtree.specs.BlockLists.{list_of, image_of};
ghost use Rattle.appending.specs.Progress.{AllWritten};
ghost use Rattle.overlaying.specs.Larger.{larger};
ghost use Rattle.overlaying.specs.Pass.{Overlayable};

use appending::{Pending, append, write_run};
use cursors::{end_of, next_place};

// Writes the blocks of the larger colours and returns their number.
pub(crate) fn lay_over(
    n: u32,
    first_codes: &[u32],
    first_levels: &[u8],
    first_colours: &[u16],
    second_codes: &[u32],
    second_levels: &[u8],
    second_colours: &[u16],
    codes: &mut [u32],
    levels: &mut [u8],
    colours: &mut [u16],
) -> usize
    requires { Overlayable n
        (list_of first_codes.now first_levels.now first_colours.now)
        (list_of second_codes.now second_levels.now second_colours.now)
        (list_of codes.old levels.old colours.old) }
    ensures { AllWritten n (larger
        (image_of (list_of first_codes.now first_levels.now first_colours.now))
        (image_of (list_of second_codes.now second_levels.now second_colours.now)))
        (list_of codes.old levels.old colours.old)
        (list_of codes.new levels.new colours.new) result }
{
    let mut pending = Pending {
        from: 0,
        to: 0,
        colour: 0,
        count: 0,
    };
    // The cursors go on by blocks, so their places are counted by hand.
    let mut i: usize = 0;
    let mut j: usize = 0;
    while i < first_codes.len() {
        let ending = end_of(first_codes[i], first_levels[i]);
        let other = end_of(second_codes[j], second_levels[j]);
        let done = ending.min(other);
        let colour = first_colours[i].max(second_colours[j]);
        let size = done - pending.to;
        pending = append(n, pending, size, colour, codes, levels, colours);
        i = next_place(i, ending, done);
        j = next_place(j, other, done);
    }
    write_run(n, pending, codes, levels, colours)
}
