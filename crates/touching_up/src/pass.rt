// One pass over a block list with a cursor: from the end of one piece to the end of the block there. The pixel that is repainted is a
// piece of its own.
ghost use Rattle.std.specs.Prelude.{◌≡◌, ◌<◌};
ghost use Rattle.quadtree.specs.BlockLists.{list_of, image_of};
ghost use Rattle.appending.specs.Progress.{AllWritten};
ghost use Rattle.touching_up.specs.Promise.{repainted};
ghost use Rattle.touching_up.specs.Pieces.{piece_end, piece_colour};
ghost use Rattle.touching_up.specs.Pass.{Repaintable};

use appending::{Pending, append, write_run};
use cursors::{end_of, next_place};

// Where the piece ends that begins at the code `from`, in a block that ends at `ending`.
fn piece_end(from: usize, pixel: usize, ending: usize) -> usize
    requires { from < ending }
    ensures { result ≡ piece_end from pixel ending }
{
    if from < pixel {
        return pixel.min(ending);
    }
    if pixel < from {
        return ending;
    }
    from + 1
}

// The colour of the piece that begins at the code `from`: that of its block, or that of the pixel.
fn piece_colour(from: usize, pixel: usize, old: u16, colour: u16) -> u16
    ensures { result ≡ piece_colour from pixel old colour }
{
    if from == pixel { colour } else { old }
}

// Writes the blocks of the image with the pixel changed and returns their number.
pub(crate) fn repaint(
    n: u32,
    codes: &[u32],
    levels: &[u8],
    colours: &[u16],
    pixel: usize,
    colour: u16,
    new_codes: &mut [u32],
    new_levels: &mut [u8],
    new_colours: &mut [u16],
) -> usize
    requires { Repaintable n (list_of codes.now levels.now colours.now) pixel
        (list_of new_codes.old new_levels.old new_colours.old) }
    ensures { AllWritten n
        (repainted (image_of (list_of codes.now levels.now colours.now)) pixel colour)
        (list_of new_codes.old new_levels.old new_colours.old)
        (list_of new_codes.new new_levels.new new_colours.new) result }
{
    let mut pending = Pending {
        from: 0,
        to: 0,
        colour: 0,
        count: 0,
    };
    // The cursor goes on by blocks, so its place is counted by hand.
    let mut i: usize = 0;
    while i < codes.len() {
        let ending = end_of(codes[i], levels[i]);
        let done = piece_end(pending.to, pixel, ending);
        let painted = piece_colour(pending.to, pixel, colours[i], colour);
        let size = done - pending.to;
        pending = append(
            n,
            pending,
            size,
            painted,
            new_codes,
            new_levels,
            new_colours,
        );
        i = next_place(i, ending, done);
    }
    write_run(n, pending, new_codes, new_levels, new_colours)
}
