// A raster merged into blocks: from each code on the largest block of one colour that may start there.
ghost use Rattle.std.specs.Prelude.{◌≡◌, ◌+◌, ◌^◌, ◌<◌, slice_index};
ghost use Rattle.quadtree.specs.Raster.{in_code_order};
ghost use Rattle.quadtree.specs.Merging.{block_from};
ghost use Rattle.squares.specs.Fours.{four_stored};
ghost use Rattle.merging.specs.MergeLoop.{RasterOf, BlocksFit, FourTurn, Merged};

use squares::store_four;
use uniform::others_alike;

// The level of the block that starts at the code c: it grows while the three squares beside it have its colour, up to
// the level that the zeros ending the code leave open.
fn level_at(n: u32, raster: &[u16], c: u32) -> u32
    requires { RasterOf n raster.now × (c < 4 ^ n) }
    ensures { result ≡ (block_from n (in_code_order n raster.now) c).level }
{
    let top = location::top_level(n, c);
    let w = location::side(n);
    let at = location::place(n, c);
    let v = raster[at];
    for l in 0..top {
        if !others_alike(raster, w, at, location::side(l), v) {
            return l;
        }
    }
    top
}

// Writes the four single pixels from the code c on, the first at the place `at` of the raster, in rows of w.
fn write_four(
    raster: &[u16],
    w: usize,
    at: usize,
    c: u32,
    count: usize,
    codes: &mut [u32],
    levels: &mut [u8],
    colours: &mut [u16],
)
    requires { FourTurn raster.now codes.old levels.old colours.old count c at w }
    ensures codes { codes.new ≡ four_stored 2 count c (c + 1) (c + 2) (c + 3) codes.old }
    ensures levels { levels.new ≡ four_stored 2 count 0 0 0 0 levels.old }
    ensures colours { colours.new
        ≡ four_stored 2 count
        (slice_index raster.now at) (slice_index raster.now (at + 1))
        (slice_index raster.now (at + w)) (slice_index raster.now (at + w + 1))
        colours.old }
{
    store_four(codes, 2, count, c, c + 1, c + 2, c + 3);
    store_four(levels, 2, count, 0, 0, 0, 0);
    store_four(
        colours,
        2,
        count,
        raster[at],
        raster[at + 1],
        raster[at + w],
        raster[at + w + 1],
    );
}

// Writes the blocks of the raster and returns their number. Single pixels come by fours from a multiple of 4 on, written at
// once.
pub(crate) fn merge(
    n: u32,
    raster: &[u16],
    codes: &mut [u32],
    levels: &mut [u8],
    colours: &mut [u16],
) -> usize
    requires { BlocksFit n raster.now codes.old levels.old colours.old }
    ensures { Merged n raster.now
        codes.old levels.old colours.old
        codes.new levels.new colours.new result }
{
    let w = location::side(n);
    let mut count: usize = 0;
    // The step is each block's size, so the code is counted by hand.
    let mut c: usize = 0;
    while c < raster.len() {
        let code = c as u32;
        let level = level_at(n, raster, code);
        let at = location::place(n, code);
        if level + code % 4 == 0 && 0 < n {
            write_four(raster, w, at, code, count, codes, levels, colours);
            count += 4;
            c += 4;
            continue;
        }
        codes[count] = code;
        levels[count] = level as u8;
        colours[count] = raster[at];
        count += 1;
        c += location::pixels(level);
    }
    count
}
