// A raster painted block by block.
ghost use Rattle.std.specs.Prelude.{◌≡◌};
ghost use Rattle.squares.specs.BlockByBlock.{Paintable};
ghost use Rattle.painting.specs.Promise.{image_over};

use squares::{fill_square, store_four};

// Paints the image of an accepted list, row by row. Single pixels come by fours from a multiple of 4 on, painted at once.
pub(crate) fn paint(n: u32, codes: &[u32], levels: &[u8], colours: &[u16], raster: &mut [u16])
    requires { Paintable n codes.now levels.now colours.now raster.old }
    ensures { raster.new ≡ image_over n codes.now levels.now colours.now raster.old }
{
    let w = location::side(n);
    // The step is one block or four, so the place is counted by hand.
    let mut i: usize = 0;
    while i < codes.len() {
        let level = u32::from(levels[i]);
        let at = location::place(n, codes[i]);
        let v = colours[i];
        if level + codes[i] % 4 == 0 && i + 3 < codes.len() {
            store_four(
                raster,
                w,
                at,
                v,
                colours[i + 1],
                colours[i + 2],
                colours[i + 3],
            );
            i += 4;
            continue;
        }
        let s = location::side(level);
        if s == 2 {
            store_four(raster, w, at, v, v, v, v);
        } else {
            fill_square(raster, w, at, s, v);
        }
        i += 1;
    }
}
