// The entries of a raster moved either way, row after row: each pixel's code is looked up in the table of spread numbers, in one pass.
ghost use Rattle.std.specs.Prelude.{◌≡◌, ◌*◌, ◌^◌, length};
ghost use Rattle.sequences.specs.Over.{over};
ghost use Rattle.rearranging.specs.Ways.{Way, to_block_order, to_rows, read_at, written_at, rearranged};
ghost use Rattle.rearranging.specs.Moving.{moved};
ghost use Rattle.rearranging.specs.Promise.{Fits};
ghost use Rattle.rearranging.specs.Rows.{RowFits};

use interleaving::{Spreads, code8};
use location::table::spreads;

// A way to rearrange.
pub(crate) trait Direction {
    ghost way: { Way };

    // Where the pixel that has this place in the rows and this code is read, and where it is written.
    fn places(at: usize, code: usize) -> (usize, usize)
        ensures read { result.0 ≡ read_at way at code }
        ensures written { result.1 ≡ written_at way at code };
}

pub(crate) struct ToBlockOrder;

impl Direction for ToBlockOrder {
    ghost way = { to_block_order };

    fn places(at: usize, code: usize) -> (usize, usize) {
        (at, code)
    }
}

pub(crate) struct ToRows;

impl Direction for ToRows {
    ghost way = { to_rows };

    fn places(at: usize, code: usize) -> (usize, usize) {
        (code, at)
    }
}

// The row y.
fn one_row<D: Direction>(n: u32, table: &Spreads, source: &[u16], y: usize, target: &mut [u16])
    requires { RowFits n y (length source.now) (length target.old) }
    ensures { target.new ≡ moved D.way n source.now (y * 2 ^ n) (2 ^ n) target.old }
{
    let w = location::side(n);
    let start = y * w;
    for x in 0..w {
        let (from, to) = D::places(start + x, code8(table, x, y) as usize);
        target[to] = source[from];
    }
}

// All rows.
pub(crate) fn all_rows<D: Direction>(n: u32, source: &[u16], target: &mut [u16])
    requires { Fits n (length source.now) (length target.old) }
    ensures { target.new ≡ over (rearranged D.way n source.now) target.old }
{
    let table = spreads();
    for y in 0..location::side(n) {
        one_row::<D>(n, &table, source, y, target);
    }
}
