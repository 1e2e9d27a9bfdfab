// Squares in the rows of a raster, filled with one value; four entries stored at once.
#![tactic(auto)]

ghost use Rattle.std.specs.Prelude.{◌≡◌, ◌+◌, ◌≤◌, ◌<◌, length};
ghost use Rattle.squares.specs.Fours.{four_stored};
ghost use Rattle.squares.specs.Rows.{RowsFit};
ghost use Rattle.squares.specs.Filling.{fill_rows};

// Gives the square of side 2 at the place `at`, in rows of w, its four values. In rows of 2 these are successive entries.
pub fn store_four<T: Copy>(raster: &mut [T], w: usize, at: usize, nw: T, ne: T, sw: T, se: T)
    requires { (w ≤ 256) × (at + w + 1 < length raster.old) }
    ensures { raster.new ≡ four_stored w at nw ne sw se raster.old }
{
    raster[at] = nw;
    raster[at + 1] = ne;
    raster[at + w] = sw;
    raster[at + w + 1] = se;
}

// Gives the square of s rows of s entries at the place `at`, in rows of w, the value v.
pub fn fill_square<T: Copy>(list: &mut [T], w: usize, at: usize, s: usize, v: T)
    requires { RowsFit (length list.old) w at s s }
    ensures { list.new ≡ fill_rows list.old w at s s v }
{
    for y in 0..s {
        filling::fill(list, at + y * w, s, v);
    }
}
