// Squares of a raster: whether they have one colour.
#![tactic(auto)]

ghost use Rattle.std.specs.Prelude.{◌≡◌, ◌+◌, ◌≤◌, length};
ghost use Rattle.quadtree.specs.Quadtree.{alike};
ghost use Rattle.squares.specs.Rows.{RowsFit};
ghost use Rattle.uniform.specs.Squares.{rows_alike};
ghost use Rattle.uniform.specs.Others.{OthersFit, beside_alike};

// Whether the s pixels from the place `from` on have the colour v.
fn run_alike(raster: &[u16], from: usize, s: usize, v: u16) -> bool
    requires { from + s ≤ length raster.now }
    ensures { result ≡ alike raster.now v from s }
{
    for i in from..from + s {
        if raster[i] != v {
            return false;
        }
    }
    true
}

// Whether the square of s rows of s pixels at the place `at`, in rows of w, has the colour v.
fn square_alike(raster: &[u16], w: usize, at: usize, s: usize, v: u16) -> bool
    requires { (w ≤ 256) × RowsFit (length raster.now) w at s s }
    ensures { result ≡ rows_alike raster.now v w at s s }
{
    for y in 0..s {
        if !run_alike(raster, at + y * w, s, v) {
            return false;
        }
    }
    true
}

// Whether the squares of side s east, south and southeast of the one at `at` have the colour v.
pub fn others_alike(raster: &[u16], w: usize, at: usize, s: usize, v: u16) -> bool
    requires { OthersFit (length raster.now) w at s }
    ensures { result ≡ beside_alike raster.now v w at s }
{
    square_alike(raster, w, at + s, s, v)
        && square_alike(raster, w, at + s * w, s, v)
        && square_alike(raster, w, at + s * w + s, s, v)
}
