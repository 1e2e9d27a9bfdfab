// The test of cycle form (cause 16).
#![tactic(auto)]

ghost use Rattle.std.specs.Prelude.{◌≡◌, ◌<◌, length};
ghost use Rattle.lattice.specs.CycleForm.{inside, all_inside, along, steps, cycle_form};

// Coordinates at most 256.
pub fn within(p: u32) -> bool
    ensures { result ≡ inside p }
{
    p % 512 <= 256 && p / 512 <= 256
}

// A step along x where x holds, along y where it does not.
fn goes_along(x: bool, p: u32, q: u32) -> bool
    ensures { result ≡ along x p q }
{
    if x {
        return p / 512 == q / 512 && p % 512 != q % 512;
    }
    p % 512 == q % 512 && p / 512 != q / 512
}

// Every corner has coordinates at most 256.
fn all_within(corners: &[u32]) -> bool
    ensures { result ≡ all_inside corners.now }
{
    corners.iter().all(|&corner| within(corner))
}

// The steps go along x and y by turns, and the closing one along y.
fn turning(corners: &[u32]) -> bool
    requires { 0 < length corners.now }
    ensures { result ≡ steps corners.now }
{
    let last = corners.len() - 1;
    for i in 0..last {
        if !goes_along(i % 2 == 0, corners[i], corners[i + 1]) {
            return false;
        }
    }
    last % 2 == 1 && goes_along(false, corners[last], corners[0])
}

// "an even number of corners from 4 to 262,144, coordinates at most 256, first step eastward, then along y and x by
// turns, the closing step from last corner to first along y, no step of length 0" (document 01).
pub fn cycle_form(corners: &[u32]) -> bool
    ensures { result ≡ cycle_form corners.now }
{
    let n = corners.len();
    if n % 2 != 0 || n < 4 || 262144 < n || !all_within(corners) {
        return false;
    }
    corners[0] % 512 < corners[1] % 512 && turning(corners)
}
