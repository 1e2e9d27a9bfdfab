// Causes 11 to 13: what the numbers of a header and the bytes behind it make of a picture.
ghost use Rattle.std.specs.Prelude.{◌≡◌, ◌≤◌, ◌*◌};
ghost use Rattle.pgm.specs.Exponent.{exponent};
ghost use Rattle.pgm.specs.Samples.{sample_bytes};
ghost use Rattle.pgm.specs.Shaped.{shaped};

use answers::Cause;

// The n from 0 to 8 with 2^n = width, where there is one.
fn exponent(width: u32) -> Option<u32>
    ensures { result ≡ exponent width }
{
    let mut power: u32 = 1;
    for n in 0..9 {
        if power == width {
            return Some(n);
        }
        power *= 2;
    }
    None
}

// A picture by its n, the number of its samples and whether each is two bytes.
#[derive(Clone, Copy)]
pub struct Shape {
    pub n: u32,
    pub count: usize,
    pub wide: bool,
}

// How many bytes so many samples are.
fn bytes_of(count: usize, wide: bool) -> usize
    requires { count ≤ 65536 }
    ensures { result ≡ sample_bytes wide * count }
{
    if wide { 2 * count } else { count }
}

// The causes 11 to 13, in rising order, of a picture whose header is followed by `length` bytes.
pub(crate) fn shape_of(width: u32, height: u32, maxval: u32, length: usize) -> Result<Shape, Cause>
    ensures { result ≡ shaped (record { width = width; height = height; maxval = maxval }) length }
{
    if width != height {
        return Err(Cause::SidesUnfit);
    }
    let Some(n) = exponent(width) else {
        return Err(Cause::SidesUnfit);
    };
    let count = (width as usize) * (height as usize);
    let wide = 255 < maxval;
    // `||` would be no plainer, and would add a branch.
    let outside = (maxval < 1) | (65535 < maxval);
    if outside {
        return Err(Cause::MaxvalOutOfRange);
    }
    if length != bytes_of(count, wide) {
        return Err(Cause::BytesNotSamples);
    }
    Ok(Shape { n, count, wide })
}
