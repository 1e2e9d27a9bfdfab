// Samples of one byte or of two, the most significant first.
ghost use Rattle.std.specs.Prelude.{◌≡◌, ◌+◌, ◌*◌, ◌≤◌, length};
ghost use Rattle.sequences.specs.Over.{over};
ghost use Rattle.pgm.specs.Samples.{sample_bytes, sample_at, samples_of, greatest_of, any_above};

// The sample i.
fn sample(bytes: &[u8], wide: bool, i: usize) -> u16
    requires { sample_bytes wide * (i + 1) ≤ length bytes.now }
    ensures { result ≡ sample_at wide bytes.now i }
{
    if wide {
        u16::from_be_bytes([bytes[2 * i], bytes[2 * i + 1]])
    } else {
        u16::from(bytes[i])
    }
}

// The greatest sample of a width.
fn greatest(wide: bool) -> u16
    ensures { result ≡ greatest_of wide }
{
    if wide { 65535 } else { 255 }
}

// Whether one of the first `count` samples is above maxval. Where maxval is the greatest of the width none is. Else all are looked
// at, with no way out of the loop, so that the compiler can take several at a time.
pub(crate) fn any_above(bytes: &[u8], wide: bool, count: usize, maxval: u16) -> bool
    requires { sample_bytes wide * count ≤ length bytes.now }
    ensures { result ≡ any_above maxval (samples_of wide count bytes.now) }
{
    if maxval == greatest(wide) {
        return false;
    }
    let mut found = false;
    for i in 0..count {
        found |= maxval < sample(bytes, wide, i);
    }
    found
}

// Stores the first `count` samples at the front of the raster.
pub(crate) fn store(bytes: &[u8], wide: bool, count: usize, raster: &mut [u16])
    requires { (sample_bytes wide * count ≤ length bytes.now) × (count ≤ length raster.old) }
    ensures { raster.new ≡ over (samples_of wide count bytes.now) raster.old }
{
    for at in 0..count {
        raster[at] = sample(bytes, wide, at);
    }
}
