// Causes 3 to 7: one pass over the blocks for what they cover, one for four siblings of one colour.
ghost use Rattle.std.specs.Prelude.{◌≡◌, ◌+◌, ◌≤◌, ◌<◌, ◌^◌, length};
ghost use Rattle.quadtree.specs.Blocks.{blocks};
ghost use Rattle.quadtree.specs.Number.{fault_of, siblings};
ghost use Rattle.quadtree.specs.Lists.{EqualLengths};
ghost use Rattle.answers.specs.Results.{said};
ghost use Rattle.blocks.specs.Covering.{CoverOf};
ghost use Rattle.blocks.specs.Siblings.{alike_from, stride_at, Covered};

use answers::Cause;

// The cause among 3, 4 and 5 that a block meets where `sum` pixels are covered before it.
fn block_fault(n: u32, whole: usize, sum: usize, code: u32, level: u32) -> Result<(), Cause>
    requires { (n ≤ 8) × (whole ≡ 4 ^ n) }
    ensures { said result ≡ fault_of n sum code level }
{
    if n < level {
        return Err(Cause::LevelAboveSide);
    }
    if code as usize != sum || sum == whole {
        return Err(Cause::CodeNotNext);
    }
    if location::alignment(code) < level {
        return Err(Cause::CodeNotAligned);
    }
    Ok(())
}

// Causes 3, 4 and 5 per block in list order, then 6. Colours do not matter here.
pub(crate) fn cover(n: u32, codes: &[u32], levels: &[u8]) -> Result<(), Cause>
    requires { (n ≤ 8) × (length codes.now ≡ length levels.now) }
    ensures { CoverOf n codes.now levels.now (said result) }
{
    let whole = location::pixels(n);
    let mut sum: usize = 0;
    for i in 0..codes.len() {
        let level = u32::from(levels[i]);
        block_fault(n, whole, sum, codes[i], level)?;
        sum += location::pixels(level);
    }
    if sum < whole {
        return Err(Cause::PixelsMissing);
    }
    Ok(())
}

// Whether the four levels from i on are equal: asked of them as the digits of one number, one test instead of three.
fn levels_alike(levels: &[u8], i: usize) -> bool
    requires { i + 3 < length levels.now }
    ensures { result ≡ alike_from levels.now i }
{
    let first = u32::from(levels[i]);
    let second = u32::from(levels[i + 1]);
    let third = u32::from(levels[i + 2]);
    let fourth = u32::from(levels[i + 3]);
    first + 256 * second + 65536 * third + 16777216 * fourth == 16843009 * first
}

// Whether the four colours from i on are equal, asked in the same way: the last number has the digit 1 four times to the base 65,536.
// One function for both bases would be no shorter: each base has a type, a word and numbers of its own.
fn colours_alike(colours: &[u16], i: usize) -> bool
    requires { i + 3 < length colours.now }
    ensures { result ≡ alike_from colours.now i }
{
    let first = u64::from(colours[i]);
    let second = u64::from(colours[i + 1]);
    let third = u64::from(colours[i + 2]);
    let fourth = u64::from(colours[i + 3]);
    first + 65536 * second + 4294967296 * third + 281474976710656 * fourth
        == 281479271743489 * first
}

// How many blocks from i on begin no four siblings of one colour, as far as one look tells; 0 where such four begin at i. It is
// `stride_at`, of which the theorems say 0 and not none.
fn stride(n: u32, codes: &[u32], levels: &[u8], colours: &[u16], i: usize) -> usize
    requires { (n ≤ 8) × EqualLengths codes.now levels.now colours.now × (i + 3 < length codes.now) }
    ensures { result ≡ stride_at n codes.now levels.now colours.now i }
{
    let level = u32::from(levels[i]);
    if n <= level {
        return 1;
    }
    if location::alignment(codes[i]) <= level {
        return 1;
    }
    if !levels_alike(levels, i) {
        return 1;
    }
    if colours_alike(colours, i) {
        return 0;
    }
    4
}

// Cause 7 anywhere in a list that covers its image.
pub(crate) fn siblings(n: u32, codes: &[u32], levels: &[u8], colours: &[u16]) -> bool
    requires { Covered n codes.now levels.now colours.now }
    ensures { result ≡ siblings n (blocks codes.now levels.now colours.now) }
{
    // The step is one block or four, so the place is counted by hand.
    let mut i: usize = 0;
    while i + 3 < codes.len() {
        let clear = stride(n, codes, levels, colours, i);
        if clear == 0 {
            return true;
        }
        i += clear;
    }
    false
}
