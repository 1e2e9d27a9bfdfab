// A block list painted as a raster.
#![tactic(auto)]

ghost use Rattle.answers.specs.Results.{written};
ghost use Rattle.painting.specs.Promise.{ToRaster};

use answers::Cause;

mod paint;

// A block list to its raster, row by row: how many entries were written.
pub fn to_raster(
    n: u32,
    codes: &[u32],
    levels: &[u8],
    colours: &[u16],
    raster: &mut [u16],
) -> Result<u32, Cause>
    ensures { ToRaster n codes.now levels.now colours.now raster.old raster.new (written result) }
{
    blocks::check(n, codes, levels, colours)?;
    let whole = location::pixels(n);
    if raster.len() < whole {
        return Err(Cause::ListTooShort);
    }
    paint::paint(n, codes, levels, colours, raster);
    Ok(whole as u32)
}
