// A raster merged into the block list of its quadtree.
#![tactic(auto)]

ghost use Rattle.answers.specs.Results.{written};
ghost use Rattle.merging.specs.Promise.{FromRaster};

use answers::Cause;

mod merge;

// A raster, row by row, to the block list of its quadtree: how many blocks were written.
pub fn from_raster(
    n: u32,
    raster: &[u16],
    codes: &mut [u32],
    levels: &mut [u8],
    colours: &mut [u16],
) -> Result<u32, Cause>
    ensures { FromRaster n raster.now
        codes.old levels.old colours.old
        codes.new levels.new colours.new (written result) }
{
    if 8 < n {
        return Err(Cause::SideTooLarge);
    }
    let whole = location::pixels(n);
    if raster.len() != whole {
        return Err(Cause::RasterLengthWrong);
    }
    let room = codes.len().min(levels.len()).min(colours.len());
    if room < whole {
        return Err(Cause::ListTooShort);
    }
    Ok(merge::merge(n, raster, codes, levels, colours) as u32)
}
