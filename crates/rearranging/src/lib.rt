// Rasters rearranged: row by row into rising location code, which is block order, and back.
#![tactic(auto)]

ghost use Rattle.std.specs.Prelude.{◌≡◌};
ghost use Rattle.answers.specs.Results.{said, written};
ghost use Rattle.rearranging.specs.Ways.{to_block_order, to_rows};
ghost use Rattle.rearranging.specs.Promise.{rearrange_number, Rearranging};

use answers::Cause;
use moving::{Direction, ToBlockOrder, ToRows};

mod moving;

// Why a source and a target of these lengths are refused, if they are: 1, 9 or 8.
fn check(n: u32, source: usize, target: usize) -> Result<(), Cause>
    ensures { said result ≡ rearrange_number n source target }
{
    if 8 < n {
        return Err(Cause::SideTooLarge);
    }
    let whole = location::pixels(n);
    if source != whole {
        return Err(Cause::RasterLengthWrong);
    }
    if target < whole {
        return Err(Cause::ListTooShort);
    }
    Ok(())
}

// Either way: how many entries were written.
fn rearrange<D: Direction>(n: u32, source: &[u16], target: &mut [u16]) -> Result<u32, Cause>
    ensures { Rearranging D.way n source.now target.old target.new (written result) }
{
    check(n, source.len(), target.len())?;
    moving::all_rows::<D>(n, source, target);
    Ok(location::pixels(n) as u32)
}

// A row-by-row raster into block order.
pub fn to_block_order(n: u32, raster: &[u16], stored: &mut [u16]) -> Result<u32, Cause>
    ensures { Rearranging to_block_order n raster.now stored.old stored.new (written result) }
{
    rearrange::<ToBlockOrder>(n, raster, stored)
}

// A raster in block order back into rows.
pub fn from_block_order(n: u32, stored: &[u16], raster: &mut [u16]) -> Result<u32, Cause>
    ensures { Rearranging to_rows n stored.now raster.old raster.new (written result) }
{
    rearrange::<ToRows>(n, stored, raster)
}
