// The check of a block list.
#![tactic(auto)]

ghost use Rattle.std.specs.Prelude.{◌≡◌};
ghost use Rattle.answers.specs.Results.{said};
ghost use Rattle.quadtree.specs.Number.{number};

mod covering;

use answers::Cause;

// Why a block list is refused, if it is: causes 1 to 7 in the document's order.
pub fn check(n: u32, codes: &[u32], levels: &[u8], colours: &[u16]) -> Result<(), Cause>
    ensures { said result ≡ number n codes.now levels.now colours.now }
{
    if 8 < n {
        return Err(Cause::SideTooLarge);
    }
    if codes.len() != levels.len() || levels.len() != colours.len() {
        return Err(Cause::LengthsDiffer);
    }
    covering::cover(n, codes, levels)?;
    if covering::siblings(n, codes, levels, colours) {
        return Err(Cause::SiblingsAlike);
    }
    Ok(())
}
