// The corners of a chain code (document 01, "Path, chain and picture").
#![tactic(auto)]

ghost use Rattle.answers.specs.Results.{written};
ghost use Rattle.chains.specs.ChainForm.{ChainRead};

use answers::Cause;

mod reading;

// The corners of a chain from the start corner: refused if it is none, then if the list is shorter than their number. All bytes
// are looked at before anything is written.
pub fn read_chain(start: u32, bytes: &[u8], corners: &mut [u32]) -> Result<u32, Cause>
    ensures { ChainRead start bytes.now corners.old corners.new (written result) }
{
    let Some(n) = reading::corner_count(start, bytes) else {
        return Err(Cause::NotChain);
    };
    if corners.len() < n {
        return Err(Cause::ListTooShort);
    }
    let last = bytes[bytes.len() - 1] - b'0';
    let k = reading::write_corners(start, bytes, last, corners);
    Ok(k as u32)
}
