// The text that a program prints for a P5 file: the path data of the outlines, one line a region, or the line of a refusal.
#![tactic(auto)]

mod order;
mod refusal;

ghost use Rattle.printing.specs.Printed.{Printing};
ghost use Rattle.printing.specs.Results.{told};

use answers::Cause;
pub use order::Order;

// The most bytes that a program takes.
pub const INPUT_LIMIT: usize = 16384;

// The length of a text list that has room for any answer.
pub const TEXT_ROOM: usize = 106496;

// A refusal: its cause, and how many bytes of its line were written.
#[derive(Clone, Copy, Debug, PartialEq, Eq)]
pub struct Refused {
    pub cause: Cause,
    pub count: u32,
}

// The lines of an accepted picture, whose samples stand in this order, or of a refused one its line: 15 above the limit, then 10 to 14,
// then 8 with the need of 26 times 4^n. The answer says how many bytes were written; a refusal's line that has no room is left out.
pub fn print(bytes: &[u8], order: Order, text: &mut [u8]) -> Result<u32, Refused>
    ensures { Printing order bytes.now text.old bytes.now text.new (told result) }
{
    if INPUT_LIMIT < bytes.len() {
        return Err(refusal::refuse(Cause::InputTooLong, text));
    }
    let mut samples = [0u16; 4096];
    let found = match pgm::read(bytes, &mut samples) {
        Ok(stored) => stored,
        Err(cause) => return Err(refusal::refuse(cause, text)),
    };
    let n = found.n;
    if text.len() < 26 * location::pixels(n) {
        return Err(Refused {
            cause: Cause::ListTooShort,
            count: 0,
        });
    }
    let whole = found.count as usize;
    let count = order::draw(n, &samples[..whole], order, text);
    Ok(count as u32)
}
