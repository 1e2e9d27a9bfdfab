// A place in the bytes, and a step past bytes that must be there.
ghost use Rattle.std.specs.Prelude.{eqb, drop};
ghost use Rattle.headers.specs.Parser.{byte};
ghost use Rattle.headers.specs.Steps.{Passes};

// The place of the next byte.
#[derive(Clone, Copy, Debug, PartialEq, Eq)]
pub struct Cursor {
    pub at: usize,
}

// One byte that must be `wanted`.
pub(crate) fn exact(bytes: &[u8], c: Cursor, wanted: u8) -> Option<Cursor>
    ensures { Passes bytes.now (byte (λ b. eqb b wanted) (drop c.at bytes.now)) result }
{
    let at = c.at;
    if at < bytes.len() && bytes[at] == wanted {
        Some(Cursor { at: at + 1 })
    } else {
        None
    }
}
