// A cursor in a block list: where its block ends, and the place that it goes on to; the smaller of two numbers.
#![tactic(auto)]

ghost use Rattle.std.specs.Prelude.{◌≡◌, ◌+◌, ◌^◌, ◌≤◌, ◌<◌, min};
ghost use Rattle.cursors.specs.Cursors.{next_place};

// The smaller of two numbers.
pub fn least(a: usize, b: usize) -> usize
    ensures { result ≡ min a b }
{
    a.min(b)
}

// The code after the last pixel of a block.
pub fn end_of(code: u32, level: u8) -> usize
    requires { (code < 65536) × (level ≤ 8) }
    ensures { result ≡ code + 4 ^ level }
{
    code as usize + location::pixels(level as u32)
}

// The place of a cursor, at a block that ends at `ending`, once the pixels with codes below `done` are done.
pub fn next_place(i: usize, ending: usize, done: usize) -> usize
    requires { i + 1 < 2 ^ 64 }
    ensures { result ≡ next_place i ending done }
{
    if done < ending { i } else { i + 1 }
}
