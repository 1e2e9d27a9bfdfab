// Numbers of a header: 1 to 5 decimal digits.
ghost use Rattle.std.specs.Prelude.{◌≡◌, ◌≤◌, length, drop};
ghost use Rattle.headers.specs.Number.{is_digit, number};
ghost use Rattle.headers.specs.Steps.{Numbers, stopped};

use crate::step::Cursor;

fn is_digit(b: u8) -> bool
    ensures { result ≡ is_digit b }
{
    b'0' <= b && b <= b'9'
}

// What a number is once its digits end at `at`: at least one is needed.
fn stop(count: u32, value: u32, at: usize) -> Option<(u32, Cursor)>
    ensures { result ≡ stopped count value at }
{
    if count == 0 {
        None
    } else {
        Some((value, Cursor { at }))
    }
}

// A number, of 1 to 5 digits, and the place past it. A sixth digit makes a bad header.
pub(crate) fn parse(bytes: &[u8], c: Cursor) -> Option<(u32, Cursor)>
    requires { c.at ≤ length bytes.now }
    ensures { Numbers bytes.now (number (drop c.at bytes.now)) result }
{
    let mut count: u32 = 0;
    let mut value: u32 = 0;
    for at in c.at..bytes.len() {
        let b = bytes[at];
        let digit = is_digit(b);
        if !digit {
            return stop(count, value, at);
        }
        if count == 5 {
            return None;
        }
        value = value * 10 + u32::from(b - b'0');
        count += 1;
    }
    stop(count, value, bytes.len())
}
