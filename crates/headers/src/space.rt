// White space, in one place: blank, tab, LF, CR and remarks.
ghost use Rattle.std.specs.Prelude.{◌≡◌, false, not, ◌||◌, cond, ◌≤◌, length, drop};
ghost use Rattle.headers.specs.Space.{is_space, is_sign, is_end, is_white, space, skip, spaces};
ghost use Rattle.headers.specs.Steps.{Passes};

use crate::step::Cursor;

// Blank, tab, LF, CR.
fn is_space(b: u8) -> bool
    ensures { result ≡ is_space b }
{
    matches!(b, b' ' | b'\t' | b'\n' | b'\r')
}

// One plain white space byte: no remark stands after maxval.
pub(crate) fn space(bytes: &[u8], c: Cursor) -> Option<Cursor>
    ensures { Passes bytes.now (space (drop c.at bytes.now)) result }
{
    let at = c.at;
    if at < bytes.len() && is_space(bytes[at]) {
        Some(Cursor { at: at + 1 })
    } else {
        None
    }
}

// Whether the byte counts as white space: blank, tab, LF, CR, a number sign, and each one inside a remark.
fn is_white(b: u8, inside: bool) -> bool
    ensures { result ≡ inside || is_white b }
{
    inside || is_space(b) || b == b'#'
}

// Whether a remark goes on behind the byte: a number sign begins one, LF or CR ends it.
fn in_remark(b: u8, inside: bool) -> bool
    ensures { result ≡ cond inside (not (is_end b)) (is_sign b) }
{
    if inside {
        // In two steps: by `&&` each byte of a remark takes half as long again.
        if b == b'\n' {
            return false;
        }
        return b != b'\r';
    }
    b == b'#'
}

// Past the white space at `from`, if any. A remark that never ends is refused.
fn skip(bytes: &[u8], from: usize) -> Option<Cursor>
    requires { from ≤ length bytes.now }
    ensures { Passes bytes.now (skip false (drop from bytes.now)) result }
{
    let mut remark = false;
    for at in from..bytes.len() {
        let b = bytes[at];
        let white = is_white(b, remark);
        if !white {
            return Some(Cursor { at });
        }
        remark = in_remark(b, remark);
    }
    if remark {
        return None;
    }
    Some(Cursor { at: bytes.len() })
}

// White space: there is some.
pub(crate) fn spaces(bytes: &[u8], c: Cursor) -> Option<Cursor>
    ensures { Passes bytes.now (spaces (drop c.at bytes.now)) result }
{
    let at = c.at;
    if bytes.len() <= at || !is_white(bytes[at], false) {
        return None;
    }
    skip(bytes, at)
}
