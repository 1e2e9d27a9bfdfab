// The bytes of a chain code followed from its start corner: once to judge them and count the corners, and once to write these.
ghost use Rattle.std.specs.Prelude.{◌≡◌, true, cond, ◌<◌, ◌≤◌, eqb, length};
ghost use Rattle.lattice.specs.Directions.{move};
ghost use Rattle.lattice.specs.CycleForm.{inside};
ghost use Rattle.lattice.specs.Walks.{turns};
ghost use Rattle.answers.specs.Put.{Put};
ghost use Rattle.chains.specs.ChainForm.{walk, free, allowed, leads, is_across, chain_form, corners_of};
ghost use Rattle.chains.specs.Followed.{Follows};
ghost use Rattle.chains.specs.Following.{LeadsBack, TurnPut};

use lattice::right;

// One unit with the digit d from p ends within 0 to 256.
fn is_free(p: u32, d: u8) -> bool
    requires { d < 4 }
    ensures { result ≡ free d p }
{
    match d {
        0 => p % 512 < 256,
        1 => 0 < p / 512,
        2 => 0 < p % 512,
        _ => p / 512 < 256,
    }
}

// The byte b may stand at the point p after the digit d. Two right turns lead straight back.
fn may_follow(d: u8, p: u32, b: u8) -> bool
    requires { d < 4 }
    ensures { result ≡ allowed d p b }
{
    if b < b'0' || b'3' < b {
        return false;
    }
    let back = right(right(d));
    b - b'0' != back && is_free(p, b - b'0')
}

// The point one unit on from p with the digit d.
fn moved(p: u32, d: u8) -> u32
    requires { (d < 4) × (inside p ≡ true) × (free d p ≡ true) }
    ensures { result ≡ move d p }
{
    match d {
        0 => p + 1,
        1 => p - 512,
        2 => p - 1,
        _ => p + 512,
    }
}

// How many corners are met between two unit edges with the digits d and e.
fn corners_met(d: u8, e: u8) -> usize
    ensures { result ≡ cond (eqb d e) 0 1 }
{
    usize::from(d != e)
}

// The corners of bytes that lead from the start back to it, counted, or none; `last` is the digit before the first.
fn follow(start: u32, bytes: &[u8], last: u8) -> Option<usize>
    requires { (inside start ≡ true) × (last < 4) }
    ensures { Follows (leads last start bytes.now start) (turns last (walk start bytes.now)) result }
{
    let mut p = start;
    let mut d = last;
    let mut n: usize = 0;
    for &b in bytes {
        if !may_follow(d, p, b) {
            return None;
        }
        let e = b - b'0';
        n += corners_met(d, e);
        p = moved(p, e);
        d = e;
    }
    if p == start { Some(n) } else { None }
}

// The byte of the digit 1 or 3.
fn across(b: u8) -> bool
    ensures { result ≡ is_across b }
{
    b == b'1' || b == b'3'
}

// The corners of a chain, counted, or none.
pub(crate) fn corner_count(start: u32, bytes: &[u8]) -> Option<usize>
    ensures { Follows (chain_form start bytes.now) (corners_of start bytes.now) result }
{
    if !forms::within(start) {
        return None;
    }
    let n = bytes.len();
    if n == 0 || bytes[0] != b'0' {
        return None;
    }
    let last = bytes[n - 1];
    if !across(last) {
        return None;
    }
    let k = follow(start, bytes, last - b'0')?;
    if 262144 < k {
        return None;
    }
    Some(k)
}

// The point p at the place `at`, where the digit changes from d to e.
fn put_turn(corners: &mut [u32], at: usize, d: u8, e: u8, p: u32) -> usize
    requires { (d ≡ e → ⊥) → at < length corners.old }
    ensures { TurnPut d e p at corners.old corners.new result }
{
    if e == d {
        return at;
    }
    corners[at] = p;
    at + 1
}

// The corners of bytes that lead from the start back to it.
pub(crate) fn write_corners(start: u32, bytes: &[u8], last: u8, corners: &mut [u32]) -> usize
    requires { LeadsBack start bytes.now last × (length (turns last (walk start bytes.now)) ≤ length corners.old) }
    ensures { Put (turns last (walk start bytes.now)) corners.old corners.new result }
{
    let mut p = start;
    let mut d = last;
    let mut at: usize = 0;
    for &b in bytes {
        let e = b - b'0';
        at = put_turn(corners, at, d, e, p);
        p = moved(p, e);
        d = e;
    }
    at
}
