// The lines of a listing: the path data of its cycles, one after the other, with LF after the last of each region.
#![tactic(auto)]

ghost use Rattle.std.specs.Prelude.{◌≡◌, ◌<◌, ◌≤◌, length};
ghost use Rattle.answers.specs.Put.{Put};
ghost use Rattle.lines.specs.Lines.{by_cycles};
ghost use Rattle.held.specs.Held.{cycles_held};
ghost use Rattle.lines.specs.LineEnds.{ends_line};
ghost use Rattle.lines.specs.Writing.{OneCycle, Drawable, cycle_text};

// Whether the cycle k is the last of its region.
fn ends_line(owners: &[u32], cycles: u32, k: u32) -> bool
    requires { (k < cycles) × (cycles ≤ length owners.now) }
    ensures { result ≡ ends_line owners.now cycles k }
{
    let i = k as usize;
    cycles <= k + 1 || owners[i + 1] != owners[i]
}

// The path data of one cycle, which is not refused, and LF after the last of its region.
fn put_cycle(corners: &[u32], last: bool, text: &mut [u8]) -> usize
    requires { OneCycle corners.now text.old }
    ensures { Put (cycle_text corners.now last) text.old text.new result }
{
    let n = svg::svg(corners, text).unwrap_or(0) as usize;
    if last {
        text[n] = b'\n';
        return n + 1;
    }
    n
}

// All cycles that the lists hold.
pub fn write(owners: &[u32], ends: &[u32], corners: &[u32], cycles: u32, text: &mut [u8]) -> usize
    requires { Drawable owners.now ends.now corners.now cycles text.old }
    ensures { Put (by_cycles (cycles_held owners.now ends.now corners.now cycles)) text.old text.new result }
{
    let mut at: usize = 0;
    for k in 0..cycles {
        let part = stretches::cycle(corners, ends, cycles, k);
        let last = ends_line(owners, cycles, k);
        at += put_cycle(part, last, &mut text[at..]);
    }
    at
}
