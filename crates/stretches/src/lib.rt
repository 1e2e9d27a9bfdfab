// The stretch of a corner list that holds one cycle (document 01, "Outlines").
#![tactic(auto)]

ghost use Rattle.std.specs.Prelude.{◌≡◌, ◌<◌, length, unwrap_or};
ghost use Rattle.stretches.specs.Stretch.{Place, Part, begin_of, empty};

// Where a part of a list starts and how long it is.
#[repr(C)]
#[derive(Clone, Copy)]
pub struct Stretch {
    pub start: usize,
    pub length: usize,
}

// Where the stretch of cycle k begins: at the end of cycle k - 1, and at 0 for k = 0.
fn begin(ends: &[u32], k: usize) -> usize
    requires { k < length ends.now }
    ensures { result ≡ begin_of ends.now k }
{
    match k.checked_sub(1) {
        Some(before) => ends[before] as usize,
        None => 0,
    }
}

// The place of the stretch of cycle k, if there is one.
fn place(corners: &[u32], ends: &[u32], count: u32, k: u32) -> Option<Stretch>
    ensures { Place corners.now ends.now count k (unwrap_or result empty) }
{
    if count <= k {
        return None;
    }
    let end = *ends.get(k as usize)? as usize;
    let start = begin(ends, k as usize);
    let length = end.checked_sub(start)?;
    if corners.len() < end {
        return None;
    }
    Some(Stretch { start, length })
}

// The place of the stretch of cycle k, the empty one at 0 where there is none.
pub fn cycle_place(corners: &[u32], ends: &[u32], count: u32, k: u32) -> Stretch
    ensures { Place corners.now ends.now count k result }
{
    place(corners, ends, count, k).unwrap_or(Stretch {
        start: 0,
        length: 0,
    })
}

// The corners of cycle k: the very stretch of the corner list, empty where there is none.
pub fn cycle<'a, 'b>(corners: &'a [u32], ends: &'b [u32], count: u32, k: u32) -> &'a [u32]
    ensures { Part corners.entry ends.now count k result }
{
    let Stretch { start, length } = cycle_place(corners, ends, count, k);
    &corners[start..start + length]
}
