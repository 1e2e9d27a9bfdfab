// The least order of the regions of a block list from the inside out: each region before every region that surrounds it, with the least
// possible number at the first place, then at the second, and so on.
#![tactic(auto)]

ghost use Rattle.answers.specs.Results.{written};
ghost use Rattle.least_order.specs.Counts.{CanCountOne, CountedOne, CanCount, Counted};
ghost use Rattle.least_order.specs.Arranged.{CanRise, Risen, CanPlace, Placed, CanArrange, Arranged};
ghost use Rattle.least_order.specs.Regions.{Arrangeable, OrderWritten};
ghost use Rattle.least_order.specs.Promise.{LeastOrdering};

use answers::Cause;
use parents::find_parents;

// Counts v as a child of its parent, if it has one. The parents stand from `whole` on.
fn count_child(whole: usize, v: usize, work: &mut [u32])
    requires { CanCountOne whole work.old v }
    ensures { CountedOne whole v work.old work.new }
{
    let Some(up) = work[whole + v].checked_sub(1) else {
        return;
    };
    work[up as usize] += 1;
}

// Counts the children of each number below `count` in the front of the work list.
fn count_children(whole: usize, count: usize, work: &mut [u32])
    requires { CanCount whole count work.old }
    ensures { Counted whole count work.old work.new }
{
    for v in 0..count {
        count_child(whole, v, work);
    }
}

// Writes v at the place `at` of the order, and the way up from it: one child fewer of its parent is missing, and where none is, the parent
// follows. Gives the place after what is written.
fn rise(whole: usize, v: usize, at: usize, work: &mut [u32], order: &mut [u32]) -> usize
    requires { CanRise whole v at work.old order.old }
    ensures { Risen whole v at work.old order.old work.new order.new result }
{
    let mut u = v;
    let mut k = at;
    loop {
        order[k] = u as u32;
        k += 1;
        let Some(up) = work[whole + u].checked_sub(1) else {
            return k;
        };
        let p = up as usize;
        work[p] -= 1;
        if work[p] != 0 {
            return k;
        }
        u = p;
    }
}

// Writes v and the way up from it, if no child of v is missing.
fn place(whole: usize, v: usize, at: usize, work: &mut [u32], order: &mut [u32]) -> usize
    requires { CanPlace whole v at work.old order.old }
    ensures { Placed whole v at work.old order.old work.new order.new result }
{
    if work[v] != 0 {
        return at;
    }
    rise(whole, v, at, work, order)
}

// Writes the least order of the numbers below `count`.
fn place_all(whole: usize, count: usize, work: &mut [u32], order: &mut [u32])
    requires { CanArrange whole count work.old order.old }
    ensures { Arranged whole count work.old order.old work.new order.new }
{
    let mut at = 0;
    for v in 0..count {
        at = place(whole, v, at, work, order);
    }
}

// Writes the least order of the regions, `count` in number. The work list is left as it was.
fn arrange(
    n: u32,
    count: usize,
    codes: &[u32],
    levels: &[u8],
    labels: &[u32],
    work: &mut [u32],
    order: &mut [u32],
)
    requires { Arrangeable n count codes.now levels.now labels.now work.old order.old }
    ensures { OrderWritten n count codes.now levels.now labels.now
        work.old order.old work.new order.new }
{
    let whole = location::pixels(n);
    find_parents(n, count, codes, levels, labels, work);
    count_children(whole, count, work);
    place_all(whole, count, work, order);
    filling::fill(work, 0, whole + count, 0);
}

// Writes the least order of the regions from the inside out, and gives how many these are.
pub fn least_order(
    n: u32,
    codes: &[u32],
    levels: &[u8],
    colours: &[u16],
    labels: &mut [u32],
    work: &mut [u32],
    order: &mut [u32],
) -> Result<u32, Cause>
    ensures { LeastOrdering n codes.now levels.now colours.now
        labels.old work.old order.old labels.new work.new order.new (written result) }
{
    if order.len() < codes.len() {
        blocks::check(n, codes, levels, colours)?;
        return Err(Cause::ListTooShort);
    }
    let count = regions::number(n, codes, levels, colours, labels, work)?;
    arrange(n, count as usize, codes, levels, labels, work, order);
    Ok(count)
}
