// Whether an order of the regions of a block list goes from the inside out: each surrounded region before each region that surrounds it.
#![tactic(auto)]

ghost use Rattle.std.specs.Prelude.{◌≡◌, length};
ghost use Rattle.answers.specs.Results.{said};
ghost use Rattle.forests.specs.Checking.{is_each_once};
ghost use Rattle.order_check.specs.Along.{Blank, NewMarked, Families, parent_marked, NumberOf, LaterMarked};
ghost use Rattle.order_check.specs.Regions.{Orderable, Judged};
ghost use Rattle.order_check.specs.Promise.{OrderCheck};

use answers::Cause;
use parents::find_parents;

// Goes along the order and marks each number in the front of the work list, as long as it is below the order's length and new; whether all
// are.
fn all_new(order: &[u32], work: &mut [u32]) -> bool
    requires { Blank (length order.now) work.old }
    ensures { NewMarked order.now work.old work.new result }
{
    for &number in order {
        let v = number as usize;
        if order.len() <= v {
            return false;
        }
        if work[v] != 0 {
            return false;
        }
        work[v] = 1;
    }
    true
}

// Whether the order is every number below `count` once. The work list is left as it was.
fn each_once(count: usize, order: &[u32], work: &mut [u32]) -> bool
    requires { Blank count work.old }
    ensures { (result ≡ is_each_once count order.now) × (work.new ≡ work.old) }
{
    if order.len() != count {
        return false;
    }
    let new = all_new(order, work);
    filling::fill(work, 0, count, 0);
    new
}

// Whether the parent of v is marked. The parents stand from `whole` on.
fn parent_marked(whole: usize, work: &[u32], v: usize) -> bool
    requires { NumberOf whole work.now v }
    ensures { result ≡ parent_marked whole work.now v }
{
    let Some(up) = work[whole + v].checked_sub(1) else {
        return false;
    };
    work[up as usize] != 0
}

// Goes along the order and marks each number, as long as its parent is not marked; whether none is.
fn parents_last(whole: usize, order: &[u32], work: &mut [u32]) -> bool
    requires { Families whole order.now work.old }
    ensures { LaterMarked whole order.now work.old work.new result }
{
    for &region in order {
        let v = region as usize;
        if parent_marked(whole, work, v) {
            return false;
        }
        work[v] = 1;
    }
    true
}

// Whether the order, every region once, goes from the inside out. The work list is left as it was.
fn inside_out(
    n: u32,
    codes: &[u32],
    levels: &[u8],
    labels: &[u32],
    order: &[u32],
    work: &mut [u32],
) -> bool
    requires { Orderable n codes.now levels.now labels.now order.now work.old }
    ensures { Judged n codes.now levels.now labels.now order.now
        work.old work.new result }
{
    let count = order.len();
    let whole = location::pixels(n);
    find_parents(n, count, codes, levels, labels, work);
    let right = parents_last(whole, order, work);
    filling::fill(work, 0, whole + count, 0);
    right
}

// Why an order is refused, if it is: it has to be every region once, each surrounded region before each that surrounds it.
pub fn check_order(
    n: u32,
    codes: &[u32],
    levels: &[u8],
    colours: &[u16],
    order: &[u32],
    labels: &mut [u32],
    work: &mut [u32],
) -> Result<(), Cause>
    ensures { OrderCheck n codes.now levels.now colours.now order.now
        labels.old work.old labels.new work.new (said result) }
{
    let count = regions::number(n, codes, levels, colours, labels, work)?;
    if !each_once(count as usize, order, work) {
        return Err(Cause::NotEachRegionOnce);
    }
    if !inside_out(n, codes, levels, labels, order, work) {
        return Err(Cause::NotInsideOut);
    }
    Ok(())
}
