// A forest as a list of parents, none above its child: each place alone, two places joined, and numbers for the trees, in place of the
// parents.
#![tactic(auto)]

ghost use Rattle.std.specs.Prelude.{◌≡◌, ◌≤◌, ◌<◌, length, get_or};
ghost use Rattle.sequences.specs.Ranges.{range};
ghost use Rattle.unions.specs.Pairs.{pair_of};
ghost use Rattle.unions.specs.Representatives.{join_at};
ghost use Rattle.unions.specs.Counting.{below};
ghost use Rattle.unions.specs.Roots.{Low, root};
ghost use Rattle.unions.specs.Halving.{RootFound};
ghost use Rattle.unions.specs.Joining.{Forest};
ghost use Rattle.unions.specs.RootNumbers.{numbers_below, number_at, next_after};

// Makes each place its own parent.
pub fn own_parents(parents: &mut [u32])
    requires { length parents.old < 65537 }
    ensures { parents.new ≡ range 0 (length parents.old) }
{
    for i in 0..parents.len() {
        parents[i] = i as u32;
    }
}

// The root of i. Each place on the way is hung below its parent's parent.
fn find(parents: &mut [u32], i: u32) -> u32
    requires { (i < length parents.old) × Low parents.old }
    ensures { RootFound parents.old i parents.new result }
{
    let mut at = i;
    loop {
        let up = parents[at as usize];
        if up == at {
            return at;
        }
        let two = parents[up as usize];
        parents[at as usize] = two;
        at = two;
    }
}

// Joins a and b: the larger root is hung below the smaller.
pub fn join(parents: &mut [u32], a: u32, b: u32)
    requires { (a < length parents.old) × (b < length parents.old) × Low parents.old }
    ensures { Forest parents.old (join_at (root parents.old) (pair_of a b)) parents.new }
{
    let ra = find(parents, a);
    let rb = find(parents, b);
    if ra < rb {
        parents[rb as usize] = ra;
        return;
    }
    if rb < ra {
        parents[ra as usize] = rb;
    }
}

// Puts the number of the place i there: the next one at a root, elsewhere what its parent has by now.
fn number_place(labels: &mut [u32], i: usize, next: u32) -> u32
    requires { (i < length labels.old) × (get_or labels.old i 0 < length labels.old) × (next ≤ i) × (length labels.old < 65537) }
    ensures { (result ≡ next_after labels.old i next) × (labels.new ≡ number_at labels.old i next) }
{
    let parent = labels[i] as usize;
    if parent == i {
        labels[i] = next;
        return next + 1;
    }
    labels[i] = labels[parent];
    next
}

// Puts the numbers of the trees in the places of the parents, in one pass from the front, and returns how many there are.
pub fn number_all(labels: &mut [u32]) -> u32
    requires { Low labels.old × (length labels.old < 65537) }
    ensures value { result ≡ below (root labels.old) (length labels.old) }
    ensures labels_after { labels.new ≡ numbers_below (root labels.old) (length labels.old) }
{
    let mut next: u32 = 0;
    for i in 0..labels.len() {
        next = number_place(labels, i, next);
    }
    next
}
