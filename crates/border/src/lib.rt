// The walk over the blocks with the border between done and not done: in the first 2^n entries of the work list the last
// block done in each column, in the next 2^n the last block done in each row.
#![tactic(auto)]

ghost use Rattle.std.specs.Prelude.{◌≡◌, ◌+◌};
ghost use Rattle.sequences.specs.Fill.{fill};
ghost use Rattle.unions.specs.Roots.{root};
ghost use Rattle.unions.specs.Joining.{Forest};
ghost use Rattle.components.specs.Spans.{join_if_alike};
ghost use Rattle.border.specs.BorderSpans.{Joinable, BorderSpan, SpanJoined, BorderSpans, SpansJoined};
ghost use Rattle.border.specs.Walk.{Walkable, Walked, Storable};

// Joins the blocks b and k if their colours are equal. Where b is `last` that is done already.
fn join_alike(colours: &[u16], parents: &mut [u32], last: u32, b: u32, k: u32)
    requires { Joinable colours.now parents.old last b k }
    ensures { Forest parents.old (join_if_alike colours.now (root parents.old) b k) parents.new }
{
    if b == last {
        return;
    }
    if colours[b as usize] == colours[k as usize] {
        unionfind::join(parents, b, k);
    }
}

// Joins the block k with each block of its colour that the s entries from `from` on name; with none where z is 0: there the block
// begins at the image's edge. A neighbour that fills several entries is joined once.
fn join_span(
    z: usize,
    entries: &[u32],
    from: usize,
    s: usize,
    colours: &[u16],
    k: u32,
    parents: &mut [u32],
)
    requires { BorderSpan z entries.now from s colours.now k parents.old }
    ensures { SpanJoined z entries.now from s colours.now k parents.old parents.new }
{
    if z == 0 {
        return;
    }
    let mut last = k;
    for x in from..from + s {
        let b = entries[x];
        join_alike(colours, parents, last, b, k);
        last = b;
    }
}

// The same for a single pixel, whose one neighbour the entry `at` names: no loop.
fn join_one(z: usize, entries: &[u32], at: usize, colours: &[u16], k: u32, parents: &mut [u32])
    requires { BorderSpan z entries.now at 1 colours.now k parents.old }
    ensures { SpanJoined z entries.now at 1 colours.now k parents.old parents.new }
{
    if z != 0 {
        let b = entries[at];
        join_alike(colours, parents, k, b, k);
    }
}

// Joins the block k, of side s at (x, y) in an image of side w, with all its neighbours of its colour in the north and in the west.
// In a busy picture most blocks are single pixels.
fn join_spans(
    entries: &[u32],
    w: usize,
    x: usize,
    y: usize,
    s: usize,
    colours: &[u16],
    k: u32,
    parents: &mut [u32],
)
    requires { BorderSpans entries.now w x y s colours.now k parents.old }
    ensures { SpansJoined entries.now w x y s colours.now k parents.old parents.new }
{
    if s == 1 {
        join_one(y, entries, x, colours, k, parents);
        join_one(x, entries, w + y, colours, k, parents);
        return;
    }
    join_span(y, entries, x, s, colours, k, parents);
    join_span(x, entries, w + y, s, colours, k, parents);
}

// Stores the block k as the last one in its columns and in its rows; a single pixel without a loop.
fn store(work: &mut [u32], w: usize, x: usize, y: usize, s: usize, k: u32)
    requires { Storable work.old w x y s }
    ensures { work.new ≡ fill (fill work.old x s k) (w + y) s k }
{
    if s == 1 {
        work[x] = k;
        work[w + y] = k;
        return;
    }
    filling::fill(work, x, s, k);
    filling::fill(work, w + y, s, k);
}

// Walks over the blocks in list order, each joined with its neighbours that are done.
pub fn walk(
    n: u32,
    codes: &[u32],
    levels: &[u8],
    colours: &[u16],
    parents: &mut [u32],
    work: &mut [u32],
)
    requires { Walkable n codes.now levels.now colours.now parents.old work.old }
    ensures { Walked n codes.now levels.now colours.now work.old work.new parents.new }
{
    let w = location::side(n);
    for k in 0..codes.len() {
        let x = location::column(codes[k]) as usize;
        let y = location::row(codes[k]) as usize;
        let s = location::side(levels[k] as u32);
        join_spans(work, w, x, y, s, colours, k as u32, parents);
        store(work, w, x, y, s, k as u32);
    }
}
