// Pieces of an image appended in code order. One run of one colour is pending; when it ends it is written as its squares, each entry
// once.
#![tactic(auto)]

ghost use Rattle.std.specs.Prelude.{◌≡◌};
ghost use Rattle.runs.specs.Squares.{level_in};
ghost use Rattle.runs.specs.Runs.{piece};
ghost use Rattle.quadtree.specs.BlockLists.{list_of};
ghost use Rattle.appending.specs.Levels.{RunIn};
ghost use Rattle.appending.specs.Appended.{Writable, RunWritten, Appendable, Appended};

// The pending run, whose pixels have the codes from `from` to before `to`, and how many blocks are written before it.
#[derive(Clone, Copy)]
pub struct Pending {
    pub from: usize,
    pub to: usize,
    pub colour: u16,
    pub count: usize,
}

// The level of the largest square that may begin at the code `from` and does not pass the code `to`. Up to three pixels have room for
// single ones only.
fn level_in(n: u32, from: usize, to: usize) -> u32
    requires { RunIn n from to }
    ensures { result ≡ level_in n from to }
{
    if to - from < 4 {
        return 0;
    }
    let mut level = location::top_level(n, from as u32);
    while to < from + location::pixels(level) {
        level -= 1;
    }
    level
}

// Writes the squares of the pending run after the blocks that are written, and returns how many blocks there are then. The step is each
// square's size, so the code is counted by hand.
pub fn write_run(
    n: u32,
    pending: Pending,
    codes: &mut [u32],
    levels: &mut [u8],
    colours: &mut [u16],
) -> usize
    requires { Writable n pending (list_of codes.old levels.old colours.old) }
    ensures { RunWritten n pending
        (list_of codes.old levels.old colours.old)
        (list_of codes.new levels.new colours.new) result }
{
    let mut at = pending.count;
    let mut code = pending.from;
    while code < pending.to {
        let level = level_in(n, code, pending.to);
        codes[at] = code as u32;
        levels[at] = level as u8;
        colours[at] = pending.colour;
        at += 1;
        code += location::pixels(level);
    }
    at
}

// One piece more, of so many pixels: the run goes on, or it is written and the piece begins another.
pub fn append(
    n: u32,
    pending: Pending,
    size: usize,
    colour: u16,
    codes: &mut [u32],
    levels: &mut [u8],
    colours: &mut [u16],
) -> Pending
    requires { Appendable n pending size (list_of codes.old levels.old colours.old) }
    ensures { Appended n pending (piece size colour)
        (list_of codes.old levels.old colours.old)
        (list_of codes.new levels.new colours.new) result }
{
    if colour == pending.colour {
        return Pending {
            to: pending.to + size,
            ..pending
        };
    }
    let count = write_run(n, pending, codes, levels, colours);
    Pending {
        from: pending.to,
        to: pending.to + size,
        colour,
        count,
    }
}
