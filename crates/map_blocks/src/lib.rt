// The block list of a map of regions with a colour for each. The pixels come by squares of side 2 in code order: a square of one colour goes
// to the run that is pending; any other ends the run and is four blocks of one pixel.
#![tactic(auto)]

ghost use Rattle.std.specs.Prelude.{◌≡◌, ◌+◌, ◌-◌, ◌%◌, ◌≤◌, ◌<◌, length, get_or};
ghost use Rattle.quadtree.specs.BlockLists.{list_of};
ghost use Rattle.runs.specs.Stored.{stored};
ghost use Rattle.appending.specs.Progress.{AllWritten};
ghost use Rattle.steps.specs.Look.{mark_bit};
ghost use Rattle.cycles.specs.Mapped.{nums_of};
ghost use Rattle.given_outlines.specs.Given.{coloured};
ghost use Rattle.map_blocks.specs.Fours.{HasFour, one_colour, pixel_blocks};
ghost use Rattle.map_blocks.specs.Pixels.{PixelsFit};
ghost use Rattle.map_blocks.specs.Appended.{FourNext, FourAppended};
ghost use Rattle.map_blocks.specs.Painting.{Paintable, FourPainted};

use appending::{Pending, append, write_run};
use steps::MARK_BIT;

// The colour of an entry of the map: that of its number, whether it bears a mark or not.
fn colour_of(region_colours: &[u16], entry: u32) -> u16
    requires { (0 < entry % mark_bit) × (entry % mark_bit ≤ length region_colours.now) }
    ensures { result ≡ get_or region_colours.now (entry % mark_bit - 1) 0 }
{
    region_colours[(entry % MARK_BIT) as usize - 1]
}

// The colours of the four pixels from the code c on, the square of side 2 at its place.
fn four_colours(n: u32, map: &[u32], region_colours: &[u16], c: u32) -> [u16; 4]
    requires { FourPainted n map.now region_colours.now c }
    ensures { HasFour (coloured region_colours.now (nums_of n map.now)) c result }
{
    let w = location::side(n);
    let at = location::place(n, c);
    let nw = colour_of(region_colours, map[at]);
    let ne = colour_of(region_colours, map[at + 1]);
    let sw = colour_of(region_colours, map[at + w]);
    let se = colour_of(region_colours, map[at + w + 1]);
    [nw, ne, sw, se]
}

// Whether four pixels have one colour.
fn one_colour(four: &[u16; 4]) -> bool
    ensures { result ≡ one_colour four.now }
{
    if four[1] != four[0] {
        return false;
    }
    if four[2] != four[0] {
        return false;
    }
    four[3] == four[0]
}

// Writes four pixels from the code `code` on as blocks, from the place `at` on.
fn write_pixels(
    four: &[u16; 4],
    code: usize,
    at: usize,
    codes: &mut [u32],
    levels: &mut [u8],
    colours: &mut [u16],
)
    requires { PixelsFit code at (list_of codes.old levels.old colours.old) }
    ensures { list_of codes.new levels.new colours.new
        ≡ stored at (pixel_blocks four.now code 4) (list_of codes.old levels.old colours.old) }
{
    let mut i: usize = 0;
    while i < 4 {
        codes[at + i] = (code + i) as u32;
        levels[at + i] = 0;
        colours[at + i] = four[i];
        i += 1;
    }
}

// Appends the four pixels after the pending run: a piece where they have one colour; else the run is written, each of them is a block, and an
// empty run is pending, whose colour is free.
fn append_four(
    n: u32,
    pending: Pending,
    four: &[u16; 4],
    codes: &mut [u32],
    levels: &mut [u8],
    colours: &mut [u16],
) -> Pending
    requires { FourNext n pending (list_of codes.old levels.old colours.old) }
    ensures { FourAppended n pending four.now
        (list_of codes.old levels.old colours.old)
        (list_of codes.new levels.new colours.new) result }
{
    if one_colour(four) {
        return append(n, pending, 4, four[0], codes, levels, colours);
    }
    let code = pending.to;
    let count = write_run(n, pending, codes, levels, colours);
    write_pixels(four, code, count, codes, levels, colours);
    Pending {
        from: code + 4,
        to: code + 4,
        colour: four[3],
        count: count + 4,
    }
}

// Writes the block list of the image in which each pixel has the colour of its number in the map, and gives the number of blocks. The only
// pixel of an image without a square of side 2 is pending from the beginning.
pub fn write_blocks(
    n: u32,
    map: &[u32],
    region_colours: &[u16],
    codes: &mut [u32],
    levels: &mut [u8],
    colours: &mut [u16],
) -> usize
    requires { Paintable n map.now region_colours.now (list_of codes.old levels.old colours.old) }
    ensures { AllWritten n (coloured region_colours.now (nums_of n map.now))
        (list_of codes.old levels.old colours.old)
        (list_of codes.new levels.new colours.new) result }
{
    let whole = location::pixels(n);
    let mut pending = Pending {
        from: 0,
        to: whole % 4,
        colour: colour_of(region_colours, map[0]),
        count: 0,
    };
    while pending.to < whole {
        let four = four_colours(n, map, region_colours, pending.to as u32);
        pending = append_four(n, pending, &four, codes, levels, colours);
    }
    write_run(n, pending, codes, levels, colours)
}
