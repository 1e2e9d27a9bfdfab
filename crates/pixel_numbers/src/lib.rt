// Whether the numbers that a map holds are the region numbers of an image, pixel by pixel: neighbours of one colour are joined, and the
// roots, numbered from the front, are compared with the map.
#![tactic(auto)]

ghost use Rattle.std.specs.Prelude.{◌≡◌, true, ◌↔◌, ◌-◌, get_or};
ghost use Rattle.interleaving.specs.Codes.{code};
ghost use Rattle.cycles.specs.Mapped.{nums_of};
ghost use Rattle.pixel_numbers.specs.Promise.{map_image, Comparable, NumbersCompared};
ghost use Rattle.pixel_numbers.specs.Parents.{parents_of};
ghost use Rattle.pixel_numbers.specs.Neighbours.{PixelAt, PairNext, PairJoined, PixelNext, PixelJoined};
ghost use Rattle.pixel_numbers.specs.Pixels.{AllNext, AllJoined};
ghost use Rattle.pixel_numbers.specs.Comparing.{Numbered};

use interleaving::{Spreads, code8, column8, row8};
use location::table::spreads;

// The colour of the pixel (x, y): that of its number.
fn colour_at(n: u32, colours: &[u16], work: &[u32], x: usize, y: usize) -> u16
    requires { PixelAt n colours.now work.now x y }
    ensures { result ≡ get_or (map_image n colours.now work.now) (code n x y) 0 }
{
    let number = work[y * location::side(n) + x] - 1;
    colours[number as usize]
}

// Joins the pixel c, which has the colour `own`, with the pixel (x, y) if that has it too.
fn join_alike(
    n: u32,
    table: &Spreads,
    colours: &[u16],
    work: &mut [u32],
    c: u32,
    own: u16,
    x: usize,
    y: usize,
)
    requires { PairNext n colours.now work.old c own x y }
    ensures { PairJoined n colours.now work.old c (code n x y) work.new }
{
    if colour_at(n, colours, work, x, y) == own {
        let whole = location::pixels(n);
        unionfind::join(&mut work[whole..2 * whole], c, code8(table, x, y));
    }
}

// Joins the pixel c with its north and its west neighbour, where these have its colour. A pixel at the image's edge is taken for its own
// neighbour.
fn join_pixel(n: u32, table: &Spreads, colours: &[u16], work: &mut [u32], c: u32)
    requires { PixelNext n colours.now work.old c }
    ensures { PixelJoined n colours.now work.old c work.new }
{
    let x = column8(c) as usize;
    let y = row8(c) as usize;
    let own = colour_at(n, colours, work, x, y);
    join_alike(n, table, colours, work, c, own, x, y.saturating_sub(1));
    join_alike(n, table, colours, work, c, own, x.saturating_sub(1), y);
}

// Joins all pixels with their neighbours of one colour, in rising location code.
fn join_pixels(n: u32, colours: &[u16], work: &mut [u32])
    requires { AllNext n colours.now work.old }
    ensures { AllJoined n colours.now work.old work.new }
{
    let end = location::pixels(n) as u32;
    let table = spreads();
    for c in 0..end {
        join_pixel(n, &table, colours, work, c);
    }
}

// Whether the numbers in the place of the parents are those of the map.
fn same_numbers(n: u32, work: &[u32]) -> bool
    requires { Numbered n work.now }
    ensures { (result ≡ true) ↔ (parents_of n work.now ≡ nums_of n work.now) }
{
    let whole = location::pixels(n);
    for c in 0..whole {
        if work[whole + c] != work[location::place(n, c as u32)] - 1 {
            return false;
        }
    }
    true
}

// Whether the numbers of the map at the front of the work list are the region numbers of the image in which each pixel has the colour of
// its number, and there are as many regions as colours. Uses the next 4^n entries; what these hold then is free.
pub fn numbers_agree(n: u32, colours: &[u16], work: &mut [u32]) -> bool
    requires { Comparable n colours.now work.old }
    ensures { NumbersCompared n colours.now work.old work.new result }
{
    let whole = location::pixels(n);
    unionfind::own_parents(&mut work[whole..2 * whole]);
    join_pixels(n, colours, work);
    let count = unionfind::number_all(&mut work[whole..2 * whole]);
    if count as usize != colours.len() {
        return false;
    }
    same_numbers(n, work)
}
