// Location codes and levels: the arithmetic of section 2's quadrants, below everything that knows blocks.
#![tactic(auto)]

pub mod table;

ghost use Rattle.std.specs.Prelude.{◌≡◌};
ghost use Rattle.interleaving.specs.Codes.{code, column, row};
ghost use Rattle.location.specs.Levels.{side_of, pixels_of, alignment, top_level};
ghost use Rattle.location.specs.Places.{place_of};

use interleaving::{code_by_table, column8, row8};
use table::spreads;

// The location code of the pixel (x, y).
pub fn code(x: u16, y: u16) -> u32
    ensures { result ≡ code 16 x y }
{
    let table = spreads();
    code_by_table(&table, x, y)
}

// x of the pixel with code c.
pub fn column(c: u32) -> u16
    ensures { result ≡ column 16 c }
{
    if c < 65536 {
        return column8(c) as u16;
    }
    (column8(c) + 256 * column8(c / 65536)) as u16
}

// y of the pixel with code c. One function for both would take column8 or row8 as a closure, with a contract for each: no shorter.
pub fn row(c: u32) -> u16
    ensures { result ≡ row 16 c }
{
    if c < 65536 {
        return row8(c) as u16;
    }
    (row8(c) + 256 * row8(c / 65536)) as u16
}

// The side of a block of level l; 0 where it is above 64 bits, as the promise `side_of` says.
pub fn side(l: u32) -> usize
    ensures { result ≡ side_of l }
{
    if l < 64 { 1usize << l } else { 0 }
}

// The number of pixels of a block of level l; 0 where it is above 64 bits, as the promise `pixels_of` says.
pub fn pixels(l: u32) -> usize
    ensures { result ≡ pixels_of l }
{
    if l < 32 { 1usize << (2 * l) } else { 0 }
}

// The place of the pixel with code c in a raster of side 2^n, row by row; 0 where n is above the 16 digits that a code has of each, as the
// promise `place_of` says.
pub fn place(n: u32, c: u32) -> usize
    ensures { result ≡ place_of n c }
{
    if 16 < n {
        return 0;
    }
    let x = column(c) as usize;
    let y = row(c) as usize;
    y * side(n) + x
}

// The largest level l of which the code c is a multiple of 4^l: half the zeros that end it, rounded down; 16 for code 0.
pub fn alignment(c: u32) -> u32
    ensures { result ≡ alignment c }
{
    c.trailing_zeros() / 2
}

// The largest level of a block at code c, in an image of side 2^n: "half their number, rounded down, and n for code 0". The half is
// written out: behind a call the compiler would work it out for code 0 too.
pub fn top_level(n: u32, c: u32) -> u32
    ensures { result ≡ top_level n c }
{
    if c == 0 {
        return n;
    }
    let zeros = c.trailing_zeros();
    zeros / 2
}
