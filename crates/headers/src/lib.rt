// The header of a PGM file: a cursor by value goes through the bytes, and a step gives it back past its part, or none.
#![tactic(auto)]

mod number;
mod space;
mod step;

ghost use Rattle.std.specs.Prelude.{drop};
ghost use Rattle.headers.specs.Header.{magic, field, header};
ghost use Rattle.headers.specs.Steps.{Passes, Numbers, Heads};

pub use step::Cursor;

// A whole header, and the place of the raster.
#[derive(Clone, Copy, Debug, PartialEq, Eq)]
pub struct Header {
    pub width: u32,
    pub height: u32,
    pub maxval: u32,
    pub raster: Cursor,
}

// P and 5.
fn magic(bytes: &[u8]) -> Option<Cursor>
    ensures { Passes bytes.now (magic bytes.now) result }
{
    let c = step::exact(bytes, Cursor { at: 0 }, b'P')?;
    step::exact(bytes, c, b'5')
}

// White space, then a number.
fn field(bytes: &[u8], c: Cursor) -> Option<(u32, Cursor)>
    ensures { Numbers bytes.now (field (drop c.at bytes.now)) result }
{
    let next = space::spaces(bytes, c)?;
    number::parse(bytes, next)
}

// The whole header.
pub fn parse(bytes: &[u8]) -> Option<Header>
    ensures { Heads bytes.now (header bytes.now) result }
{
    let c = magic(bytes)?;
    let (width, d) = field(bytes, c)?;
    let (height, e) = field(bytes, d)?;
    let (maxval, f) = field(bytes, e)?;
    let raster = space::space(bytes, f)?;
    Some(Header {
        width,
        height,
        maxval,
        raster,
    })
}
