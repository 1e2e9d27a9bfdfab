// The reader of binary PGM (Netpbm, magic P5): the causes 10 to 14 and 8, and the samples stored in a lent raster.
#![tactic(auto)]

mod samples;
mod shape;

ghost use Rattle.std.specs.Prelude.{◌≡◌};
ghost use Rattle.pgm.specs.Picture.{judged, said};
ghost use Rattle.pgm.specs.Reading.{Answered, Reading};
ghost use Rattle.pgm.specs.Results.{picture};

use answers::Cause;
use headers::Header;
use shape::Shape;

// A picture that was read: its n, its maxval and how many samples were stored.
#[derive(Clone, Copy, Debug, PartialEq, Eq)]
pub struct Stored {
    pub n: u32,
    pub maxval: u32,
    pub count: u32,
}

// The same for C: number 0 with n, maxval and the count; or the number of a refusal with zeros.
#[repr(C)]
#[derive(Clone, Copy)]
pub struct Picture {
    pub number: u32,
    pub n: u32,
    pub maxval: u32,
    pub count: u32,
}

impl From<Result<Stored, Cause>> for Picture {
    ghost from_gives = { λ outcome answer. answer ≡ picture outcome };

    fn from(outcome: Result<Stored, Cause>) -> Picture {
        match outcome {
            Ok(stored) => Picture {
                number: 0,
                n: stored.n,
                maxval: stored.maxval,
                count: stored.count,
            },
            Err(cause) => Picture {
                number: u32::from(cause),
                n: 0,
                maxval: 0,
                count: 0,
            },
        }
    }
}

// The causes 11 to 14, in rising order, then 8, of a picture whose header is followed by these bytes; where none applies its
// samples are stored.
fn judge(
    bytes: &[u8],
    width: u32,
    height: u32,
    maxval: u32,
    raster: &mut [u16],
) -> Result<Stored, Cause>
    ensures { Answered (said (judged (record { width = width; height = height; maxval = maxval }) bytes.now)) raster.old raster.new (picture result) }
{
    let Shape { n, count, wide } = shape::shape_of(width, height, maxval, bytes.len())?;
    if samples::any_above(bytes, wide, count, maxval as u16) {
        return Err(Cause::SampleAboveMaxval);
    }
    if raster.len() < count {
        return Err(Cause::ListTooShort);
    }
    samples::store(bytes, wide, count, raster);
    Ok(Stored {
        n,
        maxval,
        count: count as u32,
    })
}

// Reads a picture into the raster, which needs 4^n entries: 10 to 14, then 8.
pub fn read(bytes: &[u8], raster: &mut [u16]) -> Result<Stored, Cause>
    ensures { Reading bytes.now raster.old bytes.now raster.new (picture result) }
{
    let Some(header) = headers::parse(bytes) else {
        return Err(Cause::HeaderMalformed);
    };
    let Header {
        width,
        height,
        maxval,
        raster: rest,
    } = header;
    judge(&bytes[rest.at..], width, height, maxval, raster)
}
