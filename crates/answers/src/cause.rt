// The causes of a refusal, in the order of their numbers.
ghost use Rattle.std.specs.Prelude.{◌≡◌};
ghost use Rattle.answers.specs.Causes.{number_of};

// Each cause has a number of its own, from 1 on.
#[derive(Clone, Copy, Debug, PartialEq, Eq)]
pub enum Cause {
    // N is above 8.
    SideTooLarge = 1,
    // Codes, levels and colours differ in length.
    LengthsDiffer,
    // A level is above n.
    LevelAboveSide,
    // A code is not the number of pixels covered before it, or all are covered already.
    CodeNotNext,
    // A code is not a multiple of 4^level.
    CodeNotAligned,
    // Fewer than 4^n pixels are covered.
    PixelsMissing,
    // Four siblings have one colour.
    SiblingsAlike,
    // A lent list is shorter than its need.
    ListTooShort,
    // A raster has not 4^n entries.
    RasterLengthWrong,
    // The header of a PGM file is none.
    HeaderMalformed,
    // Width and height are not equal, or no power of two from 1 to 256.
    SidesUnfit,
    // Maxval is not 1 to 65,535.
    MaxvalOutOfRange,
    // The bytes behind a header are not those of its samples.
    BytesNotSamples,
    // A sample is above maxval.
    SampleAboveMaxval,
    // The input of a program is above its limit.
    InputTooLong,
    // Corners are not a cycle form.
    NotCycleForm,
    // A chain is not that of a cycle form.
    NotChain,
    // No image has these outlines and colours.
    NoImage,
    // An order is not every region once.
    NotEachRegionOnce,
    // A region stands before one that it surrounds.
    NotInsideOut,
    // X or y is not below 2^n.
    OutsideImage,
    // A cycle is not below the count.
    NoSuchCycle,
    // A cycle is open already.
    AlreadyOpen,
    // Eight outlines are open.
    EightOpen,
}

// The number of a cause.
impl From<Cause> for u32 {
    ghost from_gives = { λ cause number. number ≡ number_of cause };

    fn from(cause: Cause) -> u32 {
        cause as u32
    }
}
