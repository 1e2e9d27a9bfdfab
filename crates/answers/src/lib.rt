// Why a call is refused, and what a writer of one lent list answers C.
#![tactic(auto)]

mod cause;

ghost use Rattle.answers.specs.Results.{written};
ghost use Rattle.std.specs.Prelude.{◌≡◌};

pub use cause::Cause;

// The number of a cause and 0, or 0 and how many entries were written.
#[repr(C)]
#[derive(Clone, Copy)]
pub struct Written {
    pub number: u32,
    pub count: u32,
}

impl From<Result<u32, Cause>> for Written {
    ghost from_gives = { λ outcome answer. answer ≡ written outcome };

    fn from(outcome: Result<u32, Cause>) -> Written {
        match outcome {
            Ok(count) => Written { number: 0, count },
            Err(cause) => Written {
                number: u32::from(cause),
                count: 0,
            },
        }
    }
}
