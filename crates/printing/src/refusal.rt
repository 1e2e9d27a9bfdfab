// The line of a refusal.
ghost use Rattle.std.specs.Prelude.{◌≤◌, ◌<◌, Err};
ghost use Rattle.answers.specs.Causes.{number_of};
ghost use Rattle.printing.specs.Printed.{Refusing};
ghost use Rattle.printing.specs.Results.{told};

use crate::Refused;
use answers::Cause;

// "refused ", a number of two digits and LF, where the text has room for them.
pub(crate) fn refuse(cause: Cause, text: &mut [u8]) -> Refused
    requires { (10 ≤ number_of cause) × (number_of cause < 100) }
    ensures { Refusing (number_of cause) text.old text.new (told (Err result)) }
{
    if text.len() < 11 {
        return Refused { cause, count: 0 };
    }
    let number = u32::from(cause);
    text[..8].copy_from_slice(b"refused ");
    text[8] = b'0' + ((number / 10) as u8);
    text[9] = b'0' + ((number % 10) as u8);
    text[10] = b'\n';
    Refused { cause, count: 11 }
}
