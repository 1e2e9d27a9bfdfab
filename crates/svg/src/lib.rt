// One outline as SVG path data (document 01, "Path, chain and picture").
#![tactic(auto)]

ghost use Rattle.answers.specs.Results.{written};
ghost use Rattle.svg.specs.Svg.{Svg};

use answers::Cause;

mod text;

// The SVG path data of one cycle form: refused if the corners are none, then if the text is below the need of 9 plus 4 a corner.
pub fn svg(corners: &[u32], text: &mut [u8]) -> Result<u32, Cause>
    ensures { Svg corners.now text.old text.new (written result) }
{
    if !forms::cycle_form(corners) {
        return Err(Cause::NotCycleForm);
    }
    if text.len() < 9 + 4 * corners.len() {
        return Err(Cause::ListTooShort);
    }
    let n = text::write_path(corners, text);
    Ok(n as u32)
}
