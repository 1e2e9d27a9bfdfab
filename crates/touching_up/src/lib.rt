// One pixel of a block list touched up: the merged list of the image with that pixel alone changed.
#![tactic(auto)]

ghost use Rattle.std.specs.Prelude.{◌≡◌};
ghost use Rattle.answers.specs.Results.{written};
ghost use Rattle.quadtree.specs.BlockLists.{list_of};
ghost use Rattle.touching_up.specs.Promise.{outside, TouchUp};

use answers::Cause;
use pass::repaint;

mod pass;

// Whether x or y is not below the side of an image.
fn outside(side: usize, x: u32, y: u32) -> bool
    ensures { result ≡ outside side x y }
{
    side <= x as usize || side <= y as usize
}

// The block list of the image whose pixel (x, y) has the colour that is given: how many blocks were written.
pub fn touch_up(
    n: u32,
    codes: &[u32],
    levels: &[u8],
    colours: &[u16],
    x: u32,
    y: u32,
    colour: u16,
    new_codes: &mut [u32],
    new_levels: &mut [u8],
    new_colours: &mut [u16],
) -> Result<u32, Cause>
    ensures { TouchUp n
        (list_of codes.now levels.now colours.now) x y colour
        (list_of new_codes.old new_levels.old new_colours.old)
        (list_of new_codes.new new_levels.new new_colours.new) (written result) }
{
    blocks::check(n, codes, levels, colours)?;
    if outside(location::side(n), x, y) {
        return Err(Cause::OutsideImage);
    }
    let whole = location::pixels(n);
    let room = new_codes.len().min(new_levels.len()).min(new_colours.len());
    if room < whole {
        return Err(Cause::ListTooShort);
    }
    let pixel = location::code(x as u16, y as u16) as usize;
    let count = repaint(
        n,
        codes,
        levels,
        colours,
        pixel,
        colour,
        new_codes,
        new_levels,
        new_colours,
    );
    Ok(count as u32)
}
