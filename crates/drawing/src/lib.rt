// From a raster to the lines of its outlines, with all lists of the way in local arrays.
#![tactic(auto)]

ghost use Rattle.std.specs.Prelude.{◌≡◌};
ghost use Rattle.quadtree.specs.Blocks.{blocks, paint};
ghost use Rattle.quadtree.specs.Raster.{in_code_order};
ghost use Rattle.answers.specs.Put.{Put};
ghost use Rattle.tracing.specs.Results.{traced};
ghost use Rattle.drawing.specs.Outlines.{image_text};
ghost use Rattle.drawing.specs.Picturing.{RasterFits, Traceable};

use answers::Cause;
use tracing::Listed;

// How many cycles were listed, none on a refusal.
fn cycles_of(outcome: Result<Listed, Cause>) -> u32
    ensures { result ≡ (traced outcome).cycles }
{
    match outcome {
        Ok(listed) => listed.cycles,
        Err(_) => 0,
    }
}

// The lines of an accepted block list, which the tracing does not refuse.
fn write_outlines(n: u32, codes: &[u32], levels: &[u8], colours: &[u16], text: &mut [u8]) -> usize
    requires { Traceable n codes.now levels.now colours.now text.old }
    ensures { Put (image_text n (paint (blocks codes.now levels.now colours.now)))
        text.old text.new result }
{
    let mut labels = [0u32; 4096];
    let mut work = [0u32; 8192];
    let mut owners = [0u32; 4096];
    let mut ends = [0u32; 4096];
    let mut corners = [0u32; 16384];
    let mut areas = [0i32; 4096];
    let traced = tracing::trace(
        n,
        codes,
        levels,
        colours,
        &mut labels,
        &mut work,
        &mut owners,
        &mut ends,
        &mut corners,
        &mut areas,
    );
    let cycles = cycles_of(traced);
    lines::write(&owners, &ends, &corners, cycles, text)
}

// The lines of a raster: it is merged to blocks, which the lists always take, and their outlines are written.
pub fn write_picture(n: u32, raster: &[u16], text: &mut [u8]) -> usize
    requires { RasterFits n raster.now text.old }
    ensures { Put (image_text n (in_code_order n raster.now)) text.old text.new result }
{
    let mut codes = [0u32; 4096];
    let mut levels = [0u8; 4096];
    let mut colours = [0u16; 4096];
    let merged = merging::from_raster(n, raster, &mut codes, &mut levels, &mut colours);
    let count = merged.unwrap_or(0) as usize;
    write_outlines(
        n,
        &codes[..count],
        &levels[..count],
        &colours[..count],
        text,
    )
}
