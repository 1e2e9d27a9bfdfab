// The functions of the libraries under C names, for the tests and for programs in C and Rust (include/nettlestair.h).
// Each hands its arguments on and carries the library's promise.
#![tactic(auto)]

ghost use Rattle.std.specs.Prelude.{◌≡◌};
ghost use Rattle.answers.specs.Results.{said};
ghost use Rattle.interleaving.specs.Codes.{code};
ghost use Rattle.quadtree.specs.Number.{number};
ghost use Rattle.merging.specs.Promise.{FromRaster};
ghost use Rattle.painting.specs.Promise.{ToRaster};
ghost use Rattle.rearranging.specs.Ways.{to_block_order, to_rows};
ghost use Rattle.rearranging.specs.Promise.{Rearranging};
ghost use Rattle.quadtree.specs.BlockLists.{list_of};
ghost use Rattle.overlaying.specs.Promise.{Overlay};
ghost use Rattle.touching_up.specs.Promise.{TouchUp};
ghost use Rattle.regions.specs.Promise.{Numbering};
ghost use Rattle.tracing.specs.Tracing.{lent, Tracing};
ghost use Rattle.order_check.specs.Promise.{OrderCheck};
ghost use Rattle.least_order.specs.Promise.{LeastOrdering};
ghost use Rattle.given_outlines.specs.Given.{outline_lists, given_as};
ghost use Rattle.restoring.specs.Promise.{Restoring};
ghost use Rattle.stretches.specs.Stretch.{Place};
ghost use Rattle.serving.specs.Queue.{lists};
ghost use Rattle.serving.specs.Promise.{Opening, Turning};
ghost use Rattle.svg.specs.Svg.{Svg};
ghost use Rattle.chains.specs.ChainForm.{ChainRead};
ghost use Rattle.pgm.specs.Reading.{Reading};

use answers::{Cause, Written};
use pgm::Picture;
use regions::Numbered;
use serving::{Opened, State, Turned};
use stretches::Stretch;
use tracing::Traced;

// The number of an outcome, 0 for acceptance.
fn number_of(outcome: Result<(), Cause>) -> u32
    ensures { result ≡ said outcome }
{
    match outcome {
        Ok(()) => 0,
        Err(cause) => u32::from(cause),
    }
}

#[unsafe(no_mangle)]
pub extern "C" fn nettlestair_code(x: u16, y: u16) -> u32
    ensures { result ≡ code 16 x y }
{
    location::code(x, y)
}

#[unsafe(no_mangle)]
pub extern "C" fn nettlestair_check(n: u32, codes: &[u32], levels: &[u8], colours: &[u16]) -> u32
    ensures { result ≡ number n codes.now levels.now colours.now }
{
    number_of(blocks::check(n, codes, levels, colours))
}

#[unsafe(no_mangle)]
pub extern "C" fn nettlestair_blocks_from_raster(
    n: u32,
    raster: &[u16],
    codes: &mut [u32],
    levels: &mut [u8],
    colours: &mut [u16],
) -> Written
    ensures { FromRaster n raster.now
        codes.old levels.old colours.old
        codes.new levels.new colours.new
        result }
{
    let merged = merging::from_raster(n, raster, codes, levels, colours);
    Written::from(merged)
}

#[unsafe(no_mangle)]
pub extern "C" fn nettlestair_raster_from_blocks(
    n: u32,
    codes: &[u32],
    levels: &[u8],
    colours: &[u16],
    raster: &mut [u16],
) -> Written
    ensures { ToRaster n codes.now levels.now colours.now
        raster.old raster.new
        result }
{
    let painted = painting::to_raster(n, codes, levels, colours, raster);
    Written::from(painted)
}

#[unsafe(no_mangle)]
pub extern "C" fn nettlestair_to_block_order(n: u32, raster: &[u16], stored: &mut [u16]) -> Written
    ensures { Rearranging to_block_order n raster.now stored.old stored.new result }
{
    let ordered = rearranging::to_block_order(n, raster, stored);
    Written::from(ordered)
}

#[unsafe(no_mangle)]
pub extern "C" fn nettlestair_from_block_order(
    n: u32,
    stored: &[u16],
    raster: &mut [u16],
) -> Written
    ensures { Rearranging to_rows n stored.now raster.old raster.new result }
{
    let restored = rearranging::from_block_order(n, stored, raster);
    Written::from(restored)
}

#[unsafe(no_mangle)]
pub extern "C" fn nettlestair_overlay(
    n: u32,
    first_codes: &[u32],
    first_levels: &[u8],
    first_colours: &[u16],
    second_codes: &[u32],
    second_levels: &[u8],
    second_colours: &[u16],
    codes: &mut [u32],
    levels: &mut [u8],
    colours: &mut [u16],
) -> Written
    ensures { Overlay n
        (list_of first_codes.now first_levels.now first_colours.now)
        (list_of second_codes.now second_levels.now second_colours.now)
        (list_of codes.old levels.old colours.old)
        (list_of codes.new levels.new colours.new)
        result }
{
    let laid = overlaying::overlay(
        n,
        first_codes,
        first_levels,
        first_colours,
        second_codes,
        second_levels,
        second_colours,
        codes,
        levels,
        colours,
    );
    Written::from(laid)
}

#[unsafe(no_mangle)]
pub extern "C" fn nettlestair_touch_up(
    n: u32,
    codes: &[u32],
    levels: &[u8],
    colours: &[u16],
    x: u32,
    y: u32,
    colour: u16,
    new_codes: &mut [u32],
    new_levels: &mut [u8],
    new_colours: &mut [u16],
) -> Written
    ensures { TouchUp n
        (list_of codes.now levels.now colours.now) x y colour
        (list_of new_codes.old new_levels.old new_colours.old)
        (list_of new_codes.new new_levels.new new_colours.new)
        result }
{
    let touched = touching_up::touch_up(
        n,
        codes,
        levels,
        colours,
        x,
        y,
        colour,
        new_codes,
        new_levels,
        new_colours,
    );
    Written::from(touched)
}

#[unsafe(no_mangle)]
pub extern "C" fn nettlestair_number(
    n: u32,
    codes: &[u32],
    levels: &[u8],
    colours: &[u16],
    labels: &mut [u32],
    work: &mut [u32],
) -> Numbered
    ensures { Numbering n codes.now levels.now colours.now
        labels.old work.old labels.new work.new
        result }
{
    let numbered = regions::number(n, codes, levels, colours, labels, work);
    Numbered::from(numbered)
}

#[unsafe(no_mangle)]
pub extern "C" fn nettlestair_trace(
    n: u32,
    codes: &[u32],
    levels: &[u8],
    colours: &[u16],
    labels: &mut [u32],
    work: &mut [u32],
    owners: &mut [u32],
    ends: &mut [u32],
    corners: &mut [u32],
    areas: &mut [i32],
) -> Traced
    ensures { Tracing n codes.now levels.now colours.now
        (lent labels.old work.old owners.old ends.old corners.old areas.old)
        (lent labels.new work.new owners.new ends.new corners.new areas.new)
        result }
{
    let traced = tracing::trace(
        n, codes, levels, colours, labels, work, owners, ends, corners, areas,
    );
    Traced::from(traced)
}

#[unsafe(no_mangle)]
pub extern "C" fn nettlestair_check_order(
    n: u32,
    codes: &[u32],
    levels: &[u8],
    colours: &[u16],
    order: &[u32],
    labels: &mut [u32],
    work: &mut [u32],
) -> u32
    ensures { OrderCheck n codes.now levels.now colours.now order.now
        labels.old work.old labels.new work.new result }
{
    let checked = order_check::check_order(n, codes, levels, colours, order, labels, work);
    number_of(checked)
}

#[unsafe(no_mangle)]
pub extern "C" fn nettlestair_least_order(
    n: u32,
    codes: &[u32],
    levels: &[u8],
    colours: &[u16],
    labels: &mut [u32],
    work: &mut [u32],
    order: &mut [u32],
) -> Written
    ensures { LeastOrdering n codes.now levels.now colours.now
        labels.old work.old order.old labels.new work.new order.new
        result }
{
    let least = least_order::least_order(n, codes, levels, colours, labels, work, order);
    Written::from(least)
}

#[unsafe(no_mangle)]
pub extern "C" fn nettlestair_blocks_from_outlines(
    n: u32,
    regions: u32,
    cycles: u32,
    corner_count: u32,
    given_owners: &[u32],
    given_ends: &[u32],
    given_corners: &[u32],
    region_colours: &[u16],
    codes: &mut [u32],
    levels: &mut [u8],
    colours: &mut [u16],
    work: &mut [u32],
) -> Written
    ensures { Restoring n
        (given_as regions cycles corner_count (outline_lists given_owners.now given_ends.now given_corners.now region_colours.now))
        (list_of codes.old levels.old colours.old) work.old
        (list_of codes.new levels.new colours.new) work.new
        result }
{
    let blocks = restoring::blocks_from_outlines(
        n,
        regions,
        cycles,
        corner_count,
        given_owners,
        given_ends,
        given_corners,
        region_colours,
        codes,
        levels,
        colours,
        work,
    );
    Written::from(blocks)
}

#[unsafe(no_mangle)]
pub extern "C" fn nettlestair_cycle(corners: &[u32], ends: &[u32], count: u32, k: u32) -> Stretch
    ensures { Place corners.now ends.now count k result }
{
    stretches::cycle_place(corners, ends, count, k)
}

#[unsafe(no_mangle)]
pub extern "C" fn nettlestair_open(state: State, cycle: u32, count: u32) -> Opened
    ensures { Opening state cycle count result }
{
    Opened::of(state, serving::open_cycle(state, cycle, count))
}

#[unsafe(no_mangle)]
pub extern "C" fn nettlestair_turn(
    state: State,
    corners: &[u32],
    ends: &[u32],
    count: u32,
) -> Turned
    ensures { Turning state (lists corners.now ends.now count) result }
{
    Turned::of(state, serving::turn(state, corners, ends, count))
}

#[unsafe(no_mangle)]
pub extern "C" fn nettlestair_svg(corners: &[u32], text: &mut [u8]) -> Written
    ensures { Svg corners.now text.old text.new result }
{
    let drawn = svg::svg(corners, text);
    Written::from(drawn)
}

#[unsafe(no_mangle)]
pub extern "C" fn nettlestair_read_chain(start: u32, chain: &[u8], corners: &mut [u32]) -> Written
    ensures { ChainRead start chain.now corners.old corners.new result }
{
    let read = chains::read_chain(start, chain, corners);
    Written::from(read)
}

#[unsafe(no_mangle)]
pub extern "C" fn nettlestair_read_pgm(bytes: &[u8], raster: &mut [u16]) -> Picture
    ensures { Reading bytes.now raster.old bytes.now raster.new
        result }
{
    let found = pgm::read(bytes, raster);
    Picture::from(found)
}
