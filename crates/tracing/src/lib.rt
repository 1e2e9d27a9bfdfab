// The outlines of all regions of a block list.
#![tactic(auto)]

ghost use Rattle.std.specs.Prelude.{◌≡◌, ◌≤◌};
ghost use Rattle.answers.specs.Results.{said};
ghost use Rattle.tracing.specs.Results.{traced};
ghost use Rattle.tracing.specs.Tracing.{lent, is_too_short, unfit_number, Tracing};

use answers::Cause;

// How many regions, cycles, and corners of all cycles are listed.
#[derive(Clone, Copy, Debug, PartialEq, Eq)]
pub struct Listed {
    pub regions: u32,
    pub cycles: u32,
    pub corners: u32,
}

// The answer for C: the number of a cause and counts 0, or 0 and the counts.
#[repr(C)]
#[derive(Clone, Copy)]
pub struct Traced {
    pub number: u32,
    pub regions: u32,
    pub cycles: u32,
    pub corners: u32,
}

impl From<Result<Listed, Cause>> for Traced {
    ghost from_gives = { λ outcome answer. answer ≡ traced outcome };

    fn from(outcome: Result<Listed, Cause>) -> Traced {
        match outcome {
            Ok(listed) => Traced {
                number: 0,
                regions: listed.regions,
                cycles: listed.cycles,
                corners: listed.corners,
            },
            Err(cause) => Traced {
                number: u32::from(cause),
                regions: 0,
                cycles: 0,
                corners: 0,
            },
        }
    }
}

// Whether one of the lent lists is shorter than its need, for `count` blocks: cause 8.
fn short(
    n: u32,
    count: usize,
    labels: &[u32],
    work: &[u32],
    owners: &[u32],
    ends: &[u32],
    corners: &[u32],
    areas: &[i32],
) -> bool
    requires { n ≤ 8 }
    ensures { result ≡ is_too_short n count
        (lent labels.now work.now owners.now ends.now corners.now areas.now) }
{
    let whole = location::pixels(n);
    labels.len() < count
        || work.len() < 2 * whole
        || owners.len() < whole
        || ends.len() < whole
        || corners.len() < 4 * whole
        || areas.len() < whole
}

// Refuses where n is above 8 or one of the lists is too short: 8 comes last, so the check is asked for a cause before it.
fn unfit(
    n: u32,
    codes: &[u32],
    levels: &[u8],
    colours: &[u16],
    labels: &[u32],
    work: &[u32],
    owners: &[u32],
    ends: &[u32],
    corners: &[u32],
    areas: &[i32],
) -> Result<(), Cause>
    ensures { said result ≡ unfit_number n codes.now levels.now colours.now
        (lent labels.now work.now owners.now ends.now corners.now areas.now) }
{
    if 8 < n {
        return Err(Cause::SideTooLarge);
    }
    if short(n, codes.len(), labels, work, owners, ends, corners, areas) {
        blocks::check(n, codes, levels, colours)?;
        return Err(Cause::ListTooShort);
    }
    Ok(())
}

// The outlines of all regions of a block list: labels, owners, ends, corners and areas, and the counts of regions, cycles and corners. The
// block list is checked once: by the numbering, or before it where a list is too short.
pub fn trace(
    n: u32,
    codes: &[u32],
    levels: &[u8],
    colours: &[u16],
    labels: &mut [u32],
    work: &mut [u32],
    owners: &mut [u32],
    ends: &mut [u32],
    corners: &mut [u32],
    areas: &mut [i32],
) -> Result<Listed, Cause>
    ensures { Tracing n codes.now levels.now colours.now
        (lent labels.old work.old owners.old ends.old corners.old areas.old)
        (lent labels.new work.new owners.new ends.new corners.new areas.new) (traced result) }
{
    unfit(
        n, codes, levels, colours, labels, work, owners, ends, corners, areas,
    )?;
    let regions = regions::number(n, codes, levels, colours, labels, work)?;
    let counts = outlining::outline(n, codes, levels, labels, work, owners, ends, corners, areas);
    Ok(Listed {
        regions,
        cycles: counts.cycles as u32,
        corners: counts.corners as u32,
    })
}
