// Region numbers of a block list: one walk over its blocks with the border between done and not done, then one pass that
// turns roots into numbers.
#![tactic(auto)]

ghost use Rattle.std.specs.Prelude.{◌≡◌};
ghost use Rattle.regions.specs.Promise.{Numbering};
ghost use Rattle.regions.specs.Results.{numbered};
ghost use Rattle.regions.specs.Labelling.{Numberable, LabelsFound};

use answers::Cause;

// The answer for C: the number of a cause and 0, or 0 and how many regions there are.
#[repr(C)]
#[derive(Clone, Copy)]
pub struct Numbered {
    pub number: u32,
    pub regions: u32,
}

impl From<Result<u32, Cause>> for Numbered {
    ghost from_gives = { λ outcome answer. answer ≡ numbered outcome };

    fn from(outcome: Result<u32, Cause>) -> Numbered {
        match outcome {
            Ok(regions) => Numbered { number: 0, regions },
            Err(cause) => Numbered {
                number: u32::from(cause),
                regions: 0,
            },
        }
    }
}

// Numbers the regions of an accepted list: in the label list, one entry a block, first parents, then numbers.
fn label(
    n: u32,
    need: usize,
    codes: &[u32],
    levels: &[u8],
    colours: &[u16],
    labels: &mut [u32],
    work: &mut [u32],
) -> u32
    requires { Numberable n need codes.now levels.now colours.now labels.old work.old }
    ensures { LabelsFound n codes.now levels.now colours.now
        work.old labels.new work.new result }
{
    unionfind::own_parents(labels);
    border::walk(n, codes, levels, colours, labels, work);
    filling::fill(work, 0, need, 0);
    unionfind::number_all(labels)
}

// The region number of each block, and how many regions there are.
pub fn number(
    n: u32,
    codes: &[u32],
    levels: &[u8],
    colours: &[u16],
    labels: &mut [u32],
    work: &mut [u32],
) -> Result<u32, Cause>
    ensures { Numbering n codes.now levels.now colours.now
        labels.old work.old labels.new work.new (numbered result) }
{
    blocks::check(n, codes, levels, colours)?;
    let need = 2 * location::pixels(n);
    if labels.len() < codes.len() || work.len() < need {
        return Err(Cause::ListTooShort);
    }
    let count = label(
        n,
        need,
        codes,
        levels,
        colours,
        &mut labels[..codes.len()],
        work,
    );
    Ok(count)
}
