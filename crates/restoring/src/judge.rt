// Whether an image has given outlines and region colours: the region of each pixel told by the northward edges, its numbers and its outlines
// compared.
ghost use Rattle.std.specs.Prelude.{◌≡◌, ◌≤◌, length};
ghost use Rattle.given_outlines.specs.Given.{outline_lists};
ghost use Rattle.restoring.specs.Ends.{ends_rise};
ghost use Rattle.restoring.specs.Judging.{Judgeable, ListsJudged, ImageJudged};

// Whether the ends rise from 0 to `total`.
fn ends_rise(ends: &[u32], total: usize) -> bool
    ensures { result ≡ ends_rise 0 ends.now total }
{
    let mut from = 0;
    for &end in ends {
        let end = end as usize;
        if end < from {
            return false;
        }
        from = end;
    }
    from == total
}

// Whether the lists agree with each other. Lists longer than any image has are refused before they are gone through: for the time that it
// takes, the answer would be the same.
fn lists_agree(
    n: u32,
    owners: &[u32],
    ends: &[u32],
    corners: &[u32],
    region_colours: &[u16],
) -> bool
    requires { (n ≤ 8) × (length owners.now ≡ length ends.now) }
    ensures { ListsJudged n (outline_lists owners.now ends.now corners.now region_colours.now) result }
{
    let whole = location::pixels(n);
    if whole < region_colours.len() {
        return false;
    }
    if whole < ends.len() {
        return false;
    }
    if 4 * whole < corners.len() {
        return false;
    }
    ends_rise(ends, corners.len())
}

// Whether an image has the outlines. Where one has, the front of the work list holds 1 plus the number of each of its pixels, with marks.
pub(crate) fn has_image(
    n: u32,
    owners: &[u32],
    ends: &[u32],
    corners: &[u32],
    region_colours: &[u16],
    work: &mut [u32],
) -> bool
    requires { Judgeable n (outline_lists owners.now ends.now corners.now region_colours.now) work.old }
    ensures { ImageJudged n (outline_lists owners.now ends.now corners.now region_colours.now)
        work.old work.new result }
{
    if !lists_agree(n, owners, ends, corners, region_colours) {
        return false;
    }
    let told = west_sides::tell_regions(n, region_colours.len(), owners, ends, corners, work);
    if !told {
        return false;
    }
    let numbered = pixel_numbers::numbers_agree(n, region_colours, work);
    if !numbered {
        return false;
    }
    retracing::cycles_agree(n, owners, ends, corners, work)
}
