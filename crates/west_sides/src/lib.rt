// The region of each pixel told by the northward edges of given cycles: such an edge says the region of the pixel on its right, which is the
// owner of its cycle; any other pixel is in the region of its west neighbour.
#![tactic(auto)]

ghost use Rattle.std.specs.Prelude.{is_some, unwrap_or, ◌≡◌, ◌-◌, ◌*◌, ◌≤◌, ◌<◌, length};
ghost use Rattle.sequences.specs.Cases.{first};
ghost use Rattle.lattice.specs.Directions.{point};
ghost use Rattle.lattice.specs.Walks.{run, straight, outline};
ghost use Rattle.steps.specs.Look.{Square};
ghost use Rattle.given_outlines.specs.Given.{cycles_in};
ghost use Rattle.west_sides.specs.Northward.{stores, Stored};
ghost use Rattle.west_sides.specs.Cycles.{Storable, AllOutlinesStored};
ghost use Rattle.west_sides.specs.Rows.{RowFilled, RowsFilled};
ghost use Rattle.west_sides.specs.Telling.{TellableWhole, WholeTold};
ghost use Rattle.west_sides.specs.Promise.{Tellable, RegionsTold};

// Stores r along the northward leg in the column x from the row `from` to the row `to`: at the pixels east of it.
fn store_north(map: &mut [u32], side: usize, x: usize, from: usize, to: usize, r: u32)
    requires { Square side map.old × (x < side) × (from ≤ side) }
    ensures { map.new ≡ stores side r (run 1 (from - to) (point x from)) map.old }
{
    for y in (to..from).rev() {
        map[y * side + x] = r;
    }
}

// Stores r along the leg from the corner p to the corner q, if it goes north. Gives how many northward units may still be stored, so that legs
// of any length cost no more than an image has pixels. A leg from outside the image is not stored, nor one that is longer than the units: then
// what the map holds is free.
fn store_leg(map: &mut [u32], side: usize, p: u32, q: u32, r: u32, units: usize) -> Option<usize>
    requires { Square side map.old }
    ensures { Stored side r units (straight p q) map.old map.new (is_some result) (unwrap_or result 0) }
{
    let from = (p / 512) as usize;
    let to = (q / 512) as usize;
    if from <= to {
        return Some(units);
    }
    let x = (p % 512) as usize;
    if side <= x || side < from || units < from - to {
        return None;
    }
    store_north(map, side, x, from, to, r);
    Some(units - (from - to))
}

// Stores r along all northward legs of the outline with these corners; the last leg goes back to the first corner.
fn store_outline(
    map: &mut [u32],
    side: usize,
    points: &[u32],
    r: u32,
    units: usize,
) -> Option<usize>
    requires { Square side map.old }
    ensures { Stored side r units (outline points.now) map.old map.new (is_some result) (unwrap_or result 0) }
{
    if points.is_empty() {
        return Some(units);
    }
    let first = points[0];
    let mut p = first;
    let mut left = units;
    for &q in &points[1..] {
        left = store_leg(map, side, p, q, r, left)?;
        p = q;
    }
    store_leg(map, side, p, first, r, left)
}

// Stores 1 plus the owner of each cycle along its northward legs, later cycles over earlier ones. Gives false where an owner is not below the
// count of regions, a northward leg begins outside the image, or there are more northward units than pixels.
fn store_cycles(
    map: &mut [u32],
    side: usize,
    regions: usize,
    owners: &[u32],
    ends: &[u32],
    corners: &[u32],
) -> bool
    requires { Storable side regions owners.now ends.now corners.now map.old }
    ensures { AllOutlinesStored side regions (length map.old) (cycles_in owners.now ends.now corners.now)
        map.old map.new result }
{
    let mut units = map.len();
    let mut from = 0;
    for (&owner, &end) in owners.iter().zip(ends) {
        if regions <= owner as usize {
            return false;
        }
        let to = end as usize;
        let Some(left) = store_outline(map, side, &corners[from..to], owner + 1, units) else {
            return false;
        };
        units = left;
        from = to;
    }
    true
}

// A pixel's own entry, or that of its west neighbour where it has none.
fn own_or_west(own: u32, west: u32) -> u32
    ensures { result ≡ first own west }
{
    if own == 0 { west } else { own }
}

// Fills a row from west to east. Gives false where its first pixel has no entry.
fn fill_row(row: &mut [u32]) -> bool
    requires { 0 < length row.old }
    ensures { RowFilled row.old row.new result }
{
    let mut west = row[0];
    if west == 0 {
        return false;
    }
    for x in 1..row.len() {
        west = own_or_west(row[x], west);
        row[x] = west;
    }
    true
}

// Fills all rows. Gives false where the first pixel of one has no entry.
fn fill_rows(map: &mut [u32], side: usize) -> bool
    requires { length map.old ≡ side * side }
    ensures { RowsFilled side map.old map.new result }
{
    // Not by chunks_exact_mut: once its borrow is over, a proof knows the length of the map alone.
    for y in 0..side {
        if !fill_row(&mut map[y * side..(y + 1) * side]) {
            return false;
        }
    }
    true
}

// Tells the regions in a map that has one entry a pixel.
fn tell(
    n: u32,
    regions: usize,
    owners: &[u32],
    ends: &[u32],
    corners: &[u32],
    map: &mut [u32],
) -> bool
    requires { TellableWhole n regions owners.now ends.now corners.now map.old }
    ensures { WholeTold n regions (cycles_in owners.now ends.now corners.now) map.old map.new result }
{
    let side = location::side(n);
    let whole = map.len();
    filling::fill(map, 0, whole, 0);
    if !store_cycles(map, side, regions, owners, ends, corners) {
        return false;
    }
    fill_rows(map, side)
}

// Writes 1 plus the region of each pixel to the front of the map, row by row, as the northward edges of the given cycles tell it. Gives false
// where no image has these outlines; then what the first 4^n entries hold is free.
pub fn tell_regions(
    n: u32,
    regions: usize,
    owners: &[u32],
    ends: &[u32],
    corners: &[u32],
    map: &mut [u32],
) -> bool
    requires { Tellable n regions owners.now ends.now corners.now map.old }
    ensures { RegionsTold n regions (cycles_in owners.now ends.now corners.now) map.old map.new result }
{
    let whole = location::pixels(n);
    tell(n, regions, owners, ends, corners, &mut map[..whole])
}
