// The rule of steps on a map of regions: the pixels around a lattice point, the next direction, and the next point. The map is a list of
// rows without a margin.
#![tactic(auto)]

ghost use Rattle.std.specs.Prelude.{◌≡◌, ◌<◌};
ghost use Rattle.lattice.specs.Directions.{point};
ghost use Rattle.grid.specs.Map.{around};
ghost use Rattle.grid.specs.Steps.{turn};
ghost use Rattle.steps.specs.Look.{map_at, Square, column_at, row_at};
ghost use Rattle.steps.specs.Rule.{Way, move_x, move_y};

// What a mark adds to an entry of the map: `mark_bit`. A mark and a region share one number, since the map lies in the `u32` work list
// that a C caller lends, and nothing is allocated.
pub const MARK_BIT: u32 = 131072;

// The digits of the edges that are marked: those of north sides, and those of south sides. A digit is a `u8`, since `next_x` and `next_y`
// answer for every `u8`; a narrower type would ask more of their callers.
pub const EAST: u8 = 0;

pub const WEST: u8 = 2;

// A unit edge: its tail (x, y) and its digit d.
#[derive(Clone, Copy, Debug, PartialEq, Eq)]
pub struct Edge {
    pub x: u32,
    pub y: u32,
    pub d: u8,
}

impl Edge {
    // The number of the tail.
    #[tactic(auto, unfolding(lattice::specs::Directions::point))]
    pub fn tail(self) -> u32
        requires { (self.x < 512) × (self.y < 512) }
        ensures { result ≡ point self.x self.y }
    {
        512 * self.y + self.x
    }

    // The edge after it by the rule of steps, in the region r.
    pub fn next(self, map: &[u32], side: u32, r: u32) -> Edge
        requires { Square side map.now × Way self.x self.y self.d × (self.d < 4) }
        ensures { (result.x ≡ move_x self.x self.d) × (result.y ≡ move_y self.y self.d)
            × (result.d ≡ turn (map_at side map.now) r (point result.x result.y) self.d) × (result.d < 4) }
    {
        let x = next_x(self.x, self.d);
        let y = next_y(self.y, self.d);
        let d = next_digit(map, side, r, x, y, self.d);
        Edge { x, y, d }
    }
}

// The map with a margin at (x, y), without its mark: 0 outside the image.
fn look(map: &[u32], side: u32, x: u32, y: u32) -> u32
    requires { Square side map.now }
    ensures { result ≡ map_at side map.now x y }
{
    if x == 0 {
        return 0;
    }
    if side < x {
        return 0;
    }
    if y == 0 {
        return 0;
    }
    if side < y {
        return 0;
    }
    let i = ((y - 1) * side + (x - 1)) as usize;
    map[i] % MARK_BIT
}

// The column in the map with a margin of the pixel of the digit d around a point of the column x.
#[tactic(auto, unfolding(crate::specs::Look::column_at))]
pub fn column_at(x: u32, d: u8) -> u32
    requires { x < 512 }
    ensures { result ≡ column_at x d }
{
    if d < 2 { x + 1 } else { x }
}

// The row of the pixel of the digit d around a point of the row y.
#[tactic(auto, unfolding(crate::specs::Look::row_at))]
pub fn row_at(y: u32, d: u8) -> u32
    requires { y < 512 }
    ensures { result ≡ row_at y d }
{
    match d {
        1 => y,
        2 => y,
        _ => y + 1,
    }
}

// The pixel of the digit d around the point (x, y).
fn around(map: &[u32], side: u32, x: u32, y: u32, d: u8) -> u32
    requires { Square side map.now × (x < 512) × (y < 512) }
    ensures { result ≡ around (map_at side map.now) (point x y) d }
{
    let column = column_at(x, d);
    let row = row_at(y, d);
    look(map, side, column, row)
}

// The rule of steps: the direction after d at the point (x, y), in the region r. If the pixel ahead on the right is not in r, right; if the
// one ahead on the left is not, straight; else left.
pub fn next_digit(map: &[u32], side: u32, r: u32, x: u32, y: u32, d: u8) -> u8
    requires { Square side map.now × (x < 512) × (y < 512) × (d < 4) }
    ensures { (result ≡ turn (map_at side map.now) r (point x y) d) × (result < 4) }
{
    let right = lattice::right(d);
    let left = (d + 1) % 4;
    let ahead_right = around(map, side, x, y, d);
    if ahead_right != r {
        return right;
    }
    let ahead_left = around(map, side, x, y, left);
    if ahead_left != r {
        return d;
    }
    left
}

// The column of the point one unit on with the digit d from a point of the column x.
#[tactic(auto, unfolding(crate::specs::Rule::move_x))]
pub fn next_x(x: u32, d: u8) -> u32
    requires { (d ≡ 2 → 0 < x) × (x < 512) }
    ensures { result ≡ move_x x d }
{
    match d {
        0 => x + 1,
        2 => x - 1,
        _ => x,
    }
}

// The row of the point one unit on with the digit d from a point of the row y.
#[tactic(auto, unfolding(crate::specs::Rule::move_y))]
pub fn next_y(y: u32, d: u8) -> u32
    requires { (d ≡ 1 → 0 < y) × (y < 512) }
    ensures { result ≡ move_y y d }
{
    match d {
        0 => y,
        1 => y - 1,
        2 => y,
        _ => y + 1,
    }
}
