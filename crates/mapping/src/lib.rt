// The map of regions and the links of their blocks, as the listing wants them in the work list. The map has 1 plus the label of each block
// on all pixels of its square, row by row; where MARK_BIT of steps is added, the pixel's north side is an edge of a cycle that is written.
#![tactic(auto)]

ghost use Rattle.std.specs.Prelude.{◌≡◌};
ghost use Rattle.sequences.specs.Over.{over};
ghost use Rattle.quadtree.specs.Raster.{in_rows};
ghost use Rattle.quadtree.specs.Blocks.{blocks, paint};
ghost use Rattle.links.specs.Linking.{Linkable, PlacesLinked};
ghost use Rattle.mapping.specs.Filling.{raised, Fillable};

// Writes at whole + j of the work list 1 plus the next of the `count` blocks with the label of block j, 0 where there is none. The first
// `whole` entries hold the heads of the labels meanwhile.
pub fn link(whole: usize, count: usize, labels: &[u32], work: &mut [u32])
    requires { Linkable whole count labels.now work.old }
    ensures { PlacesLinked whole count labels.now work.old work.new }
{
    for j in (0..count).rev() {
        let r = labels[j] as usize;
        work[whole + j] = work[r];
        work[r] = (j + 1) as u32;
    }
}

// Fills the map with 1 plus the label of each block.
pub fn fill_map(n: u32, codes: &[u32], levels: &[u8], labels: &[u32], map: &mut [u32])
    requires { Fillable n codes.now levels.now labels.now map.old }
    ensures { map.new
        ≡ over (in_rows n (raised (paint (blocks codes.now levels.now labels.now)))) map.old }
{
    let w = location::side(n);
    for i in 0..codes.len() {
        let s = location::side(levels[i] as u32);
        let at = location::place(n, codes[i]);
        let number = labels[i] + 1;
        // Most blocks of a busy picture are one pixel.
        if s == 1 {
            map[at] = number;
        } else {
            squares::fill_square(map, w, at, s, number);
        }
    }
}
