// SVG path data of one cycle form.
ghost use Rattle.std.specs.Prelude.{◌≡◌, true, ◌∷◌, ◌+◌, ◌*◌, ◌<◌, ◌≤◌, length};
ghost use Rattle.lattice.specs.CycleForm.{inside, all_inside};
ghost use Rattle.answers.specs.Put.{Put};
ghost use Rattle.decimals.specs.Decimal.{decimal};
ghost use Rattle.svg.specs.Svg.{word, path_data};

// A letter and the digits of v. They are put by hand: `write!` promises its bytes only on an Ok, and no clause of it says that a slice
// with room gives one, so that `Put` would stay open.
fn put_number(text: &mut [u8], letter: u8, v: u32) -> usize
    requires { (4 ≤ length text.old) × (v < 1000) }
    ensures { Put (letter ∷ decimal v) text.old text.new result }
{
    text[0] = letter;
    if v < 10 {
        text[1] = b'0' + (v as u8);
        return 2;
    }
    if v < 100 {
        text[1] = b'0' + ((v / 10) as u8);
        text[2] = b'0' + ((v % 10) as u8);
        return 3;
    }
    text[1] = b'0' + ((v / 100) as u8);
    text[2] = b'0' + ((v / 10 % 10) as u8);
    text[3] = b'0' + ((v % 10) as u8);
    4
}

// M, x, a space and y of the first corner.
fn put_first(text: &mut [u8], c: u32) -> usize
    requires { (8 ≤ length text.old) × (inside c ≡ true) }
    ensures { Put (word 0 c) text.old text.new result }
{
    let n = put_number(text, b'M', c % 512);
    let m = put_number(&mut text[n..], b' ', c / 512);
    n + m
}

// The words of the corner at i.
fn put_corner(text: &mut [u8], i: usize, c: u32) -> usize
    requires { (8 ≤ length text.old) × (inside c ≡ true) }
    ensures { Put (word i c) text.old text.new result }
{
    if i == 0 {
        return put_first(text, c);
    }
    if i % 2 == 0 {
        return put_number(text, b'V', c / 512);
    }
    put_number(text, b'H', c % 512)
}

// The path data of corners that are a cycle form.
pub(crate) fn write_path(corners: &[u32], text: &mut [u8]) -> usize
    requires { (all_inside corners.now ≡ true) × (9 + 4 * length corners.now ≤ length text.old) }
    ensures { Put (path_data corners.now) text.old text.new result }
{
    let mut at: usize = 0;
    for (i, &corner) in corners.iter().enumerate() {
        at += put_corner(&mut text[at..], i, corner);
    }
    text[at] = b'Z';
    at + 1
}
