// The binary digits of location codes: those of x and y interleaved, by a table of spread numbers, and gathered from a code.
#![tactic(auto)]

ghost use Rattle.std.specs.Prelude.{◌≡◌, ◌+◌, ◌*◌, ◌/◌, ◌%◌, ◌^◌, ◌<◌};
ghost use Rattle.interleaving.specs.Codes.{code, column, row};
ghost use Rattle.interleaving.specs.Spreads.{spread, spreads};
ghost use Rattle.interleaving.specs.Gathering.{groups};

// The table of the 256 spread numbers. It is lent, so that a loop over many pixels can build it once.
#[derive(Clone, Copy)]
pub struct Spreads {
    pub entries: [u16; 256],
    pub ghost rule: { entries ≡ spreads },
}

// The spread number of a byte: its entry of the table.
fn spread_of(table: &Spreads, i: usize) -> u32
    requires { i < 256 }
    ensures { result ≡ spread 8 i }
{
    table.entries[i] as u32
}

// The code of the pixel (x, y), both below 256.
pub fn code8(table: &Spreads, x: usize, y: usize) -> u32
    requires { (x < 256) × (y < 256) }
    ensures { result ≡ code 8 x y }
{
    spread_of(table, x) + 2 * spread_of(table, y)
}

// The code of any pixel: low bytes, then high bytes.
pub fn code_by_table(table: &Spreads, x: u16, y: u16) -> u32
    ensures { result ≡ code 16 x y }
{
    code8(table, (x % 256) as usize, (y % 256) as usize)
        + 65536 * code8(table, (x / 256) as usize, (y / 256) as usize)
}

// The first 8 digits of x and of y, worked out together, x in the low half of the word and y in the high half: first one by one in
// every second place, then in groups of two, then of four.
fn fours(c: u32) -> u32
    ensures { result ≡ groups 4 4 (column 8 c + 256 * row 8 c) }
{
    let ones = (c & 0x5555) + 65536 * (c / 2 & 0x5555);
    let twos = (ones | ones >> 1) & 0x3333_3333;
    (twos | twos >> 2) & 0x0f0f_0f0f
}

// Times 17, each group of four also stands next to the one above it: x whole from place 24 on, y from place 40 on. Lower down the
// compiler would split the word and work x and y out apart.
fn parted(c: u32) -> u64
    ensures { (result / 2 ^ 24 % 256 ≡ column 8 c) × (result / 2 ^ 40 % 256 ≡ row 8 c) }
{
    fours(c) as u64 * 0x110_0000
}

// The first 8 digits of x, and those of y. A const parameter for the place would need a contract for each of its two values: no shorter.
pub fn column8(c: u32) -> u32
    ensures { result ≡ column 8 c }
{
    ((parted(c) >> 24) % 256) as u32
}

pub fn row8(c: u32) -> u32
    ensures { result ≡ row 8 c }
{
    ((parted(c) >> 40) % 256) as u32
}
