// Lattice points, directions and walks along unit edges: what outlines, path data and chain codes share.
#![tactic(auto)]

ghost use Rattle.std.specs.Prelude.{◌≡◌};
ghost use Rattle.lattice.specs.Directions.{right_of};

// The direction after a right turn: "a right turn takes one from the digit, and from 0 it goes to 3" (document 01).
pub fn right(d: u8) -> u8
    ensures { result ≡ right_of d }
{
    d.wrapping_sub(1) % 4
}
