// One value stored along a stretch of a list.
#![tactic(auto)]

ghost use Rattle.std.specs.Prelude.{◌≡◌, ◌+◌, ◌≤◌, length};
ghost use Rattle.sequences.specs.Fill.{fill};

// Stores v in the s entries from `from` on. The slice's own `fill` would ask of a type parameter that its clone never fails.
pub fn fill<T: Copy>(list: &mut [T], from: usize, s: usize, v: T)
    requires { from + s ≤ length list.old }
    ensures { list.new ≡ fill list.old from s v }
{
    for x in list[from..from + s].iter_mut() {
        *x = v;
    }
}
