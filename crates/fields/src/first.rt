// The first number that passes a test.
ghost use Rattle.std.specs.Prelude.{ℕ, ◌+◌, ◌<◌};
ghost use Rattle.fields.specs.Least.{FirstOf};

// The first of the numbers 1 to `last` that passes, 0 where none does.
// Inner step: the test can be made of each.
pub fn least<F: Fn(usize) -> bool>(last: usize, passes: F) -> usize
    requires { (i : ℕ) → i < last → F.pre passes (i + 1) }
    ensures { FirstOf (F.post passes) last result }
{
    for i in 0..last {
        if passes(i + 1) {
            return i + 1;
        }
    }
    0
}
