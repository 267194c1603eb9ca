// A sum that stops at the largest number.
ghost use Rattle.std.specs.Prelude.{◌≡◌, ◌+◌};
ghost use Rattle.slices.specs.Capped.{capped};

// The sum, or the largest number where that is less.
pub fn sum(a: usize, b: usize) -> usize
    ensures { result ≡ capped (a + b) }
{
    a.saturating_add(b)
}
