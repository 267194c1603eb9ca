// Copies of a slice in another lent slice.
ghost use Rattle.std.specs.Prelude.{◌≡◌, ℕ, ◌≤◌, ◌<◌, length, get_or};
ghost use Rattle.slices.specs.Filling.{written};

// Copies bytes to the start of a slice, one by one: the library's own copy calls `memmove`, which the archive for C is
// not to need.
pub fn copy(from: &[u8], out: &mut [u8])
    requires { length from.now ≤ length out.old }
    ensures { out.new ≡ written from.now out.old }
{
    for (i, &x) in from.iter().enumerate() {
        out[i] = x;
    }
}

// Copies numbers of 16 bits, each of which fits a byte, to the start of a slice of bytes.
pub fn narrow_copy(from: &[u16], out: &mut [u8])
    requires { (length from.now ≤ length out.old) × ((i : ℕ) → i < length from.now → get_or from.now i 0 < 256) }
    ensures { out.new ≡ written from.now out.old }
{
    for (i, &x) in from.iter().enumerate() {
        out[i] = x as u8;
    }
}
