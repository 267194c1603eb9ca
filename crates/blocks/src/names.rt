// The names of the letters, in a line of names.
ghost use Rattle.std.specs.Prelude.{◌≡◌, ◌≤◌, length};
ghost use Rattle.blocks.specs.Text.{names};

// The names of 32 letters; those of fewer are the first of them.
pub const NAMES: [u8; 118] =
    *b" s0 s1 s2 s3 s4 s5 s6 s7 s8 s9 s10 s11 s12 s13 s14 s15 s16 s17 s18 s19 s20 s21 s22 s23 s24 s25 s26 s27 s28 s29 s30 s31";

// How many bytes the names of s letters take.
pub fn names_len(s: usize) -> usize
    requires { s ≤ 32 }
    ensures { result ≡ length (names s) }
{
    if s < 10 { 3 * s } else { 4 * s - 10 }
}
