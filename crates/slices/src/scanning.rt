// The first byte of a slice that is out of a range.
ghost use Rattle.std.specs.Prelude.{◌≡◌, true, ℕ, ◌+◌, ◌≤◌, ◌<◌, length, get_or};
ghost use Rattle.slices.specs.Scans.{outside, first_outside_of};

pub fn is_outside(low: usize, limit: usize, c: usize) -> bool
    ensures { result ≡ outside low limit c }
{
    c < low || limit <= c
}

// A byte that none exceeds.
fn top(word: &[u8]) -> u8
    ensures { (i : ℕ) → i < length word.now → get_or word.now i 0 ≤ result }
{
    let mut most = 0;
    for &x in word {
        most = most.max(x);
    }
    most
}

// Whether it is seen at once that none of `count` bytes from `at` on is outside: from the largest, which takes vector
// instructions.
fn is_inside(bytes: &[u8], low: usize, limit: usize, at: usize, count: usize) -> bool
    requires { at + count ≤ length bytes.now }
    ensures { result ≡ true → count ≡ first_outside_of low limit bytes.now at count }
{
    if low > 0 {
        return false;
    }
    usize::from(top(&bytes[at..at + count])) < limit
}

// How many of `count` bytes from `at` on come before the first that is not from `low` to `limit` − 1.
pub fn first_outside(bytes: &[u8], low: usize, limit: usize, at: usize, count: usize) -> usize
    requires { at + count ≤ length bytes.now }
    ensures { result ≡ first_outside_of low limit bytes.now at count }
{
    if is_inside(bytes, low, limit, at, count) {
        return count;
    }
    bytes[at..at + count]
        .iter()
        .position(|&x| is_outside(low, limit, usize::from(x)))
        .unwrap_or(count)
}

// How many letters of a word come before the first that is not below `letters`.
pub fn first_unknown(word: &[u8], letters: usize) -> usize
    ensures { result ≡ first_outside_of 0 letters word.now 0 (length word.now) }
{
    first_outside(word, 0, letters, 0, word.len())
}
