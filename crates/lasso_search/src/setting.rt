// The status of combinations before a search: where a period may end.
ghost use Rattle.std.specs.Prelude.{◌≡◌, ℕ, ◌*◌, ◌<◌, length};
ghost use Rattle.lasso_search.specs.Codes.{Fresh, EndReads, ends_at, status_of_value};

use pairing::Beside;

// The status of the pair y of progress states: 2 where it is marked in the first sheet and not in the second, else 1.
fn status_of(first: &[u8], second: &[u8], m: Beside, y: usize) -> u8
    requires { EndReads first.now second.now m y }
    ensures { result ≡ status_of_value (ends_at first.now second.now m y) }
{
    if !packed::is_marked(first, m.first, y / m.width) {
        return 1;
    }
    if packed::is_marked(second, m.second, y % m.width) {
        return 1;
    }
    2
}

// Sets the status of the combinations of n leading states and `count` pairs of progress states: 2 for those at the
// leading state q that end.
pub fn set_status(
    first: &[u8],
    second: &[u8],
    m: Beside,
    count: usize,
    n: usize,
    q: usize,
    status: &mut [u8],
)
    requires { ((y : ℕ) → y < count → EndReads first.now second.now m y) × (q < n) × (length status.old ≡ count * n) }
    ensures { Fresh status.new n q count (ends_at first.now second.now m) }
{
    search::refresh(status);
    for y in 0..count {
        status[y * n + q] = status_of(first, second, m, y);
    }
}
