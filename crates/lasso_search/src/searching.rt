// The search for the first lasso: pairs of leading states, and for each the combinations with two progress states.
ghost use Rattle.std.specs.Prelude.{◌≡◌, Bool, true, false, ℕ, ◌+◌, ◌-◌, ◌*◌, ◌≤◌, ◌<◌, length, take};
ghost use Rattle.search.specs.Words.{Word, ε, run, Over};
ghost use Rattle.pairing.specs.Pairs.{Alike, leads_of, sizes_of};
ghost use Rattle.lasso_search.specs.Reporting.{difference};
ghost use Rattle.lasso_search.specs.Codes.{Tabulated, Fresh, Leads, Room, Round, Preparation, Next, CanFind, Started};
ghost use Rattle.lasso_search.specs.Codes.{Located};

use crate::setting::set_status;
use crate::{Candidate, Codes, LassoCodes};
use pairing::{Beside, PairSizes};
use search::Expansion;

// Searches the leading states alone, the progress standing still; the number of those reached.
fn reach(leads: &[u16], n: usize, letters: usize, status: &mut [u8], cells: &mut [u64]) -> usize
    requires { ((f : ℕ → ℕ → ℕ) × Tabulated leads.now n letters f) × (0 < n) × (length status.old ≡ n) ×
        (length cells.old ≡ n) }
    ensures { (f : ℕ → ℕ → ℕ) → Tabulated leads.now n letters f → Leads f letters n (take (n - 1) cells.new) result }
{
    search::refresh(status);
    status[0] = 0;
    let still = [0u16; 32];
    match search::explore(leads, &still, n, letters, 0, status, cells) {
        Expansion::On(total) => total,
        Expansion::Ending(_) => 1,
    }
}

// Whether some period leads the progress automata to an ending, the leading state standing still.
fn can_end(rows: &[u16], letters: usize, count: usize, status: &mut [u8], cells: &mut [u64]) -> bool
    requires { ((f : ℕ → ℕ → ℕ) × Tabulated rows.now count letters f) ×
        ((e : ℕ → Bool) × Fresh status.old 1 0 count e) × (0 < count) × (count + 1 ≤ length cells.old) }
    ensures { result ≡ false → (f : ℕ → ℕ → ℕ) (e : ℕ → Bool) → Tabulated rows.now count letters f →
        Fresh status.old 1 0 count e
        → (v : Word) → Over letters v → (v ≡ ε → ⊥) → e (run f 0 v) ≡ true → ⊥ }
{
    let still = [0u16; 32];
    match search::explore(&still, rows, 1, letters, 0, status, cells) {
        Expansion::On(_) => false,
        Expansion::Ending(_) => true,
    }
}

// Makes the table and sets the status for the search from the pair q of leading states. Says how many pairs of progress
// states it has, or none where no period from q is accepted.
fn prepare(
    first: &[u8],
    second: &[u8],
    t: Beside,
    n: usize,
    q: usize,
    rows: &mut [u16],
    status: &mut [u8],
    cells: &mut [u64],
) -> Option<usize>
    requires alike { Alike first.now second.now × (t ≡ leads_of first.now second.now) × (q < n) }
    requires room { Room (difference first.now second.now) n (length rows.old) (length status.old) (length cells.old) }
    ensures { Preparation (difference first.now second.now) n q rows.new status.new result }
{
    let p = q / t.width;
    let r = q % t.width;
    let g = pairing::progress(first, second, p, r);
    let m = pairing::marks(first, second, p, r);
    let count = packed::size(first, p) * g.width;
    pairing::tabulate(first, second, g, count, rows);
    set_status(first, second, m, count, 1, 0, &mut status[..count]);
    if !can_end(rows, g.letters, count, &mut status[..count], cells) {
        return None;
    }
    let all = count * n;
    set_status(first, second, m, count, n, q, &mut status[..all]);
    Some(count)
}

// The next leading state, by codes from `from` on, that some period may end at, its table made and the status set.
fn next_candidate(
    first: &[u8],
    second: &[u8],
    t: Beside,
    n: usize,
    reached: usize,
    from: usize,
    rows: &mut [u16],
    status: &mut [u8],
    work: &mut [u64],
) -> Option<Candidate>
    requires alike { Alike first.now second.now × (t ≡ leads_of first.now second.now) }
    requires room { Room (difference first.now second.now) n (length rows.old) (length status.old)
        (length work.old - (n - 1)) }
    requires round { Round (difference first.now second.now) (take (n - 1) work.old) reached from }
    ensures { Next (difference first.now second.now) n reached from
        rows.new status.new work.old work.new result }
{
    let front = n - 1;
    for i in from..reached {
        let q = search::state_of(&work[..front], i, 0);
        if let Some(count) = prepare(first, second, t, n, q, rows, status, &mut work[front..]) {
            return Some(Candidate {
                code: i,
                state: q,
                count,
            });
        }
    }
    None
}

// The table of the leading states and, in the first cells, the codes of those reached; their number.
fn start(
    first: &[u8],
    second: &[u8],
    t: Beside,
    n: usize,
    leads: &mut [u16],
    status: &mut [u8],
    work: &mut [u64],
) -> usize
    requires { (rows : ℕ) × CanFind first.now second.now t n (length leads.old) rows (length status.old)
        (length work.old) }
    ensures { Started (difference first.now second.now) n t.letters leads.new work.new result }
{
    pairing::tabulate(first, second, t, n, leads);
    reach(leads, n, t.letters, &mut status[..n], &mut work[..n])
}

// The first lasso, by the codes that the cells have for it: the pairs of leading states in the order of their first
// prefixes, and for each the combinations in the order of their first periods. What is made for a pair stands in a
// function of its own that is called twice, so that it takes no registers from the inner loop.
fn find(
    first: &[u8],
    second: &[u8],
    t: Beside,
    n: usize,
    leads: &mut [u16],
    rows: &mut [u16],
    status: &mut [u8],
    work: &mut [u64],
) -> Codes
    requires { CanFind first.now second.now t n (length leads.old) (length rows.old) (length status.old)
        (length work.old) }
    ensures { Located (difference first.now second.now) work.new result }
{
    let front = n - 1;
    let reached = start(first, second, t, n, leads, status, work);
    let mut lasso = None;
    let mut next = next_candidate(first, second, t, n, reached, 0, rows, status, work);
    'search: while let Some(c) = next {
        let all = c.count * n;
        let mut total = 1;
        let mut h = 0;
        while h < total {
            match search::expand(
                leads,
                rows,
                n,
                t.letters,
                c.state,
                h,
                total,
                &mut status[..all],
                &mut work[front..],
            ) {
                Expansion::Ending(code) => {
                    let found = LassoCodes {
                        prefix: c.code,
                        period: code,
                    };
                    lasso = Some(found);
                    break 'search;
                }
                Expansion::On(codes) => {
                    total = codes;
                }
            }
            h += 1;
        }
        next = next_candidate(first, second, t, n, reached, c.code + 1, rows, status, work);
    }
    Codes { reached, lasso }
}

// The search with tables of so many cells and room for so many combinations. Each pair of sizes is called from one
// place in `locate`.
fn find_within<const TABLE: usize, const STATUS: usize>(
    first: &[u8],
    second: &[u8],
    t: Beside,
    n: usize,
    work: &mut [u64],
) -> Codes
    requires sizes { (TABLE ≤ 32768) × (STATUS ≤ 1048576) }
    requires room { CanFind first.now second.now t n TABLE TABLE STATUS (length work.old) }
    ensures { Located (difference first.now second.now) work.new result }
{
    let mut leads = [0u16; TABLE];
    let mut rows = [0u16; TABLE];
    let mut status = [0u8; STATUS];
    find(
        first,
        second,
        t,
        n,
        &mut leads,
        &mut rows,
        &mut status,
        work,
    )
}

// The first lasso by its codes. A player lends 8,192 cells, and needs no room for more combinations.
pub fn locate(first: &[u8], second: &[u8], sizes: PairSizes, work: &mut [u64]) -> Codes
    requires { Alike first.now second.now × (sizes ≡ sizes_of first.now second.now) ×
        (length work.old ≡ sizes.pairs + sizes.pairs * sizes.widest) }
    ensures { Located (difference first.now second.now) work.new result }
{
    let t = pairing::leads(first, second);
    let n = sizes.pairs;
    if work.len() > 8192 {
        return find_within::<32768, 1048576>(first, second, t, n, work);
    }
    if n * t.letters > 2048 || sizes.widest * t.letters > 2048 {
        return find_within::<32768, 8192>(first, second, t, n, work);
    }
    find_within::<2048, 8192>(first, second, t, n, work)
}
