// The packed sheet of an automaton's family: of s letters and n states, by where its transitions lead and which of its
// states are accepting (1 in `finals`). Each function answers the place after the cells that it fills.
ghost use Rattle.std.specs.Prelude.{◌≡◌, cond, ℕ, ◌+◌, ◌*◌, ◌-◌, ◌%◌, ◌≤◌, ◌<◌, eqb, length, get_or};
ghost use Rattle.slices.specs.Tables.{tab, rows, table};
ghost use Rattle.fdfa.specs.Buchi.{pair_flag, from_buchi};
ghost use Rattle.packed.specs.Layout.{mark, part_bytes, pack};
ghost use Rattle.numbers.specs.Storing.{Stored};
ghost use Rattle.buchi_import.specs.Steps.{automaton_in, Stocked};

use numbers::put;

// How long it is.
pub fn sheet_len(s: usize, n: usize) -> usize
    requires { (s ≤ 32) × (n ≤ 16) }
    ensures { result ≡ 2 + n + n * s + n * (2 * n * (s + 1)) }
{
    2 + n + n * s + n * (2 * n * (s + 1))
}

// In the progress automaton of q, the number of the pair of state r and flag b, 0 or 1.
fn pair_number(n: usize, q: usize, r: usize, b: usize) -> usize
    requires { (q < n) × (n ≤ 16) × (r < n) × (b ≤ 1) }
    ensures { result ≡ 2 * ((r + n - q) % n) + b }
{
    2 * ((r + n - q) % n) + b
}

// The flag after state r is entered.
fn flagged(finals: &[u8], r: usize, b: usize) -> usize
    requires { r < length finals.now }
    ensures { result ≡ cond (eqb (get_or finals.now r 0) 1) 1 b }
{
    if finals[r] == 1 { 1 } else { b }
}

// Where the progress automaton of q goes from the pair p by the letter a.
fn next_pair(
    targets: &[u16],
    finals: &[u8],
    s: usize,
    n: usize,
    q: usize,
    p: usize,
    a: usize,
) -> usize
    requires { Stocked s n targets.now finals.now × (q < n) × (p < 2 * n) × (a < s) }
    ensures { (result ≡ (from_buchi (automaton_in s n targets.now finals.now)).progress q p a) × (result < 256) }
{
    let r = usize::from(targets[(p / 2 + q) % n * s + a]);
    pair_number(n, q, r, flagged(finals, r, p % 2))
}

// The next states of the progress automaton of q.
fn put_progress(
    targets: &[u16],
    finals: &[u8],
    s: usize,
    n: usize,
    q: usize,
    out: &mut [u8],
    at: usize,
) -> usize
    requires { Stocked s n targets.now finals.now × (q < n) × (at ≤ 40000) }
    ensures { Stored out.old at (table (2 * n) s ((from_buchi
        (automaton_in s n targets.now finals.now)).progress q)) out.new result }
{
    let mut w = at;
    for p in 0..2 * n {
        for a in 0..s {
            w = put(out, w, next_pair(targets, finals, s, n, q, p, a) as u8);
        }
    }
    w
}

// The marks of a progress automaton: those of the pairs whose flag is 1.
fn put_flags(n: usize, out: &mut [u8], at: usize) -> usize
    requires { (n ≤ 16) × (at ≤ 60000) }
    ensures { Stored out.old at (tab (2 * n) (λ p. mark (pair_flag p))) out.new result }
{
    let mut w = at;
    for pair in 0..2 * n {
        w = put(out, w, (pair % 2) as u8);
    }
    w
}

// The parts of all progress automata.
fn put_parts(targets: &[u16], finals: &[u8], s: usize, n: usize, out: &mut [u8], at: usize) -> usize
    requires { Stocked s n targets.now finals.now × (at ≤ 1000) }
    ensures { Stored out.old at (rows n (part_bytes (from_buchi
        (automaton_in s n targets.now finals.now)))) out.new result }
{
    let mut w = at;
    for q in 0..n {
        let e = put_progress(targets, finals, s, n, q, out, w);
        w = put_flags(n, out, e);
    }
    w
}

// The sizes of the progress automata.
fn put_sizes(n: usize, out: &mut [u8], at: usize) -> usize
    requires { (n ≤ 16) × (at ≤ 1000) }
    ensures { Stored out.old at (tab n (λ q. 2 * n)) out.new result }
{
    let mut w = at;
    for _ in 0..n {
        w = put(out, w, (2 * n) as u8);
    }
    w
}

// The leading table.
fn put_leading(targets: &[u16], count: usize, out: &mut [u8], at: usize) -> usize
    requires { (count ≤ length targets.now) × (count ≤ 512) × (at ≤ 1000) ×
        ((i : ℕ) → i < count → get_or targets.now i 0 < 256) }
    ensures { Stored out.old at (tab count (λ i. get_or targets.now i 0)) out.new result }
{
    let mut w = at;
    for &r in &targets[..count] {
        w = put(out, w, r as u8);
    }
    w
}

// The whole sheet.
pub fn put_sheet(targets: &[u16], finals: &[u8], s: usize, n: usize, out: &mut [u8]) -> usize
    requires { Stocked s n targets.now finals.now }
    ensures { Stored out.old 0 (pack (from_buchi (automaton_in s n targets.now finals.now))) out.new result }
{
    let a = put(out, 0, s as u8);
    let b = put(out, a, n as u8);
    let c = put_sizes(n, out, b);
    let d = put_leading(targets, n * s, out, c);
    put_parts(targets, finals, s, n, out, d)
}
