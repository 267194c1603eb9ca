// Two packed sheets side by side: their sizes, where the tables and marks of a pair of automata begin, and the next
// pair of states by a letter. The pair (p, q) has the number p × width + q, where the second automaton has `width`
// states.
#![tactic(auto)]

mod tabulating; // tabulating.rt: the next pairs of many pairs, as one table

ghost use Rattle.std.specs.Prelude.{◌≡◌, ◌<◌};
ghost use Rattle.slices.specs.Refusals.{unless};
ghost use Rattle.packed.specs.Layout.{state_count};
ghost use Rattle.packed.specs.Faults.{pair_fault};
ghost use Rattle.pairing.specs.Pairs.{next_pair_of, leads_of, progress_of, marks_of, Reads, Alike, sizes_of};

use slices::Refusal;
pub use tabulating::tabulate;

// Two automata side by side: where the tables, or the marks, of each begin in its sheet, the number of letters, and the
// size of the second.
#[derive(Clone, Copy, Debug, PartialEq, Eq)]
pub struct Beside {
    pub first: usize,
    pub second: usize,
    pub letters: usize,
    pub width: usize,
}

// The sizes of two sheets with the same letters: the leading states of each, the pairs of those (N), and the largest
// number of pairs of progress states (K).
#[derive(Clone, Copy, Debug, PartialEq, Eq)]
pub struct PairSizes {
    pub letters: usize,
    pub first: usize,
    pub second: usize,
    pub pairs: usize,
    pub widest: usize,
}

// The first sheet, then the second, then that both have the same letters.
pub fn check(first: &[u8], second: &[u8]) -> Result<PairSizes, Refusal>
    ensures { result ≡ unless (pair_fault first.now second.now) (sizes_of first.now second.now) }
{
    let sizes = packed::check_pair(first, second)?;
    Ok(PairSizes {
        letters: sizes.first.letters,
        first: sizes.first.states,
        second: sizes.second.states,
        pairs: sizes.first.states * sizes.second.states,
        widest: sizes.first.widest * sizes.second.widest,
    })
}

// The tables of the leading automata.
pub fn leads(first: &[u8], second: &[u8]) -> Beside
    requires { Alike first.now second.now }
    ensures { result ≡ leads_of first.now second.now }
{
    let n = packed::states(first);
    let m = packed::states(second);
    Beside {
        first: 2 + n,
        second: 2 + m,
        letters: packed::letters(first),
        width: m,
    }
}

// The tables of the progress automata of the leading states p and q.
pub fn progress(first: &[u8], second: &[u8], p: usize, q: usize) -> Beside
    requires { Alike first.now second.now × (p < state_count first.now) × (q < state_count second.now) }
    ensures { result ≡ progress_of first.now second.now p q }
{
    Beside {
        first: packed::progress_at(first, p),
        second: packed::progress_at(second, q),
        letters: packed::letters(first),
        width: packed::size(second, q),
    }
}

// Their marks, which stand behind the tables.
pub fn marks(first: &[u8], second: &[u8], p: usize, q: usize) -> Beside
    requires { Alike first.now second.now × (p < state_count first.now) × (q < state_count second.now) }
    ensures { result ≡ marks_of first.now second.now p q }
{
    let t = progress(first, second, p, q);
    let k = packed::size(first, p);
    Beside {
        first: t.first + k * t.letters,
        second: t.second + t.width * t.letters,
        letters: t.letters,
        width: t.width,
    }
}

// The next pair of the pair x by the letter a.
pub fn next_pair(first: &[u8], second: &[u8], t: Beside, x: usize, a: usize) -> usize
    requires { Reads first.now second.now t x × (a < t.letters) }
    ensures { result ≡ next_pair_of first.now second.now t x a }
{
    let p = packed::next(first, t.first, t.letters, x / t.width, a);
    let q = packed::next(second, t.second, t.letters, x % t.width, a);
    p * t.width + q
}
