// Where two sheets stand on a lasso: for each the leading state after the prefix, and where the progress automaton of
// that state ends after one turn of the period.
#![tactic(auto)]

ghost use Rattle.std.specs.Prelude.{◌≡◌};
ghost use Rattle.fdfa.specs.Family.{Lasso};
ghost use Rattle.fdfa.specs.Enumeration.{lasso};
ghost use Rattle.packed.specs.Layout.{letter_count, decode};
ghost use Rattle.pairing.specs.Pairs.{Alike};
ghost use Rattle.standing.specs.Structs.{standings_of};
ghost use Rattle.standing.specs.Walks.{WalksWithin, walked_of};

use pairing::Beside;

// Where one sheet stands.
#[derive(Clone, Copy, Debug, PartialEq, Eq)]
pub struct Standing {
    pub waits: usize,
    pub ends: usize,
}

#[derive(Clone, Copy, Debug, PartialEq, Eq)]
pub struct Standings {
    pub first: Standing,
    pub second: Standing,
}

// A state of each of two automata.
#[derive(Clone, Copy, Debug, PartialEq, Eq)]
struct Pair {
    first: usize,
    second: usize,
}

// Where two automata stand after the word, from their starts. Their tables are read where they lie: most lassos that
// are found are short, and for these a copy by letter (packed::columns) would take longer than the walk.
fn walk(first: &[u8], second: &[u8], t: Beside, word: &[u8]) -> Pair
    requires { WalksWithin first.now t.first t.letters word.now × WalksWithin second.now t.second t.letters word.now }
    ensures { result ≡ walked_of first.now second.now t word.now }
{
    let mut p = 0;
    let mut q = 0;
    for &letter in word {
        let a = usize::from(letter);
        p = packed::next(first, t.first, t.letters, p, a);
        q = packed::next(second, t.second, t.letters, q, a);
    }
    Pair {
        first: p,
        second: q,
    }
}

// Where two sheets with the same letters stand on a lasso over these.
pub fn stand(first: &[u8], second: &[u8], prefix: &[u8], period: &[u8]) -> Standings
    requires { Alike first.now second.now × Lasso (letter_count first.now) prefix.now period.now }
    ensures { result ≡ standings_of (decode first.now) (decode second.now) (lasso prefix.now period.now) }
{
    let waits = walk(first, second, pairing::leads(first, second), prefix);
    let tables = pairing::progress(first, second, waits.first, waits.second);
    let ends = walk(first, second, tables, period);
    Standings {
        first: Standing {
            waits: waits.first,
            ends: ends.first,
        },
        second: Standing {
            waits: waits.second,
            ends: ends.second,
        },
    }
}
