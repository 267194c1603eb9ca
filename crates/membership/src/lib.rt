// Membership of a lasso: whether a family of DFAs accepts the pair of a prefix and a period, with its normalization.
#![tactic(auto)]

ghost use Rattle.std.specs.Prelude.{◌≡◌, Err, ◌<◌};
ghost use Rattle.fdfa.specs.Words.{Over};
ghost use Rattle.packed.specs.Layout.{letter_count, state_count, decode, Valid};
ghost use Rattle.packed.specs.Faults.{sizes_of};
ghost use Rattle.prefix_pass.specs.Steps.{Stepping};
ghost use Rattle.membership.specs.Verdict.{verdict_of, says_of};
ghost use Rattle.membership.specs.Steps.{checked_lasso, judged_lasso, turns_from, Turning, Returns};
ghost use Rattle.membership.specs.Steps.{ended_of};

use packed::Sizes;
use prefix_pass::{Held, pass_on, start};
use slices::{Part, Reason, Refusal, check_period, refuse};

// The verdict: whether the lasso is accepted, i and j, the leading state it waits at, the progress state it ends at.
#[derive(Clone, Copy, Debug, PartialEq, Eq)]
pub struct Judgement {
    pub accepted: bool,
    pub i: usize,
    pub j: usize,
    pub state: usize,
    pub end: usize,
}

// The normalization of a lasso: i, j and q.
#[derive(Clone, Copy, Debug, PartialEq, Eq)]
struct Normalization {
    i: usize,
    j: usize,
    state: usize,
}

// Where the progress automaton ends, and whether it accepts there.
#[derive(Clone, Copy, Debug, PartialEq, Eq)]
struct Ended {
    end: usize,
    accepted: bool,
}

// Whether the words are a lasso over the letters: the prefix in one pass by the leading table, then the period.
fn check(table: &[u8], letters: usize, prefix: &[u8], period: &[u8]) -> Result<usize, Refusal>
    requires { Stepping table.now letters }
    ensures { result ≡ checked_lasso table.now letters prefix.now period.now }
{
    match pass_on(table, letters, start(), prefix) {
        Held::Unknown(i) => Err(refuse(Reason::UnknownLetter, Part::Opening, i)),
        Held::Reached { state, .. } => {
            check_period(period, letters)?;
            Ok(state)
        }
    }
}

// Goes by the period from a state until a state comes again. `seen` has, for each state, one more than the turns after
// which it was first there.
fn normalize(table: &[u8], state: usize, period: &[u8]) -> Normalization
    requires { Turning table.now state period.now }
    ensures { Returns (turns_from table.now state period.now) result }
{
    let mut seen = [0usize; 32];
    let mut q = state;
    let mut t = 0;
    while seen[q] == 0 {
        seen[q] = t + 1;
        q = packed::walk(table, q, period);
        t += 1;
    }
    let i = seen[q] - 1;
    Normalization {
        i,
        j: t - i,
        state: q,
    }
}

// Runs the progress automaton of q over `count` turns of the period, from its start.
fn progress(sheet: &[u8], letters: usize, q: usize, period: &[u8], count: usize) -> Ended
    requires valid { Valid sheet.now × Over (letter_count sheet.now) period.now × (q < state_count sheet.now) }
    requires letters_value { letters ≡ letter_count sheet.now }
    ensures { result ≡ ended_of (decode sheet.now) period.now q count }
{
    let at = packed::progress_at(sheet, q);
    let k = packed::size(sheet, q);
    let table = packed::columns(sheet, at, letters, k);
    let mut end = 0;
    for _ in 0..count {
        end = packed::walk(&table, end, period);
    }
    let marks = at + k * letters;
    Ended {
        end,
        accepted: packed::is_marked(sheet, marks, end),
    }
}

// A check that refused, as the answer.
fn refused(checked: Result<usize, Refusal>) -> Result<Judgement, Refusal>
    ensures { (r : Refusal) → checked ≡ Err r → result ≡ Err r }
{
    checked.map(|state| Judgement {
        accepted: false,
        i: 0,
        j: 0,
        state,
        end: 0,
    })
}

// The verdict of a good sheet: the walk over the period goes on from where the pass over the prefix came to.
fn judge(sheet: &[u8], z: Sizes, prefix: &[u8], period: &[u8]) -> Result<Judgement, Refusal>
    requires { Valid sheet.now × (z ≡ sizes_of sheet.now) }
    ensures { says_of result ≡ judged_lasso sheet.now prefix.now period.now }
{
    let table = packed::columns(sheet, 2 + z.states, z.letters, z.states);
    let checked = check(&table, z.letters, prefix, period);
    let Ok(state) = checked else {
        return refused(checked);
    };
    let n = normalize(&table, state, period);
    let ended = progress(sheet, z.letters, n.state, period, n.j);
    Ok(Judgement {
        accepted: ended.accepted,
        i: n.i,
        j: n.j,
        state: n.state,
        end: ended.end,
    })
}

// The verdict of the sheet's family on the lasso (01: the show), or the refusal.
pub fn verdict(sheet: &[u8], prefix: &[u8], period: &[u8]) -> Result<Judgement, Refusal>
    ensures { says_of result ≡ verdict_of sheet.now prefix.now period.now }
{
    let z = packed::check(sheet, Part::First)?;
    judge(sheet, z, prefix, period)
}
