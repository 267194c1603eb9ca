// The calls for players in C: the verdict, and the comparison with cells of its own. Each returns 0, and changes
// nothing, where the answer slice is too short; else 1.
#![tactic(auto)]

ghost use Rattle.std.specs.Prelude.{◌≡◌};
ghost use Rattle.membership.specs.Verdict.{verdict_of, says_of};
ghost use Rattle.answers.specs.Layout.{numbers_of, padded, Told};
ghost use Rattle.players.specs.Calls.{verdict_numbers_of, ComparisonTold};

use answers::{SHORT, refusal_numbers, tell};
use c_search::fdfa_compare_in;
use membership::Judgement;
use slices::Refusal;

// The bytes of the verdict's answer.
const VERDICT: usize = 48;

// The cells of work that the comparison brings.
const CELLS: usize = 8192;

fn verdict_numbers(judgement: Result<Judgement, Refusal>) -> [u64; 6]
    ensures { result ≡ padded 6 (numbers_of verdict_numbers_of (says_of judgement)) }
{
    match judgement {
        Ok(v) => [
            0,
            v.accepted as u64,
            v.i as u64,
            v.j as u64,
            v.state as u64,
            v.end as u64,
        ],
        Err(r) => refusal_numbers(r),
    }
}

// The verdict on a lasso (01: a show).
#[unsafe(no_mangle)]
pub extern "C" fn fdfa_verdict(sheet: &[u8], prefix: &[u8], period: &[u8], answer: &mut [u8]) -> u32
    ensures { Told 6 (numbers_of verdict_numbers_of
        (verdict_of sheet.now prefix.now period.now))
        answer.old answer.new result }
{
    if answer.len() < VERDICT {
        return SHORT;
    }
    let judgement = membership::verdict(sheet, prefix, period);
    let numbers = verdict_numbers(judgement);
    tell(&numbers, answer)
}

// The comparison of two sheets; the first counterexample goes to `prefix` and `period`.
#[unsafe(no_mangle)]
pub extern "C" fn fdfa_compare(
    first: &[u8],
    second: &[u8],
    prefix: &mut [u8],
    period: &mut [u8],
    answer: &mut [u8],
) -> u32
    ensures { ComparisonTold first.now second.now
        (record { prefix = prefix.old; period = period.old; answer = answer.old })
        (record { prefix = prefix.new; period = period.new; answer = answer.new })
        result }
{
    let mut work = [0u64; CELLS];
    fdfa_compare_in(first, second, prefix, period, &mut work, answer)
}
