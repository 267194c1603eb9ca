// For C, by c_search_c and players: the comparison of two sheets and the test of emptiness, in lent cells of work. Each
// call returns 0, and changes nothing, where the answer slice is too short; else 1.
#![tactic(auto)]

ghost use Rattle.std.specs.Prelude.{◌≡◌, ◌∷◌};
ghost use Rattle.answers.specs.Layout.{numbers_of, padded};
ghost use Rattle.c_search.specs.Searches.{comparison_numbers_of, search_numbers_of, ComparedTold, EmptiedTold};

use answers::{SHORT, refusal_numbers, tell};
use inclusion::{Comparison, Outcome};
use slices::Refusal;

// The bytes of both answers.
const ANSWER: usize = 72;

// The numbers of a search that was made; `found` is 0 or 1.
fn given_numbers(found: u64, z: Comparison) -> [u64; 9]
    ensures { result ≡ 0 ∷ comparison_numbers_of found z }
{
    [
        0,
        found,
        z.reached as u64,
        z.prefix as u64,
        z.period as u64,
        z.first.waits as u64,
        z.first.ends as u64,
        z.second.waits as u64,
        z.second.ends as u64,
    ]
}

fn search_numbers(outcome: Result<Outcome, Refusal>) -> [u64; 9]
    ensures { result ≡ padded 9 (numbers_of search_numbers_of outcome) }
{
    match outcome {
        Ok(Outcome::Absent(z)) => given_numbers(0, z),
        Ok(Outcome::Found(z)) => given_numbers(1, z),
        Err(r) => refusal_numbers(r),
    }
}

// The comparison of two sheets; the first counterexample goes to `prefix` and `period`.
pub fn fdfa_compare_in(
    first: &[u8],
    second: &[u8],
    prefix: &mut [u8],
    period: &mut [u8],
    work: &mut [u64],
    answer: &mut [u8],
) -> u32
    ensures { ComparedTold first.now second.now
        (record {
          prefix = prefix.old;
          period = period.old;
          work = work.old;
          answer = answer.old;
        })
        (record {
          prefix = prefix.new;
          period = period.new;
          work = work.new;
          answer = answer.new;
        })
        result }
{
    if answer.len() < ANSWER {
        return SHORT;
    }
    let outcome = inclusion::compare(first, second, prefix, period, work);
    let numbers = search_numbers(outcome);
    tell(&numbers, answer)
}

// The test of emptiness; the first accepted lasso goes to `prefix` and `period`.
pub fn fdfa_emptiness(
    sheet: &[u8],
    prefix: &mut [u8],
    period: &mut [u8],
    work: &mut [u64],
    answer: &mut [u8],
) -> u32
    ensures { EmptiedTold sheet.now
        (record {
          prefix = prefix.old;
          period = period.old;
          work = work.old;
          answer = answer.old;
        })
        (record {
          prefix = prefix.new;
          period = period.new;
          work = work.new;
          answer = answer.new;
        })
        result }
{
    if answer.len() < ANSWER {
        return SHORT;
    }
    let outcome = inclusion::emptiness(sheet, prefix, period, work);
    let numbers = search_numbers(outcome);
    tell(&numbers, answer)
}
