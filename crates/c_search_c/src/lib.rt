// For C: c_search's calls under their names, as a static library has them; c_search itself stays a library, which
// players uses.
#![tactic(auto)]

ghost use Rattle.c_search.specs.Searches.{ComparedTold, EmptiedTold};

// The comparison of two sheets; the first counterexample goes to `prefix` and `period`.
#[unsafe(no_mangle)]
pub extern "C" fn fdfa_compare_in(
    first: &[u8],
    second: &[u8],
    prefix: &mut [u8],
    period: &mut [u8],
    work: &mut [u64],
    answer: &mut [u8],
) -> u32
    ensures { ComparedTold first.now second.now
        (record {
          prefix = prefix.old;
          period = period.old;
          work = work.old;
          answer = answer.old;
        })
        (record {
          prefix = prefix.new;
          period = period.new;
          work = work.new;
          answer = answer.new;
        })
        result }
{
    c_search::fdfa_compare_in(first, second, prefix, period, work, answer)
}

// The test of emptiness; the first accepted lasso goes to `prefix` and `period`.
#[unsafe(no_mangle)]
pub extern "C" fn fdfa_emptiness(
    sheet: &[u8],
    prefix: &mut [u8],
    period: &mut [u8],
    work: &mut [u64],
    answer: &mut [u8],
) -> u32
    ensures { EmptiedTold sheet.now
        (record {
          prefix = prefix.old;
          period = period.old;
          work = work.old;
          answer = answer.old;
        })
        (record {
          prefix = prefix.new;
          period = period.new;
          work = work.new;
          answer = answer.new;
        })
        result }
{
    c_search::fdfa_emptiness(sheet, prefix, period, work, answer)
}
