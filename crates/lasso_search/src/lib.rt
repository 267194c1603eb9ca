// The first accepted, normalized lasso of the difference of two sheets: of their family of pairs, a pair being marked
// where the first sheet's state is and the second's is not.
#![tactic(auto)]

mod setting; // setting.rt: where a period may end
mod searching; // searching.rt: the search for the first lasso
mod telling; // telling.rt: the lasso that was found, written

ghost use Rattle.std.specs.Prelude.{◌≡◌, ◌+◌, ◌*◌, length, replicate};
ghost use Rattle.pairing.specs.Pairs.{Alike, sizes_of};
ghost use Rattle.lasso_search.specs.Reporting.{difference, Reports};

use pairing::PairSizes;
use searching::locate;
use slices::Refusal;
use telling::tell;

// R, and the lengths of the lasso that was written, 0 where there is none.
#[derive(Clone, Copy, Debug, PartialEq, Eq)]
pub struct Finding {
    pub reached: usize,
    pub prefix: usize,
    pub period: usize,
}

// What the search says: that there is no such lasso, of whatever length, or that it wrote the first one.
#[derive(Clone, Copy, Debug, PartialEq, Eq)]
pub enum Reported {
    Absent(Finding),
    Found(Finding),
}

// The codes of a lasso's prefix and period.
#[derive(Clone, Copy, Debug, PartialEq, Eq)]
pub struct LassoCodes {
    pub prefix: usize,
    pub period: usize,
}

// What the search found: R, and the codes of the first lasso.
#[derive(Clone, Copy, Debug, PartialEq, Eq)]
pub struct Codes {
    pub reached: usize,
    pub lasso: Option<LassoCodes>,
}

// A leading state to search from: its code, its number, and how many pairs of progress states it has.
#[derive(Clone, Copy, Debug, PartialEq, Eq)]
pub struct Candidate {
    pub code: usize,
    pub state: usize,
    pub count: usize,
}

// The search of two sheets with as many work cells as it needs, its answer, and the cells cleared.
pub fn first_lasso(
    first: &[u8],
    second: &[u8],
    sizes: PairSizes,
    opening: &mut [u8],
    period: &mut [u8],
    work: &mut [u64],
) -> Result<Reported, Refusal>
    requires { Alike first.now second.now × (sizes ≡ sizes_of first.now second.now) ×
        (length work.old ≡ sizes.pairs + sizes.pairs * sizes.widest) }
    ensures reports { Reports (difference first.now second.now)
        (record { opening = opening.old; period = period.old })
        (record { opening = opening.new; period = period.new })
        result }
    ensures clears { work.new ≡ replicate (length work.old) 0 }
{
    let found = locate(first, second, sizes, work);
    let reached = found.reached;
    let reported = match found.lasso {
        None => Ok(Reported::Absent(Finding {
            reached,
            prefix: 0,
            period: 0,
        })),
        Some(lasso) => tell(reached, lasso, sizes.pairs - 1, work, opening, period),
    };
    search::clear(work);
    reported
}
