// Inclusion of two sheets with the first counterexample, and emptiness of one.
#![tactic(auto)]

mod placing; // placing.rt: what the search found, with where each sheet stands on it

ghost use Rattle.std.specs.Prelude.{◌≡◌};
ghost use Rattle.packed.specs.Layout.{Valid, decode};
ghost use Rattle.packed.specs.Faults.{sizes_of};
ghost use Rattle.pairing.specs.Pairs as pairs;
ghost use Rattle.pairing.specs.Pairs.{Alike};
ghost use Rattle.fdfa.specs.Inclusion.{comparison, emptiness};
ghost use Rattle.inclusion.specs.Calls.{Compared, Emptied, Searched, compare_cells, empty_cells};

use lasso_search::first_lasso;
use packed::Sizes;
use pairing::PairSizes;
use placing::placed;
use slices::{Part, Reason, Refusal, refuse};
pub use standing::Standing;

// R, the lengths of the lasso that was written, and where each sheet stands on it; 0 where there is no lasso or no
// second sheet.
#[derive(Clone, Copy, Debug, PartialEq, Eq)]
pub struct Comparison {
    pub reached: usize,
    pub prefix: usize,
    pub period: usize,
    pub first: Standing,
    pub second: Standing,
}

// What a call says: that there is no such lasso, of whatever length, or that it wrote the first one.
#[derive(Clone, Copy, Debug, PartialEq, Eq)]
pub enum Outcome {
    Absent(Comparison),
    Found(Comparison),
}

// Whether the first sheet is contained in the second: whether every lasso that is normalized in both and accepted by
// the first is accepted by the second. Otherwise the first that is not is written, and the answer says where both
// sheets stand on it.
pub fn compare(
    first: &[u8],
    second: &[u8],
    opening: &mut [u8],
    period: &mut [u8],
    work: &mut [u64],
) -> Result<Outcome, Refusal>
    ensures { Compared first.now second.now
        (record { opening = opening.old; period = period.old; work = work.old })
        (record { opening = opening.new; period = period.new; work = work.new })
        result }
{
    let sizes = pairing::check(first, second)?;
    search_cells(first, second, sizes, opening, period, work)
}

// The search in the N + N × K cells that it needs, or the refusal of too few.
fn search_cells(
    first: &[u8],
    second: &[u8],
    sizes: PairSizes,
    opening: &mut [u8],
    period: &mut [u8],
    work: &mut [u64],
) -> Result<Outcome, Refusal>
    requires { Alike first.now second.now × (sizes ≡ pairs.sizes_of first.now second.now) }
    ensures { Searched (comparison (decode first.now) (decode second.now)) (compare_cells first.now second.now)
        (record { opening = opening.old; period = period.old; work = work.old })
        (record { opening = opening.new; period = period.new; work = work.new })
        result }
{
    let cells = sizes.pairs + sizes.pairs * sizes.widest;
    let lent = work.len();
    if lent < cells {
        return Err(refuse(Reason::TooFewCells, Part::Work, cells));
    }
    let found = first_lasso(first, second, sizes, opening, period, &mut work[..cells])?;
    Ok(placed(first, second, found, opening, period))
}

// The first accepted, normalized lasso: emptiness as inclusion in the family with one state everywhere that accepts
// nothing, and that stands at 0 on every lasso.
fn accepted_lasso(
    sheet: &[u8],
    sizes: Sizes,
    opening: &mut [u8],
    period: &mut [u8],
    work: &mut [u64],
) -> Result<Outcome, Refusal>
    requires { Valid sheet.now × (sizes ≡ sizes_of sheet.now) }
    ensures { Searched (emptiness (decode sheet.now)) (empty_cells sheet.now)
        (record { opening = opening.old; period = period.old; work = work.old })
        (record { opening = opening.new; period = period.new; work = work.new })
        result }
{
    let letters = sizes.letters;
    let mut nothing = [0u8; 68];
    nothing[0] = letters as u8;
    nothing[1] = 1;
    nothing[2] = 1;
    let end = 4 + 2 * letters;
    let pair = PairSizes {
        letters,
        first: sizes.states,
        second: 1,
        pairs: sizes.states,
        widest: sizes.widest,
    };
    search_cells(sheet, &nothing[..end], pair, opening, period, work)
}

// Whether the sheet accepts no lasso at all. Otherwise the first that is normalized and accepted is written.
pub fn emptiness(
    sheet: &[u8],
    opening: &mut [u8],
    period: &mut [u8],
    work: &mut [u64],
) -> Result<Outcome, Refusal>
    ensures { Emptied sheet.now
        (record { opening = opening.old; period = period.old; work = work.old })
        (record { opening = opening.new; period = period.new; work = work.new })
        result }
{
    let sizes = packed::check(sheet, Part::First)?;
    accepted_lasso(sheet, sizes, opening, period, work)
}
