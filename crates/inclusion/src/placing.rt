// What the search found, as the answer of a call: with where each sheet stands on the lasso.
ghost use Rattle.std.specs.Prelude.{◌≡◌};
ghost use Rattle.packed.specs.Layout.{letter_count, decode};
ghost use Rattle.pairing.specs.Pairs.{Alike};
ghost use Rattle.inclusion.specs.Placing.{LiesIn, placed_of, joined};

use crate::{Comparison, Outcome};
use lasso_search::{Finding, Reported};
use standing::{Standing, Standings, stand};

// What was found, and where the two sheets stand on it.
fn join(z: Finding, s: Standings) -> Comparison
    ensures { result ≡ joined z s }
{
    Comparison {
        reached: z.reached,
        prefix: z.prefix,
        period: z.period,
        first: s.first,
        second: s.second,
    }
}

// The answer for what the search found: a lasso is walked in both sheets as it lies in the slices.
pub fn placed(
    first: &[u8],
    second: &[u8],
    found: Reported,
    opening: &[u8],
    period: &[u8],
) -> Outcome
    requires { Alike first.now second.now × LiesIn (letter_count first.now)
        (record { opening = opening.now; period = period.now }) found }
    ensures { result ≡ placed_of (decode first.now) (decode second.now)
        (record { opening = opening.now; period = period.now }) found }
{
    match found {
        Reported::Absent(z) => {
            let nowhere = Standing { waits: 0, ends: 0 };
            let nowheres = Standings {
                first: nowhere,
                second: nowhere,
            };
            Outcome::Absent(join(z, nowheres))
        }
        Reported::Found(z) => {
            let u = &opening[..z.prefix];
            let v = &period[..z.period];
            Outcome::Found(join(z, stand(first, second, u, v)))
        }
    }
}
