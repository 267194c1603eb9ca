// The lasso that was found, written where it fits.
ghost use Rattle.lasso_search.specs.Codes.{CanTell, Tells};

use crate::{Finding, LassoCodes, Reported};
use slices::{Part, Reason, Refusal, refuse};

// Writes the lasso that has the codes.
pub fn tell(
    reached: usize,
    lasso: LassoCodes,
    front: usize,
    work: &[u64],
    opening: &mut [u8],
    period: &mut [u8],
) -> Result<Reported, Refusal>
    requires { CanTell front work.now lasso }
    ensures { Tells front work.now lasso reached
        (record { opening = opening.old; period = period.old })
        (record { opening = opening.new; period = period.new })
        result }
{
    let u = search::depth(&work[..front], lasso.prefix);
    let v = search::depth(&work[front..], lasso.period);
    if opening.len() < u {
        return Err(refuse(Reason::FoundTooLong, Part::Opening, u));
    }
    if period.len() < v {
        return Err(refuse(Reason::FoundTooLong, Part::Loop, v));
    }
    search::fill(&work[..front], lasso.prefix, u, opening);
    search::fill(&work[front..], lasso.period, v, period);
    Ok(Reported::Found(Finding {
        reached,
        prefix: u,
        period: v,
    }))
}
