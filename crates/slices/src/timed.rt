// The seconds of letters, judged.
ghost use Rattle.slices.specs.Refusals.{fault_in};
ghost use Rattle.std.specs.Prelude.{◌≡◌, ◌≤◌, length};
ghost use Rattle.slices.specs.Scans.{first_outside_of};
ghost use Rattle.slices.specs.Seconds.{seconds_fault};

use crate::scanning::is_outside;
use crate::{Part, Reason, Refusal, refuse};

// How many of the first `count` cells come before the first that is not from 1 to 999.
fn first_untimed(seconds: &[u16], count: usize) -> usize
    requires { count ≤ length seconds.now }
    ensures { result ≡ first_outside_of 1 1000 seconds.now 0 count }
{
    seconds[..count]
        .iter()
        .position(|&x| is_outside(1, 1000, usize::from(x)))
        .unwrap_or(count)
}

// Judges the seconds of `count` letters: whether there are as many cells, and each of them is from 1 to 999.
pub fn check_seconds(seconds: &[u16], count: usize) -> Result<(), Refusal>
    ensures { fault_in result ≡ seconds_fault count seconds.now }
{
    if seconds.len() < count {
        return Err(refuse(Reason::TooLittleRoom, Part::Seconds, count));
    }
    let i = first_untimed(seconds, count);
    if i < count {
        return Err(refuse(Reason::SecondsRange, Part::Seconds, i));
    }
    Ok(())
}
