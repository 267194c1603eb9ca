// The show and the seconds, judged before any of it is measured.
ghost use Rattle.std.specs.Prelude.{◌≡◌};
ghost use Rattle.slices.specs.declared.Part.TheVariants.{Opening, Loop};
ghost use Rattle.slices.specs.Refusals.{◌then◌, fault_in};
ghost use Rattle.running_sheet.specs.Writing.{long_fault, cell_fault, input_fault};

use slices::{Part, Reason, Refusal, check_lasso, check_seconds, refuse};

// The most scenes of a part.
const MOST: usize = 65536;

// How long both parts are.
fn check_lengths(prefix: &[u8], period: &[u8]) -> Result<(), Refusal>
    ensures { fault_in result ≡
        (long_fault Opening prefix.now then long_fault Loop period.now) }
{
    if MOST < prefix.len() {
        return Err(refuse(Reason::PartTooLong, Part::Opening, MOST));
    }
    if MOST < period.len() {
        return Err(refuse(Reason::PartTooLong, Part::Loop, MOST));
    }
    Ok(())
}

// Every cell, then the lengths.
fn check_cells(prefix: &[u8], period: &[u8], seconds: &[u16]) -> Result<(), Refusal>
    ensures { fault_in result ≡ (cell_fault seconds.now then
        long_fault Opening prefix.now then long_fault Loop period.now) }
{
    check_seconds(seconds, seconds.len())?;
    check_lengths(prefix, period)
}

// The letters, of which each has a cell, then the cells and the lengths.
pub fn check_show(prefix: &[u8], period: &[u8], seconds: &[u16]) -> Result<(), Refusal>
    ensures { fault_in result ≡ input_fault prefix.now period.now seconds.now }
{
    check_lasso(prefix, period, seconds.len())?;
    check_cells(prefix, period, seconds)
}
