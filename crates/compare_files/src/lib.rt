// What the comparison program decides of the bytes that came of two files, sheets in any form, with the room that it
// has.
#![tactic(auto)]

ghost use Rattle.std.specs.Prelude.{◌≡◌, length, Ok};
ghost use Rattle.compare_files.specs.Decided.{compared_in, of_sheets, first_sheet, second_sheet, decided, Decides};

use inclusion::Outcome;
use sheet_forms::{SHEET, form_in, pack};
use slices::{Part, Refusal};

const CELLS: usize = 8192;

// Two packed sheets.
fn compare_packed(
    first: &[u8],
    second: &[u8],
    opening: &mut [u8],
    period: &mut [u8],
) -> Result<Outcome, Refusal>
    requires { (length opening.old ≡ 4096) × (length period.old ≡ 4096) }
    ensures { Decides (compared_in first.now second.now) opening.new period.new result }
{
    let mut work = [0u64; CELLS];
    inclusion::compare(first, second, opening, period, &mut work)
}

// A packed sheet, and the sheet of the second file.
fn compare_second(
    first: &[u8],
    any: bool,
    second: &[u8],
    opening: &mut [u8],
    period: &mut [u8],
) -> Result<Outcome, Refusal>
    requires { (length opening.old ≡ 4096) × (length period.old ≡ 4096) }
    ensures { Decides (of_sheets (Ok first.now) (second_sheet any second.now)) opening.new period.new result }
{
    let mut sheet = [0u8; SHEET];
    let n = pack(form_in(any, second), second, Part::Second, &mut sheet)?;
    compare_packed(first, &sheet[..n], opening, period)
}

// The sheets of two files.
fn compare_first(
    any: bool,
    first: &[u8],
    second: &[u8],
    opening: &mut [u8],
    period: &mut [u8],
) -> Result<Outcome, Refusal>
    requires { (length opening.old ≡ 4096) × (length period.old ≡ 4096) }
    ensures { Decides (of_sheets (first_sheet any first.now) (second_sheet any second.now))
        opening.new period.new result }
{
    let mut sheet = [0u8; SHEET];
    let n = pack(form_in(any, first), first, Part::First, &mut sheet)?;
    compare_second(&sheet[..n], any, second, opening, period)
}

// Two files, of which so many bytes came.
pub fn decide(
    any: bool,
    first: &[u8],
    second: &[u8],
    opening: &mut [u8],
    period: &mut [u8],
) -> Result<Outcome, Refusal>
    requires { (length opening.old ≡ 4096) × (length period.old ≡ 4096) }
    ensures { Decides (decided any first.now second.now) opening.new period.new result }
{
    console::check_lengths(first.len(), second.len())?;
    compare_first(any, first, second, opening, period)
}
