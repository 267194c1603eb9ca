// What the verdict program decides of the bytes that came of two files: a sheet in any form, and a show's text.
#![tactic(auto)]

ghost use Rattle.std.specs.Prelude.{◌≡◌, length};
ghost use Rattle.slices.specs.declared.Part.TheVariants.{First};
ghost use Rattle.slices.specs.Refusals.{sound};
ghost use Rattle.packed.specs.Faults.{sheet_fault};
ghost use Rattle.membership.specs.Verdict.{says_of};
ghost use Rattle.verdict_files.specs.Judged.{file_verdict, of_sheet, sheet_of, judged};

use membership::Judgement;
use sheet_forms::{SHEET, form_in, pack};
use show_files::SCENES;
use slices::{Part, Refusal};

// The verdict on the show of a text, which is read into the slices.
fn read_and_judge(
    sheet: &[u8],
    show: &[u8],
    opening: &mut [u8],
    period: &mut [u8],
) -> Result<Judgement, Refusal>
    requires { sheet_fault First sheet.now ≡ sound }
    ensures { says_of result ≡ file_verdict sheet.now show.now (length opening.old)
        (length period.old) }
{
    let lengths = lasso_text::read(show, Part::Second, opening, period)?;
    membership::verdict(sheet, &opening[..lengths.prefix], &period[..lengths.period])
}

// The sheet first, then the text.
fn judge(sheet: &[u8], show: &[u8]) -> Result<Judgement, Refusal>
    ensures { says_of result ≡ file_verdict sheet.now show.now 4096 4096 }
{
    packed::check(sheet, Part::First)?;
    let mut opening = [0u8; SCENES];
    let mut period = [0u8; SCENES];
    read_and_judge(sheet, show, &mut opening, &mut period)
}

// The sheet that a file is, then the text.
fn judge_sheet(any: bool, sheet: &[u8], show: &[u8]) -> Result<Judgement, Refusal>
    ensures { says_of result ≡ of_sheet (sheet_of any sheet.now) show.now }
{
    let mut bytes = [0u8; SHEET];
    let n = pack(form_in(any, sheet), sheet, Part::First, &mut bytes)?;
    judge(&bytes[..n], show)
}

// Two files, of which so many bytes came.
pub fn judge_files(any: bool, sheet: &[u8], show: &[u8]) -> Result<Judgement, Refusal>
    ensures { says_of result ≡ judged any sheet.now show.now }
{
    console::check_lengths(sheet.len(), show.len())?;
    judge_sheet(any, sheet, show)
}
