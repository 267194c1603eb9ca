// What the program prints, and what it says on standard error.
ghost use Rattle.std.specs.Prelude.{◌≤◌, length};
ghost use Rattle.membership.specs.Verdict.{says_of};
ghost use Rattle.console.specs.Printed.{Shows};
ghost use Rattle.verdict.specs.Text.{program_text};
ghost use Rattle.verdict.specs.Said.{said_of, sheet_file, show_file, message_text};

use crate::saying::put_judged;
use crate::text::verdict_text;
use console::Output;
use membership::Judgement;
use sheet_forms::{form_in, is_text};
use show_files::count_openings;
use slices::Refusal;
use verdict_files::judge_files;
use wording::show_words;

// Room for what is said: a name of 4,096 bytes and some words.
pub const SAID: usize = 4608;

// A refusal in words, and why it was judged so where that is asked for.
fn put_message(
    any: bool,
    explain: bool,
    answer: Result<Judgement, Refusal>,
    one: &[u8],
    sheet: &[u8],
    two: &[u8],
    show: &[u8],
    out: &mut [u8],
) -> usize
    requires { (length one.now ≤ 4096) × (length two.now ≤ 4096) × (4608 ≤ length out.old) }
    ensures { Shows
        (said_of explain (sheet_file any one.now sheet.now)
        (show_file two.now show.now) (says_of answer))
        out.old out.new result }
{
    match answer {
        Ok(judgement) => put_judged(explain, one, judgement, out),
        Err(r) => {
            let lined = is_text(form_in(any, sheet));
            let openings = count_openings(show);
            show_words(b"verdict", one, sheet, lined, two, show, openings, r, out)
        }
    }
}

// What is printed for the bytes that came of two files, and what is said beside it. The names are those of the files.
pub fn put_answer(
    any: bool,
    explain: bool,
    one: &[u8],
    sheet: &[u8],
    two: &[u8],
    show: &[u8],
    out: &mut [u8],
    said: &mut [u8],
) -> Output
    requires { (length one.now ≤ 4096) × (length two.now ≤ 4096) × (128 ≤ length out.old) ×
        (4608 ≤ length said.old) }
    ensures { Shows (program_text any sheet.now show.now) out.old
        out.new result.text × Shows
        (message_text any explain one.now sheet.now two.now show.now)
        said.old said.new result.said }
{
    let answer = judge_files(any, sheet, show);
    let text = verdict_text(answer, out);
    let words = put_message(any, explain, answer, one, sheet, two, show, said);
    Output { text, said: words }
}
