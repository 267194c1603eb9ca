// What the program prints, and what it says on standard error.
ghost use Rattle.std.specs.Prelude.{◌≡◌, ◌≤◌, length};
ghost use Rattle.console.specs.Printed.{Shows};
ghost use Rattle.compare.specs.Text.{AnswerLies, program_text};
ghost use Rattle.compare.specs.Said.{file_in, outcome_said, message_text};

use crate::saying::put_decided;
use crate::text::comparison_text;
use compare_files::decide;
use console::Output;
use inclusion::Outcome;
use sheet_forms::{form_in, is_text};
use slices::Refusal;
use wording::refusal_words;

const SCENES: usize = 4096;

// A refusal in words, and what was decided where it is asked for.
fn put_message(
    any: bool,
    explain: bool,
    answer: Result<Outcome, Refusal>,
    opening: &[u8],
    period: &[u8],
    one: &[u8],
    first: &[u8],
    two: &[u8],
    second: &[u8],
    out: &mut [u8],
) -> usize
    requires { AnswerLies answer (length opening.now) (length period.now) × (length opening.now ≤ 4096) ×
        (length period.now ≤ 4096) × (length one.now ≤ 4096) × (length two.now ≤ 4096) ×
        (196608 ≤ length out.old) }
    ensures { Shows
        (outcome_said explain (file_in any one.now first.now)
        (file_in any two.now second.now) opening.now period.now answer)
        out.old out.new result }
{
    match answer {
        Err(r) => {
            let lined = is_text(form_in(any, first));
            let lined2 = is_text(form_in(any, second));
            refusal_words(b"compare", one, first, lined, two, second, lined2, r, out)
        }
        Ok(outcome) => put_decided(explain, outcome, opening, period, one, two, out),
    }
}

// What is printed for the bytes that came of two files, and what is said beside it. The names are those of the files.
pub fn put_answer(
    any: bool,
    explain: bool,
    one: &[u8],
    first: &[u8],
    two: &[u8],
    second: &[u8],
    out: &mut [u8],
    said: &mut [u8],
) -> Output
    requires { (length one.now ≤ 4096) × (length two.now ≤ 4096) × (237776 ≤ length out.old) ×
        (196608 ≤ length said.old) }
    ensures { Shows (program_text any first.now second.now) out.old
        out.new result.text × Shows
        (message_text any explain one.now first.now two.now second.now)
        said.old said.new result.said }
{
    let mut opening = [0u8; SCENES];
    let mut period = [0u8; SCENES];
    let answer = decide(any, first, second, &mut opening, &mut period);
    let text = comparison_text(answer, &opening, &period, out);
    let words = put_message(
        any, explain, answer, &opening, &period, one, first, two, second, said,
    );
    Output { text, said: words }
}
