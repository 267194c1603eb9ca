// What the comparison prints, made in a lent slice block by block.
ghost use Rattle.std.specs.Prelude.{◌+◌, ◌≤◌, length};
ghost use Rattle.numbers.specs.Storing.{Stored};
ghost use Rattle.console.specs.Printed.{Shows};
ghost use Rattle.compare.specs.Text.{verdict_block, standing_line, standing_block, comparison_text_of, AnswerLies};

use format::put_literal;
use inclusion::{Comparison, Outcome, Standing};
use lasso_text::put_lasso;
use numbers::put_field;
use slices::Refusal;

// Room for what is printed: the first block has at most 102 bytes, the second 11 and at most 29 for each of 8,192
// scenes, the last at most 95.
pub const ROOM: usize = 237776;

// The first block.
fn put_verdict(verdict: &[u8], z: Comparison, out: &mut [u8], at: usize) -> usize
    requires { (length verdict.now ≤ 10) × (at + 102 ≤ 18446744073709551615) }
    ensures { Stored out.old at (verdict_block verdict.now z) out.new result × (result ≤ at + 102) }
{
    let named = put_literal(b"verdict reached opening loop\n", out, at);
    let judged = put_literal(verdict, out, named);
    let reached = put_field(z.reached, b' ', out, judged);
    let opened = put_field(z.prefix, b' ', out, reached);
    put_field(z.period, b'\n', out, opened)
}

// The line of a sheet: where it waits, and where it ends.
fn put_standing(x: Standing, out: &mut [u8], at: usize) -> usize
    requires { at + 42 ≤ 18446744073709551615 }
    ensures { Stored out.old at (standing_line x) out.new result × (result ≤ at + 42) }
{
    let waits = put_field(x.waits, b' ', out, at);
    put_field(x.ends, b'\n', out, waits)
}

// The last block.
fn put_standings(z: Comparison, out: &mut [u8], at: usize) -> usize
    requires { at + 95 ≤ 18446744073709551615 }
    ensures { Stored out.old at (standing_block z) out.new result × (result ≤ at + 95) }
{
    let first = z.first;
    let second = z.second;
    let named = put_literal(b"waits ends\n", out, at);
    let one = put_standing(first, out, named);
    put_standing(second, out, one)
}

// All of it, for every answer.
pub fn comparison_text(
    answer: Result<Outcome, Refusal>,
    opening: &[u8],
    period: &[u8],
    out: &mut [u8],
) -> usize
    requires { AnswerLies answer (length opening.now) (length period.now) × (length opening.now ≤ 4096) ×
        (length period.now ≤ 4096) × (237776 ≤ length out.old) }
    ensures { Shows (comparison_text_of answer opening.now period.now) out.old out.new result }
{
    match answer {
        Ok(Outcome::Absent(z)) => {
            let at = put_verdict(b"contained ", z, out, 0);
            put_standings(z, out, at)
        }
        Ok(Outcome::Found(z)) => {
            let at = put_verdict(b"missing ", z, out, 0);
            let u = z.prefix;
            let v = z.period;
            let shown = put_lasso(&opening[..u], &period[..v], out, at);
            put_standings(z, out, shown)
        }
        Err(r) => console::refusal_text(r, out),
    }
}
