// What is printed for a verdict, made in a lent slice.
ghost use Rattle.std.specs.Prelude.{◌+◌, ◌≤◌, length};
ghost use Rattle.numbers.specs.Storing.{Stored};
ghost use Rattle.membership.specs.Verdict.{judged, says_of};
ghost use Rattle.console.specs.Printed.{Shows};
ghost use Rattle.verdict.specs.Text.{word, verdict_block, verdict_text_of};

use format::put_literal;
use membership::Judgement;
use numbers::put_field;
use slices::Refusal;

// Room for what is printed: a line of names, a word and four numbers, at most 115 bytes; a refusal asks for 80.
pub const ROOM: usize = 128;

// The word of the verdict and a space.
fn put_word(accepted: bool, out: &mut [u8], at: usize) -> usize
    requires { at + 9 ≤ 18446744073709551615 }
    ensures { Stored out.old at (word accepted) out.new result }
{
    if accepted {
        return put_literal(b"accepted ", out, at);
    }
    put_literal(b"rejected ", out, at)
}

// The line of names, then the verdict, i, j, the leading state and the state at the end.
fn put_verdict(judgement: Judgement, out: &mut [u8]) -> usize
    ensures { Stored out.old 0 (verdict_block (judged judgement)) out.new result × (result ≤ 128) }
{
    let named = put_literal(b"verdict i j place end\n", out, 0);
    let worded = put_word(judgement.accepted, out, named);
    let a = put_field(judgement.i, b' ', out, worded);
    let b = put_field(judgement.j, b' ', out, a);
    let c = put_field(judgement.state, b' ', out, b);
    put_field(judgement.end, b'\n', out, c)
}

// The block of a verdict, or the refusal.
pub fn verdict_text(answer: Result<Judgement, Refusal>, out: &mut [u8]) -> usize
    requires { 128 ≤ length out.old }
    ensures { Shows (verdict_text_of (says_of answer)) out.old out.new result }
{
    match answer {
        Ok(judgement) => put_verdict(judgement, out),
        Err(r) => console::refusal_text(r, out),
    }
}
