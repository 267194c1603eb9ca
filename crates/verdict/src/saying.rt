// Why a show is accepted or rejected, in words, made in a lent slice.
ghost use Rattle.std.specs.Prelude.{◌+◌, ◌≤◌, length, cond, []};
ghost use Rattle.numbers.specs.Storing.{Stored};
ghost use Rattle.membership.specs.Verdict.{judged};
ghost use Rattle.console.specs.Printed.{Shows};
ghost use Rattle.verdict.specs.Said.{start_words, mark_words, wait_words, end_words, verdict_words};

use format::put_literal;
use membership::Judgement;
use numbers::put_field;

// The words before the first number.
fn put_start(accepted: bool, out: &mut [u8]) -> usize
    ensures { Stored out.old 0 (start_words accepted) out.new result × (result ≤ 40) }
{
    if accepted {
        return put_literal(b"accepted: after the opening and ", out, 0);
    }
    put_literal(b"rejected: after the opening and ", out, 0)
}

// Whether the loop place at the end is marked.
fn put_mark(accepted: bool, out: &mut [u8], at: usize) -> usize
    requires { at ≤ 65536 }
    ensures { Stored out.old at (mark_words accepted) out.new result × (result ≤ at + 40) }
{
    if accepted {
        return put_literal(b" which is marked\n", out, at);
    }
    put_literal(b" which is not marked\n", out, at)
}

// Where the sheet waits.
fn put_wait(name: &[u8], accepted: bool, i: usize, state: usize, out: &mut [u8]) -> usize
    requires { length name.now ≤ 4096 }
    ensures { Stored out.old 0 (wait_words name.now accepted i state) out.new
        result × (result ≤ 4352) }
{
    let begun = put_start(accepted, out);
    let turned = put_field(i, b' ', out, begun);
    let looped = put_literal(b"turn(s) of the loop ", out, turned);
    let named = put_literal(name, out, looped);
    let waits = put_literal(b" waits at place ", out, named);
    put_field(state, b';', out, waits)
}

// Where its loop automaton ends.
fn put_end(accepted: bool, j: usize, end: usize, out: &mut [u8], at: usize) -> usize
    requires { at ≤ 4352 }
    ensures { Stored out.old at (end_words accepted j end) out.new result × (result ≤ at + 256) }
{
    let spaced = put_literal(b" ", out, at);
    let turned = put_field(j, b' ', out, spaced);
    let led = put_literal(
        b"turn(s) more lead from loop place 0 to loop place ",
        out,
        turned,
    );
    let ended = put_field(end, b',', out, led);
    put_mark(accepted, out, ended)
}

// All of it, where it is asked for.
pub fn put_judged(explain: bool, name: &[u8], judgement: Judgement, out: &mut [u8]) -> usize
    requires { (length name.now ≤ 4096) × (4608 ≤ length out.old) }
    ensures { Shows (cond explain (verdict_words name.now (judged judgement)) []) out.old out.new result }
{
    if !explain {
        return 0;
    }
    let at = put_wait(name, judgement.accepted, judgement.i, judgement.state, out);
    put_end(judgement.accepted, judgement.j, judgement.end, out, at)
}
