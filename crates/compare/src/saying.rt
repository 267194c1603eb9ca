// What is said on standard error, made in a lent slice.
ghost use Rattle.std.specs.Prelude.{◌≡◌, ◌++◌, ◌+◌, ◌≤◌, length};
ghost use Rattle.slices.specs.Texts.{bytes};
ghost use Rattle.numbers.specs.Storing.{Stored};
ghost use Rattle.console.specs.Printed.{Shows};
ghost use Rattle.compare.specs.Text.{Lies};
ghost use Rattle.compare.specs.Said.{ending, scenes_of, scene_line, standing_words, names_text};
ghost use Rattle.compare.specs.Said.{contained_words, missing_words, asked_words};

use format::put_literal;
use inclusion::{Comparison, Outcome, Standing};
use numbers::put_field;

// Room for what is said: two names of 4,096 bytes, twice, at most 21 for each of 8,192 scenes, and some words.
pub const SAID: usize = 196608;

// The byte after scene i of m.
fn ending_of(m: usize, i: usize) -> u8
    requires { i + 1 ≤ 18446744073709551615 }
    ensures { result ≡ ending m i }
{
    if i + 1 == m { b'\n' } else { b' ' }
}

// The scenes of a word.
fn put_scenes(word: &[u8], out: &mut [u8], at: usize) -> usize
    requires { (length word.now ≤ 4096) × (at ≤ 262144) }
    ensures { Stored out.old at (scenes_of word.now) out.new result ×
        (result ≤ at + 86016) }
{
    let mut p = at;
    for (i, &scene) in word.iter().enumerate() {
        p = put_field(usize::from(scene), ending_of(word.len(), i), out, p);
    }
    p
}

// The scenes of a word in a line with its name.
fn put_word(name: &[u8], word: &[u8], out: &mut [u8], at: usize) -> usize
    requires { (length name.now ≤ 16) × (length word.now ≤ 4096) × (at ≤ 131072) }
    ensures { Stored out.old at (name.now ++ scene_line word.now)
        out.new result × (result ≤ at + 86032) }
{
    let named = put_literal(name, out, at);
    if word.len() == 0 {
        return put_literal(b"none\n", out, named);
    }
    put_scenes(word, out, named)
}

// Where a sheet stands.
fn put_stand(name: &[u8], x: Standing, out: &mut [u8], at: usize) -> usize
    requires { (length name.now ≤ 4096) × (at ≤ 262144) }
    ensures { Stored out.old at (standing_words name.now x) out.new result ×
        (result ≤ at + 4196) }
{
    let named = put_literal(name, out, at);
    let spaced = put_literal(b" waits at place ", out, named);
    let waits = put_field(x.waits, b' ', out, spaced);
    let then = put_literal(b"and ends at loop place ", out, waits);
    put_field(x.ends, b'\n', out, then)
}

// What a verdict says of two sheets: words before the first name, between the two, and after the second.
fn put_names(lead: &[u8], one: &[u8], two: &[u8], close: &[u8], out: &mut [u8]) -> usize
    requires { (length lead.now ≤ 128) × (length one.now ≤ 4096) × (length two.now ≤ 4096) ×
        (length close.now ≤ 128) }
    ensures { Stored out.old 0
        (names_text lead.now one.now two.now close.now) out.new
        result × (result ≤ 8500) }
{
    let begun = put_literal(lead, out, 0);
    let first = put_literal(one, out, begun);
    let joined = put_literal(b" and rejected by ", out, first);
    let second = put_literal(two, out, joined);
    put_literal(close, out, second)
}

// No counter-show.
fn put_contained(one: &[u8], two: &[u8], out: &mut [u8]) -> usize
    requires { (length one.now ≤ 4096) × (length two.now ≤ 4096) }
    ensures { Stored out.old 0 (contained_words one.now two.now)
        out.new result × (result ≤ 196608) }
{
    let lead = b"contained: no show that closes in both sheets is accepted by ";
    let close = b", however long (if both are steady: no show at all)\n";
    put_names(lead, one, two, close, out)
}

// The counter-show.
fn put_missing(
    z: Comparison,
    opening: &[u8],
    period: &[u8],
    one: &[u8],
    two: &[u8],
    out: &mut [u8],
) -> usize
    requires { (length opening.now ≤ 4096) × (length period.now ≤ 4096) × (length one.now ≤ 4096) ×
        (length two.now ≤ 4096) }
    ensures { Stored out.old 0
        (missing_words one.now two.now z opening.now period.now)
        out.new result × (result ≤ 196608) }
{
    let lead = b"missing: this show closes in both sheets, is accepted by ";
    let named = put_names(lead, one, two, b":\n", out);
    let opened = put_word(b"opening: ", opening, out, named);
    let looped = put_word(b"loop: ", period, out, opened);
    let first = z.first;
    let second = z.second;
    let stood = put_stand(one, first, out, looped);
    put_stand(two, second, out, stood)
}

// What was decided, where it is asked for.
pub fn put_decided(
    explain: bool,
    outcome: Outcome,
    opening: &[u8],
    period: &[u8],
    one: &[u8],
    two: &[u8],
    out: &mut [u8],
) -> usize
    requires { Lies outcome (length opening.now) (length period.now) × (length opening.now ≤ 4096) ×
        (length period.now ≤ 4096) × (length one.now ≤ 4096) × (length two.now ≤ 4096) ×
        (196608 ≤ length out.old) }
    ensures { Shows
        (asked_words explain one.now two.now opening.now period.now outcome)
        out.old out.new result }
{
    if !explain {
        return 0;
    }
    match outcome {
        Outcome::Absent(_) => put_contained(one, two, out),
        Outcome::Found(z) => {
            let u = z.prefix;
            let v = z.period;
            put_missing(z, &opening[..u], &period[..v], one, two, out)
        }
    }
}
