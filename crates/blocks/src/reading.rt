// The blocks of a sheet's text, read one after the other; their numbers go to lent slices, in the order of the text,
// those of the seconds to one of their own.
ghost use Rattle.std.specs.Prelude.{◌≡◌, ◌∷◌, [], ◌+◌, ◌*◌, ◌≤◌, ◌<◌, length, take};
ghost use Rattle.slices.specs.declared.Part.TheVariants.{First};
ghost use Rattle.format.specs.Format.{reading, Fits, seq, each, literal};
ghost use Rattle.format.specs.Steps.{placed, Reads};
ghost use Rattle.blocks.specs.Text.{names, head, counts_row_of, leading_row_of, progress_row_of, counts_format};
ghost use Rattle.blocks.specs.Text.{leading_format, part_format, letters_in, states_in, size_in, parts_format};
ghost use Rattle.blocks.specs.Numbers.{blocks_from, blocks_of};
ghost use Rattle.blocks.specs.Values.{front_format, ReadsBlocks};

use crate::names::{NAMES, names_len};
use crate::seconds::read_seconds;
use format::{Column, Row, read_literal, read_row, read_rows};
use slices::{Part, Reason, Refusal};

// The row of the counts.
fn counts_row() -> Row
    ensures { result ≡ counts_row_of }
{
    let first = Column {
        low: 3,
        limit: 5,
        reason: Reason::UnknownLevel,
    };
    let second = Column {
        low: 1,
        limit: 33,
        reason: Reason::LetterCount,
    };
    let third = Column {
        low: 1,
        limit: 33,
        reason: Reason::StateCount,
    };
    Row {
        first,
        second,
        third,
        rest: third,
        count: 3,
    }
}

// A row of the leading automaton.
fn leading_row(s: usize, n: usize) -> Row
    requires { s ≤ 32 }
    ensures { result ≡ leading_row_of s n 0 }
{
    let first = Column {
        low: 0,
        limit: 1,
        reason: Reason::OutOfTurn,
    };
    let second = Column {
        low: 1,
        limit: 33,
        reason: Reason::ProgressSize,
    };
    let rest = Column {
        low: 0,
        limit: n,
        reason: Reason::NextState,
    };
    Row {
        first,
        second,
        third: rest,
        rest,
        count: s + 2,
    }
}

// A row of the progress automaton of q, of size k.
fn progress_row(s: usize, q: usize, k: usize) -> Row
    requires { (s ≤ 32) × (q < 1000) }
    ensures { result ≡ progress_row_of s q k 0 }
{
    let first = Column {
        low: q,
        limit: q + 1,
        reason: Reason::OutOfTurn,
    };
    let second = Column {
        low: 0,
        limit: 1,
        reason: Reason::OutOfTurn,
    };
    let third = Column {
        low: 0,
        limit: 2,
        reason: Reason::MarkByte,
    };
    let rest = Column {
        low: 0,
        limit: k,
        reason: Reason::NextState,
    };
    Row {
        first,
        second,
        third,
        rest,
        count: s + 3,
    }
}

// The names of the letters and a line feed.
fn read_names(text: &[u8], at: usize, s: usize) -> Result<usize, Refusal>
    requires { (at ≤ length text.now) × (s ≤ 32) }
    ensures { result ≡ placed (reading First text.now
        (seq (literal (names s)) (λ vs. literal (10 ∷ []))) at) }
{
    let e = read_literal(text, at, &NAMES[..names_len(s)], Part::First)?;
    read_literal(text, e, b"\n", Part::First)
}

// A line of names: a title, then the names of the letters.
fn read_head(text: &[u8], at: usize, title: &[u8], s: usize) -> Result<usize, Refusal>
    requires { (at ≤ length text.now) × (s ≤ 32) }
    ensures { result ≡ placed (reading First text.now (head title.now s) at) }
{
    let e = read_literal(text, at, title, Part::First)?;
    read_names(text, e, s)
}

// The block of the counts.
fn read_counts(text: &[u8], front: &mut [u16]) -> Result<usize, Refusal>
    requires { 3 ≤ length front.old }
    ensures { Reads (reading First text.now counts_format 0) front.old front.new result }
{
    let e = read_literal(text, 0, b"level scenes places\n", Part::First)?;
    read_row(text, e, counts_row(), front, Part::First)
}

// The block of the leading automaton.
fn read_leading(
    text: &[u8],
    at: usize,
    s: usize,
    n: usize,
    rows: &mut [u16],
) -> Result<usize, Refusal>
    requires { (at ≤ length text.now) × (s ≤ 32) × (n ≤ 32) × (n * (s + 2) ≤ length rows.old) }
    ensures { Reads (reading First text.now (leading_format s n) at) rows.old rows.new result }
{
    let e = read_head(text, at, b"place loops", s)?;
    read_rows(text, e, leading_row(s, n), 0, n, rows, Part::First)
}

// The blocks between the counts, which lie at the start of `front`, and the last.
fn read_middle(
    text: &[u8],
    at: usize,
    front: &mut [u16],
    seconds: &mut [u16],
) -> Result<usize, Refusal>
    requires { (at ≤ length text.now) × Fits counts_format (take 3 front.old) × (1091 ≤ length front.old) ×
        (64 ≤ length seconds.old) }
    ensures { ReadsBlocks
        (blocks_from text.now (take 3 front.old) at) front.old front.new seconds.old seconds.new result }
{
    let level = usize::from(front[0]);
    let s = usize::from(front[1]);
    let n = usize::from(front[2]);
    let e = read_seconds(text, at, level, s, seconds)?;
    read_leading(text, e, s, n, &mut front[3..])
}

// The blocks before the last: their numbers in `front`, those of the seconds in `seconds`.
pub fn read_blocks(text: &[u8], front: &mut [u16], seconds: &mut [u16]) -> Result<usize, Refusal>
    requires { (1091 ≤ length front.old) × (64 ≤ length seconds.old) }
    ensures { ReadsBlocks (blocks_of text.now) front.old front.new seconds.old seconds.new result }
{
    let e = read_counts(text, front)?;
    read_middle(text, e, front, seconds)
}

// The rows of the progress automata. Their sizes are in the front.
fn read_parts(
    text: &[u8],
    at: usize,
    front: &[u16],
    s: usize,
    n: usize,
    parts: &mut [u16],
) -> Result<usize, Refusal>
    requires { (at ≤ length text.now) × Fits front_format front.now × (s ≡ letters_in front.now) ×
        (n ≡ states_in front.now) × (35840 ≤ length parts.old) }
    ensures { Reads (reading First text.now (each n (λ q. part_format s
        (size_in front.now q) q)) at) parts.old parts.new result }
{
    let mut p = at;
    let mut w = 0;
    for q in 0..n {
        let k = usize::from(front[3 + q * (s + 2) + 1]);
        p = read_rows(
            text,
            p,
            progress_row(s, q, k),
            1,
            k,
            &mut parts[w..],
            Part::First,
        )?;
        w += k * (s + 3);
    }
    Ok(p)
}

// The block of the progress automata.
pub fn read_progress(
    text: &[u8],
    at: usize,
    front: &[u16],
    s: usize,
    n: usize,
    parts: &mut [u16],
) -> Result<usize, Refusal>
    requires { (at ≤ length text.now) × Fits front_format front.now × (s ≡ letters_in front.now) ×
        (n ≡ states_in front.now) × (35840 ≤ length parts.old) }
    ensures { Reads (reading First text.now (parts_format front.now) at) parts.old parts.new result }
{
    let e = read_head(text, at, b"place loop mark", s)?;
    read_parts(text, e, front, s, n, parts)
}
