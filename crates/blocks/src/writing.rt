// The text of a sheet, line by line. A byte is stored where there is room for it, so that a text can be measured on an
// empty slice.
ghost use Rattle.std.specs.Prelude.{◌≡◌, ◌∷◌, [], ◌++◌, ◌+◌, ◌*◌, ◌≤◌, ◌<◌, length, get_or};
ghost use Rattle.std.proofs.lemmas.List.Edits.{sets};
ghost use Rattle.slices.specs.Filling.{written};
ghost use Rattle.slices.specs.Tables.{tab, rows};
ghost use Rattle.packed.specs.Layout.{letter_count, state_count, size_of, progress_at_value, decode, Valid};
ghost use Rattle.numbers.specs.Storing.{Stored};
ghost use Rattle.format.specs.Rows.{line};
ghost use Rattle.blocks.specs.Text.{counts_title, timed, leading_values_of, progress_values_of};
ghost use Rattle.blocks.specs.Lines.{head_text, part_text, lines_of};
ghost use Rattle.slices.specs.Seconds.{TimesFit};

use crate::names::{NAMES, names_len};
use crate::seconds::put_seconds;
use format::{put_literal, put_row};

// Next states of a row, as numbers, from cell `head` of the row on.
fn put_nexts(sheet: &[u8], from: usize, s: usize, head: usize, row: &mut [u16])
    requires { (from + s ≤ length sheet.now) × (head ≤ 3) × (s ≤ 32) × (head + s ≤ length row.old) }
    ensures { row.new ≡ sets row.old head (tab s (λ a. get_or sheet.now (from + a) 0)) }
{
    for (a, cell) in row[head..head + s].iter_mut().enumerate() {
        *cell = u16::from(sheet[from + a]);
    }
}

// The numbers of a row of the leading automaton: q, k(q), the next states.
fn leading_values(sheet: &[u8], s: usize, n: usize, q: usize, row: &mut [u16])
    requires { Valid sheet.now × (s ≡ letter_count sheet.now) × (n ≡ state_count sheet.now) × (q < n) ×
        (s + 2 ≤ length row.old) }
    ensures { row.new ≡ written (leading_values_of (decode sheet.now) q) row.old }
{
    row[0] = q as u16;
    row[1] = u16::from(sheet[2 + q]);
    put_nexts(sheet, 2 + n + q * s, s, 2, row);
}

// The numbers of row p of the progress automaton of q, whose part begins at `from`: q, p, the mark, the next states.
fn progress_values(
    sheet: &[u8],
    s: usize,
    k: usize,
    from: usize,
    q: usize,
    p: usize,
    row: &mut [u16],
)
    requires { Valid sheet.now × (s ≡ letter_count sheet.now) × (q < state_count sheet.now) ×
        (k ≡ size_of sheet.now q) × (from ≡ progress_at_value sheet.now q) × (p < k) × (s + 3 ≤ length row.old) }
    ensures { row.new ≡ written (progress_values_of (decode sheet.now) q p) row.old }
{
    row[0] = q as u16;
    row[1] = p as u16;
    row[2] = u16::from(sheet[from + k * s + p]);
    put_nexts(sheet, from + p * s, s, 3, row);
}

// A line of names: a title, then the names of the letters.
fn put_head(title: &[u8], s: usize, out: &mut [u8], at: usize) -> usize
    requires { (s ≤ 32) × (at + length (head_text title.now s) ≤ 18446744073709551615) }
    ensures { Stored out.old at (head_text title.now s) out.new result }
{
    let p = put_literal(title, out, at);
    let r = put_literal(&NAMES[..names_len(s)], out, p);
    put_literal(b"\n", out, r)
}

// The block of the counts.
fn put_counts(level: usize, s: usize, n: usize, out: &mut [u8]) -> usize
    requires { (level < 5) × (s ≤ 32) × (n ≤ 32) }
    ensures { Stored out.old 0 (counts_title ++ line (level ∷ s ∷ n ∷ [])) out.new result }
{
    let p = put_literal(b"level scenes places\n", out, 0);
    put_row(&[level as u16, s as u16, n as u16], out, p)
}

// The rows of the leading automaton.
fn put_leading_rows(sheet: &[u8], s: usize, n: usize, out: &mut [u8], at: usize) -> usize
    requires { Valid sheet.now × (s ≡ letter_count sheet.now) × (n ≡ state_count sheet.now) ×
        (at + length (rows n (λ q. line (leading_values_of (decode sheet.now) q))) ≤ 18446744073709551615) }
    ensures { Stored out.old at (rows n (λ q. line (leading_values_of (decode sheet.now) q))) out.new result }
{
    let mut row = [0u16; 35];
    let mut p = at;
    for q in 0..n {
        leading_values(sheet, s, n, q, &mut row);
        p = put_row(&row[..s + 2], out, p);
    }
    p
}

// The rows of the progress automaton of q.
fn put_part(sheet: &[u8], s: usize, q: usize, out: &mut [u8], at: usize) -> usize
    requires { Valid sheet.now × (s ≡ letter_count sheet.now) × (q < state_count sheet.now) ×
        (at + length (part_text (decode sheet.now) q) ≤ 18446744073709551615) }
    ensures { Stored out.old at (part_text (decode sheet.now) q) out.new result }
{
    let k = packed::size(sheet, q);
    let from = packed::progress_at(sheet, q);
    let mut row = [0u16; 35];
    let mut r = at;
    for p in 0..k {
        progress_values(sheet, s, k, from, q, p, &mut row);
        r = put_row(&row[..s + 3], out, r);
    }
    r
}

// The rows of the progress automata.
fn put_parts(sheet: &[u8], s: usize, n: usize, out: &mut [u8], at: usize) -> usize
    requires { Valid sheet.now × (s ≡ letter_count sheet.now) × (n ≡ state_count sheet.now) ×
        (at + length (rows n (part_text (decode sheet.now))) ≤ 18446744073709551615) }
    ensures { Stored out.old at (rows n (part_text (decode sheet.now))) out.new result }
{
    let mut p = at;
    for q in 0..n {
        p = put_part(sheet, s, q, out, p);
    }
    p
}

// The whole text.
pub fn put_sheet(
    level: usize,
    sheet: &[u8],
    s: usize,
    n: usize,
    seconds: &[u16],
    out: &mut [u8],
) -> usize
    requires valid { Valid sheet.now × (s ≡ letter_count sheet.now) × (n ≡ state_count sheet.now) }
    requires le_level { (3 ≤ level) × (level < 5) × TimesFit (timed level s) seconds.now }
    ensures { Stored out.old 0 (lines_of level seconds.now (decode sheet.now)) out.new result }
{
    let a = put_counts(level, s, n, out);
    let b = put_seconds(level, s, seconds, out, a);
    let c = put_head(b"place loops", s, out, b);
    let d = put_leading_rows(sheet, s, n, out, c);
    let e = put_head(b"place loop mark", s, out, d);
    put_parts(sheet, s, n, out, e)
}
