// Whether bytes are a packed sheet: the counts, then the tables.
ghost use Rattle.std.specs.Prelude.{◌≡◌, ◌+◌, ◌≤◌, ◌<◌, length, get_or, Err};
ghost use Rattle.slices.specs.Extremes.{largest};
ghost use Rattle.slices.specs.Refusals.{unless};
ghost use Rattle.slices.specs.Scans.{outside};
ghost use Rattle.packed.specs.Layout.{size_of, sheet_length, Header};
ghost use Rattle.packed.specs.Faults.{progress_fault, header_fault, tables_fault, sizes_of, checked};
ghost use Rattle.packed.specs.Faults.{second_fault, checked_pair};

use crate::{BothSizes, Sizes, letters, progress_at, size, states};
use slices::{Part, Reason, Refusal, first_outside, is_outside, refuse};
use std::cmp::max;

fn refusal(reason: Reason, part: Part, place: usize) -> Result<Sizes, Refusal>
    ensures { result ≡ Err (record { reason = reason; part = part; place = place }) }
{
    Err(refuse(reason, part, place))
}

// Whether the count at `i` is not from 1 to 32.
fn is_bad_count(sheet: &[u8], i: usize) -> bool
    requires { i < length sheet.now }
    ensures { result ≡ outside 1 33 (get_or sheet.now i 0) }
{
    is_outside(1, 33, usize::from(sheet[i]))
}

// The size of the largest of the first n progress automata.
fn widest(sheet: &[u8], n: usize) -> usize
    requires { 2 + n ≤ length sheet.now }
    ensures { result ≡ largest n (size_of sheet.now) }
{
    let sizes = &sheet[2..2 + n];
    sizes.iter().fold(0, |most, &k| max(most, usize::from(k)))
}

// The counts: that they are there, from 1 to 32.
fn check_header(sheet: &[u8], part: Part) -> Result<Sizes, Refusal>
    ensures { result ≡ unless (header_fault part sheet.now) (sizes_of sheet.now) }
{
    let len = sheet.len();
    if len < 2 {
        return refusal(Reason::SheetLength, part, len);
    }
    if is_bad_count(sheet, 0) {
        return refusal(Reason::LetterCount, part, 0);
    }
    if is_bad_count(sheet, 1) {
        return refusal(Reason::StateCount, part, 1);
    }
    let n = states(sheet);
    if len < 2 + n {
        return refusal(Reason::SheetLength, part, len);
    }
    let q = first_outside(sheet, 1, 33, 2, n);
    if q < n {
        return refusal(Reason::ProgressSize, part, 2 + q);
    }
    Ok(Sizes {
        letters: letters(sheet),
        states: n,
        widest: widest(sheet, n),
    })
}

// The tables of the progress automata, once all before them is found good.
fn check_progress(sheet: &[u8], part: Part, z: Sizes) -> Result<Sizes, Refusal>
    requires { Header sheet.now × (length sheet.now ≡ sheet_length sheet.now) × (z ≡ sizes_of sheet.now) }
    ensures { result ≡ unless (progress_fault part sheet.now 0 z.states) z }
{
    let s = z.letters;
    let n = z.states;
    let mut at = progress_at(sheet, 0);
    for q in 0..n {
        let k = size(sheet, q);
        let entries = k * s;
        let i = first_outside(sheet, 0, k, at, entries);
        if i < entries {
            return refusal(Reason::NextState, part, at + i);
        }
        at += entries;
        let p = first_outside(sheet, 0, 2, at, k);
        if p < k {
            return refusal(Reason::MarkByte, part, at + p);
        }
        at += k;
    }
    Ok(z)
}

// The tables, once the counts are found good: the length, the leading table, then the progress automata.
fn check_tables(sheet: &[u8], part: Part, z: Sizes) -> Result<Sizes, Refusal>
    requires { Header sheet.now × (z ≡ sizes_of sheet.now) }
    ensures { result ≡ unless (tables_fault part sheet.now) z }
{
    let len = sheet.len();
    let s = z.letters;
    let n = z.states;
    if len != progress_at(sheet, n) {
        return refusal(Reason::SheetLength, part, len);
    }
    let from = 2 + n;
    let entries = n * s;
    let i = first_outside(sheet, 0, n, from, entries);
    if i < entries {
        return refusal(Reason::NextState, part, from + i);
    }
    check_progress(sheet, part, z)
}

// Whether the bytes are a packed sheet: its sizes, or the one refusal, which names `part`.
pub fn check(sheet: &[u8], part: Part) -> Result<Sizes, Refusal>
    ensures { result ≡ checked part sheet.now }
{
    let z = check_header(sheet, part)?;
    check_tables(sheet, part, z)
}

// The first sheet, then the second, then that both have the same letters.
pub fn check_pair(first: &[u8], second: &[u8]) -> Result<BothSizes, Refusal>
    ensures { result ≡ checked_pair first.now second.now }
{
    let z = check(first, Part::First)?;
    check_second(z, second)
}

fn check_second(z: Sizes, second: &[u8]) -> Result<BothSizes, Refusal>
    ensures { result ≡ unless (second_fault z.letters second.now)
        (record { first = z; second = sizes_of second.now }) }
{
    let y = check(second, Part::Second)?;
    if z.letters != y.letters {
        return Err(refuse(Reason::LettersDiffer, Part::Second, 0));
    }
    Ok(BothSizes {
        first: z,
        second: y,
    })
}
