// Formats read from left to right: what is refused first is refused at the smallest place.
ghost use Rattle.std.specs.Prelude.{◌≡◌, [], ◌∷◌, ◌*◌, ◌≤◌, ◌<◌, length};
ghost use Rattle.format.specs.Format.{byte, done, after, reading, each, literal};
ghost use Rattle.format.specs.Rows.{column_of, cell, row, due, numbered};
ghost use Rattle.numbers.specs.Numerals.{number_at_value};
ghost use Rattle.format.specs.Steps.{placed, cell_says, peeked, Reads};

use crate::writing::separator;
use crate::{Column, Row};
use numbers::{Number, number_at};
use slices::{Part, Reason, Refusal, is_outside, refuse};

// The byte that is due at a place.
fn byte(text: &[u8], at: usize, c: u8, part: Part) -> Result<usize, Refusal>
    ensures { result ≡ placed (reading part text.now (byte c done) at) }
{
    if text.len() <= at {
        return Err(refuse(Reason::OffLayout, part, at));
    }
    if text[at] == c {
        return Ok(at + 1);
    }
    Err(refuse(Reason::OffLayout, part, at))
}

// A fixed text.
pub fn read_literal(text: &[u8], at: usize, due: &[u8], part: Part) -> Result<usize, Refusal>
    ensures { result ≡ placed (reading part text.now (literal due.now) at) }
{
    let mut p = at;
    for &c in due {
        p = byte(text, p, c, part)?;
    }
    Ok(p)
}

// The byte that ends a number that was read.
fn closed(text: &[u8], number: Number, end: u8, part: Part) -> Result<Number, Refusal>
    ensures { cell_says result ≡
        after (number.value ∷ []) (reading part text.now (byte end done) number.next) }
{
    byte(text, number.next, end, part).map(|next| Number { next, ..number })
}

// A number within its column, and the byte that ends it.
pub fn read_cell(
    text: &[u8],
    at: usize,
    column: Column,
    end: u8,
    part: Part,
) -> Result<Number, Refusal>
    ensures { cell_says result ≡ reading part text.now (cell column end) at }
{
    let number = number_at(text, at, part)?;
    if is_outside(column.low, column.limit, number.value) {
        return Err(refuse(column.reason, part, at));
    }
    closed(text, number, end, part)
}

// The number at a place, 0 where there is none: by it a reader may choose the column that judges it.
pub fn peek(text: &[u8], at: usize, part: Part) -> usize
    ensures { result ≡ peeked (number_at_value part text.now at) }
{
    number_at(text, at, part).map_or(0, |number| number.value)
}

fn column_at(r: Row, i: usize) -> Column
    ensures { result ≡ column_of r i }
{
    match i {
        0 => r.first,
        1 => r.second,
        2 => r.third,
        _ => r.rest,
    }
}

// One row: its numbers with one space between, and a line feed.
pub fn read_row(
    text: &[u8],
    at: usize,
    r: Row,
    values: &mut [u16],
    part: Part,
) -> Result<usize, Refusal>
    requires { (at ≤ length text.now) × (r.count ≤ length values.old) }
    ensures { Reads (reading part text.now (row r) at) values.old values.new result }
{
    let count = r.count;
    let mut p = at;
    for i in 0..count {
        let number = read_cell(text, p, column_at(r, i), separator(count, i), part)?;
        values[i] = number.value as u16;
        p = number.next;
    }
    Ok(p)
}

// The i-th of rows that are numbered in column `turn`, 0 or 1.
fn numbered(r: Row, turn: usize, i: usize) -> Row
    requires { i < 1000 }
    ensures { result ≡ numbered r turn i }
{
    let due = Column {
        low: i,
        limit: i + 1,
        reason: Reason::OutOfTurn,
    };
    if turn == 0 {
        return Row { first: due, ..r };
    }
    Row { second: due, ..r }
}

// Rows that are numbered in column `turn`.
pub fn read_rows(
    text: &[u8],
    at: usize,
    r: Row,
    turn: usize,
    count: usize,
    values: &mut [u16],
    part: Part,
) -> Result<usize, Refusal>
    requires { (at ≤ length text.now) × (count ≤ 1000) × (count * r.count ≤ length values.old) }
    ensures { Reads (reading part text.now (each count
        (λ i. row (numbered r turn i))) at) values.old values.new result }
{
    let width = r.count;
    let mut p = at;
    let mut w = 0;
    for i in 0..count {
        p = read_row(text, p, numbered(r, turn, i), &mut values[w..], part)?;
        w += width;
    }
    Ok(p)
}
