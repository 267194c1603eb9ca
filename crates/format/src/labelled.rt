// Lines of a word and a number, as many as there are.
ghost use Rattle.std.specs.Prelude.{◌≡◌, ◌≤◌, ◌<◌, length};
ghost use Rattle.format.specs.Format.{stands, reading};
ghost use Rattle.format.specs.Lines.{labelled, lines_at, LinesRead};
ghost use Rattle.format.specs.Steps.{cell_says};

use crate::reading::{read_cell, read_literal};
use crate::{Column, Extent};
use numbers::{Number, put};
use slices::{Part, Refusal};

// Whether a byte stands at a place.
pub fn stands(text: &[u8], c: u8, at: usize) -> bool
    ensures { result ≡ stands text.now c at }
{
    at < text.len() && text[at] == c
}

// A word, a number, the byte that ends it.
pub fn read_labelled(
    text: &[u8],
    at: usize,
    word: &[u8],
    column: Column,
    end: u8,
    part: Part,
) -> Result<Number, Refusal>
    requires { at ≤ length text.now }
    ensures { cell_says result ≡ reading part text.now (labelled word.now (λ v. column) end) at }
{
    let e = read_literal(text, at, word, part)?;
    read_cell(text, e, column, end, part)
}

// The lines of a word, as long as its first byte stands. Their numbers are stored where there is room for them, so that
// lines can be counted with an empty slice.
pub fn read_lines(
    text: &[u8],
    at: usize,
    word: &[u8],
    column: Column,
    values: &mut [u8],
    part: Part,
) -> Result<Extent, Refusal>
    requires { (at ≤ length text.now) × (0 < length word.now) × (column.limit ≤ 256) }
    ensures { LinesRead (lines_at part text.now word.now column at) values.old values.new result }
{
    let first = word[0];
    let mut p = at;
    let mut count = 0;
    let mut more = stands(text, first, at);
    while more {
        let number = read_labelled(text, p, word, column, 10, part)?;
        count = put(values, count, number.value as u8);
        p = number.next;
        more = stands(text, first, p);
    }
    Ok(Extent { count, next: p })
}
