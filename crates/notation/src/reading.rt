// What a text says: the packed sheet and the seconds.
ghost use Rattle.std.specs.Prelude.{◌≡◌, List, ℕ, ◌+◌, ◌*◌, ◌≤◌, ◌<◌, length, Ok};
ghost use Rattle.slices.specs.declared.Part.TheVariants.{First};
ghost use Rattle.format.specs.Format.{reading, Fits};
ghost use Rattle.blocks.specs.Text.{timed, level_in, letters_in, states_in, parts_format};
ghost use Rattle.blocks.specs.Values.{front_format, Whole};
ghost use Rattle.notation.specs.Reading.{ended, sheet_in, SheetRead};
ghost use Rattle.notation.specs.Steps.{Packs, Opened};

use crate::Levelled;
use blocks::{fill, fill_seconds, read_blocks, read_progress, row_count, timed};
use slices::{Part, Reason, Refusal, refuse};

// The packed sheet of numbers that are all read, if nothing follows, and if there are `cells` cells for the seconds of
// m letters.
fn pack_numbers(
    text: &[u8],
    at: usize,
    front: &[u16],
    parts: &[u16],
    s: usize,
    n: usize,
    m: usize,
    cells: usize,
    out: &mut [u8],
) -> Result<usize, Refusal>
    requires { Whole front.now parts.now × (s ≡ letters_in front.now) × (n ≡ states_in front.now) ×
        (m ≡ timed (level_in front.now) s) }
    ensures { (rows : List ℕ) → Packs (ended text.now (record { front = front.now; timings = rows; next = at })
        (Ok (record { values = parts.now; next = at }))) cells out.old out.new result }
{
    if at != text.len() {
        return Err(refuse(Reason::OffLayout, Part::First, at));
    }
    let need = 2 + n + n * s + row_count(front, s, n) * (s + 1);
    if out.len() < need {
        return Err(refuse(Reason::TooLittleRoom, Part::Out, need));
    }
    if cells < m {
        return Err(refuse(Reason::TooLittleRoom, Part::Seconds, m));
    }
    fill(front, parts, s, n, out);
    Ok(need)
}

// The last block, after the others, whose numbers are the front.
fn read_rest(
    text: &[u8],
    at: usize,
    front: &[u16],
    s: usize,
    n: usize,
    m: usize,
    cells: usize,
    out: &mut [u8],
) -> Result<usize, Refusal>
    requires { (at ≤ length text.now) × Fits front_format front.now × (s ≡ letters_in front.now) ×
        (n ≡ states_in front.now) × (m ≡ timed (level_in front.now) s) }
    ensures { (rows : List ℕ) → Packs (ended text.now (record { front = front.now; timings = rows; next = at })
        (reading First text.now (parts_format front.now) at)) cells out.old out.new result }
{
    let mut parts = [0u16; 35840];
    let e = read_progress(text, at, front, s, n, &mut parts)?;
    let len = row_count(front, s, n) * (s + 3);
    pack_numbers(text, e, front, &parts[..len], s, n, m, cells, out)
}

// All that follows the blocks before the last, which were read.
fn read_on(
    text: &[u8],
    at: usize,
    front: &[u16],
    rows: &[u16],
    out: &mut [u8],
    seconds: &mut [u16],
) -> Result<Levelled, Refusal>
    requires { Opened text.now front.now rows.now at }
    ensures { SheetRead (sheet_in text.now) out.old seconds.old out.new seconds.new result }
{
    let level = usize::from(front[0]);
    let s = usize::from(front[1]);
    let n = usize::from(front[2]);
    let m = timed(level, s);
    let len = 3 + n * (s + 2);
    let filled = read_rest(text, at, &front[..len], s, n, m, seconds.len(), out)?;
    fill_seconds(rows, m, seconds);
    Ok(Levelled { level, filled })
}

// Reads the text of a sheet: the packed sheet to the start of the out slice and, at level four, the seconds of the
// letters to the start of `seconds`. At level three that slice is neither judged nor changed.
pub fn read(text: &[u8], out: &mut [u8], seconds: &mut [u16]) -> Result<Levelled, Refusal>
    ensures { SheetRead (sheet_in text.now) out.old seconds.old out.new seconds.new result }
{
    let mut front = [0u16; 1091];
    let mut rows = [0u16; 64];
    let e = read_blocks(text, &mut front, &mut rows)?;
    read_on(text, e, &front, &rows, out, seconds)
}
