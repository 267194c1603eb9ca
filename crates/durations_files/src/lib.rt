// What the durations program decides of the bytes that came of two files: a sheet's text, and a show's.
#![tactic(auto)]

ghost use Rattle.std.specs.Prelude.{◌≡◌, ◌≤◌, length};
ghost use Rattle.sheet_forms.specs.Forms.{FillsWith};
ghost use Rattle.durations_files.specs.Decided.{cells_in, cell_count, running, of_cells, decided};

use blocks::timed;
use sheet_forms::SHEET;
use show_files::SCENES;
use slices::{Part, Refusal};

// Room for every running sheet: 16 bytes for each of 8,192 scenes, 74 for the names and the totals.
pub const TEXT: usize = 131146;

// The seconds of the most letters.
const CELLS: usize = 32;

// The seconds of a sheet's text, to the start of the slice.
fn read_cells(text: &[u8], cells: &mut [u16]) -> Result<usize, Refusal>
    requires { length cells.old ≡ 32 }
    ensures { FillsWith (cells_in text.now) cells.old cells.new result }
{
    let mut sheet = [0u8; SHEET];
    let read = notation::read(text, &mut sheet, cells)?;
    Ok(timed(read.level, usize::from(sheet[0])))
}

// How many seconds a sheet's text has; none where it is not read.
pub fn count_cells(text: &[u8]) -> usize
    ensures { result ≡ cell_count text.now }
{
    let mut cells = [0u16; CELLS];
    read_cells(text, &mut cells).unwrap_or(0)
}

// The running sheet of a show's text, with these seconds.
fn write_running(seconds: &[u16], show: &[u8], out: &mut [u8]) -> Result<usize, Refusal>
    requires { 131146 ≤ length out.old }
    ensures { FillsWith (running seconds.now show.now) out.old out.new result }
{
    let mut opening = [0u8; SCENES];
    let mut period = [0u8; SCENES];
    let lengths = lasso_text::read(show, Part::Second, &mut opening, &mut period)?;
    running_sheet::write(
        &opening[..lengths.prefix],
        &period[..lengths.period],
        seconds,
        out,
    )
}

// The sheet's text first, then the show's.
fn write_texts(text: &[u8], show: &[u8], out: &mut [u8]) -> Result<usize, Refusal>
    requires { 131146 ≤ length out.old }
    ensures { FillsWith (of_cells (cells_in text.now) show.now) out.old out.new result }
{
    let mut cells = [0u16; CELLS];
    let count = read_cells(text, &mut cells)?;
    write_running(&cells[..count], show, out)
}

// Two files, of which so many bytes came.
pub fn write_files(text: &[u8], show: &[u8], out: &mut [u8]) -> Result<usize, Refusal>
    requires { 131146 ≤ length out.old }
    ensures { FillsWith (decided text.now show.now) out.old out.new result }
{
    console::check_lengths(text.len(), show.len())?;
    write_texts(text, show, out)
}
