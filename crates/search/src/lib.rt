// A breadth-first search over two automata side by side, which keeps its queue in lent cells: expanding a state by all
// letters, the search to its end, and reading a state or its first word back.
#![tactic(auto)]

mod reading; // reading.rt: a code's word, read back

ghost use Rattle.std.specs.Prelude.{◌≡◌, ◌%◌, ◌≤◌, ◌<◌, length, replicate};
ghost use Rattle.search.specs.Queue.{place_at, state_at};
ghost use Rattle.search.specs.Search.{Aim, joint, Ready, Searchable, Expanded, Explored};

pub use reading::{depth, fill};

// How the search goes on: with so many codes found, or an ending met, by its code.
#[derive(Clone, Copy, Debug, PartialEq, Eq)]
pub enum Expansion {
    On(usize),
    Ending(usize),
}

// The state of a code, and its row above it.
fn place_of(cells: &[u64], code: usize, root: usize) -> usize
    requires { code ≤ length cells.now }
    ensures { result ≡ place_at root cells.now code }
{
    if code == 0 {
        root
    } else {
        let c = cells[code - 1];
        (c % 1073741824) as usize
    }
}

// The state of a code.
pub fn state_of(cells: &[u64], code: usize, root: usize) -> usize
    requires { code ≤ length cells.now }
    ensures { result ≡ state_at root cells.now code }
{
    place_of(cells, code, root) % 1048576
}

// Expands the code `head` by every letter in its order. Each next state is entered at the queue's tail, and the tail
// moves on by the state's status, which is 0 once the state was met; a status of 2 ends the search. The next state is
// leads + width × rows.
pub fn expand(
    leads: &[u16],
    rows: &[u16],
    width: usize,
    letters: usize,
    root: usize,
    head: usize,
    total: usize,
    status: &mut [u8],
    cells: &mut [u64],
) -> Expansion
    requires { Searchable leads.now rows.now width letters root status.old cells.old total head × (head < total) }
    ensures { (aim : Aim)
        → Ready leads.now rows.now width letters root status.old cells.old total head aim
        → Expanded (joint leads.now rows.now width letters root aim) status.new cells.new head result }
{
    let place = place_of(cells, head, root);
    let row = place / 1048576;
    let from = row * letters;
    let lead = (place % 1048576 - row * width) * letters;
    let mut codes = total;
    for a in 0..letters {
        let next = usize::from(leads[lead + a]) + usize::from(rows[from + a]) * (width + 1048576);
        cells[codes - 1] = (next + 1073741824 * (a + 32 * head)) as u64;
        let x = next % 1048576;
        let m = status[x];
        status[x] = 0;
        if m == 2 {
            return Expansion::Ending(codes);
        }
        codes += usize::from(m);
    }
    Expansion::On(codes)
}

// Searches until an ending is met or every code is expanded.
pub fn explore(
    leads: &[u16],
    rows: &[u16],
    width: usize,
    letters: usize,
    root: usize,
    status: &mut [u8],
    cells: &mut [u64],
) -> Expansion
    requires { Searchable leads.now rows.now width letters root status.old cells.old 1 0 }
    ensures { (aim : Aim)
        → Ready leads.now rows.now width letters root status.old cells.old 1 0 aim
        → Explored (joint leads.now rows.now width letters root aim) status.new cells.new result }
{
    let mut total = 1;
    let mut head = 0;
    while head < total {
        match expand(
            leads, rows, width, letters, root, head, total, status, cells,
        ) {
            Expansion::Ending(code) => {
                return Expansion::Ending(code);
            }
            Expansion::On(codes) => {
                total = codes;
            }
        }
        head += 1;
    }
    Expansion::On(total)
}

pub fn clear(cells: &mut [u64])
    ensures { cells.new ≡ replicate (length cells.old) 0 }
{
    cells.fill(0);
}

// Sets every state as not met.
pub fn refresh(status: &mut [u8])
    ensures { status.new ≡ replicate (length status.old) 1 }
{
    status.fill(1);
}
