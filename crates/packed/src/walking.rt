// A table by letter: cell 32 a + q has the next state of q by a. A step along a word is then one load, whose address
// waits for the last state alone.
ghost use Rattle.std.specs.Prelude.{◌≡◌, ◌+◌, ◌*◌, ◌≤◌, ◌<◌, length, get_or};
ghost use Rattle.fdfa.specs.Family.{walk};
ghost use Rattle.packed.specs.Columns.{column_step, column_cell, columns_of, Walkable};

// What cell i has: the next state of i % 32 by i / 32, or 0 where there is no such state.
fn cell(sheet: &[u8], at: usize, letters: usize, states: usize, i: usize) -> u8
    requires { (at + states * letters ≤ length sheet.now) × (i < 32 * letters) }
    ensures { result ≡ column_cell sheet.now at letters states i }
{
    let q = i % 32;
    if q < states {
        return sheet[at + (q * letters + i / 32)];
    }
    0
}

// The table by letter of an automaton whose table in the sheet begins at `at`.
pub fn columns(sheet: &[u8], at: usize, letters: usize, states: usize) -> [u8; 1024]
    requires { (at + states * letters ≤ length sheet.now) × (letters ≤ 32) }
    ensures { result ≡ columns_of sheet.now at letters states }
{
    let mut table = [0u8; 1024];
    for (i, entry) in table[..32 * letters].iter_mut().enumerate() {
        *entry = cell(sheet, at, letters, states, i);
    }
    table
}

fn read(column: &[u8], state: usize) -> usize
    requires { state < length column.now }
    ensures { result ≡ get_or column.now state 0 }
{
    usize::from(column[state])
}

// The next state by a column that begins at `from`: the address of the load waits for the state alone.
pub fn step_from(table: &[u8], from: usize, state: usize) -> usize
    requires { from + state < length table.now }
    ensures { result ≡ get_or table.now (from + state) 0 }
{
    read(&table[from..], state)
}

// The next state by a letter.
pub fn step(table: &[u8], state: usize, letter: usize) -> usize
    requires { 32 * letter + state < length table.now }
    ensures { result ≡ column_step table.now state letter }
{
    step_from(table, 32 * letter, state)
}

// Where the automaton stands after the word, from `state`.
pub fn walk(table: &[u8], state: usize, word: &[u8]) -> usize
    requires { Walkable table.now state word.now }
    ensures { result ≡ walk (column_step table.now) state word.now }
{
    let mut q = state;
    for &a in word {
        q = step(table, q, usize::from(a));
    }
    q
}
