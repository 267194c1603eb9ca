// The next pairs of many pairs as one table: row x has the next pair of the pair x by each letter.
ghost use Rattle.std.specs.Prelude.{◌≡◌, ◌*◌, ◌≤◌, length};
ghost use Rattle.slices.specs.Filling.{written};
ghost use Rattle.slices.specs.Tables.{tab, table};
ghost use Rattle.pairing.specs.Pairs.{next_pair_of, Reads, Steps};

use crate::{Beside, next_pair};

// Writes the row of the pair x.
fn write_row(first: &[u8], second: &[u8], t: Beside, x: usize, out: &mut [u16])
    requires { Reads first.now second.now t x × (t.letters ≤ length out.old) }
    ensures { out.new
        ≡ written (tab t.letters (next_pair_of first.now second.now t x)) out.old }
{
    for (a, next) in out[..t.letters].iter_mut().enumerate() {
        *next = next_pair(first, second, t, x, a) as u16;
    }
}

// Writes the rows of `count` pairs, one after the other.
pub fn tabulate(first: &[u8], second: &[u8], t: Beside, count: usize, out: &mut [u16])
    requires { Steps first.now second.now t count × (count * t.letters ≤ length out.old) }
    ensures { out.new
        ≡ written (table count t.letters (next_pair_of first.now second.now t)) out.old }
{
    let mut at = 0;
    for x in 0..count {
        write_row(first, second, t, x, &mut out[at..]);
        at += t.letters;
    }
}
