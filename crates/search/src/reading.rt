// A code's word, read back from the queue along the parents.
ghost use Rattle.std.specs.Prelude.{◌≤◌, length};
ghost use Rattle.search.specs.Paths.{Readable, Deep, Filled};

// The number of letters of a code's word.
pub fn depth(cells: &[u64], code: usize) -> usize
    requires { Readable cells.now code }
    ensures { Deep cells.now code result }
{
    let mut c = code;
    let mut d = 0;
    while c > 0 {
        c = (cells[c - 1] / 34359738368) as usize;
        d += 1;
    }
    d
}

// The letters of a code's word, written from the last to the first.
pub fn fill(cells: &[u64], code: usize, len: usize, out: &mut [u8])
    requires deep { Deep cells.now code len }
    requires code_in_bounds { (code ≤ length cells.now) × (len ≤ length out.old) }
    ensures { Filled cells.now code len out.old out.new }
{
    let mut c = code;
    for at in (0..len).rev() {
        let e = cells[c - 1];
        out[at] = (e / 1073741824 % 32) as u8;
        c = (e / 34359738368) as usize;
    }
}
