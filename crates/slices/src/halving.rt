// Numbers of 16 bits as bytes, two for each, low byte first.
ghost use Rattle.std.specs.Prelude.{◌≡◌, ◌*◌, ◌≤◌, ◌/◌, length};
ghost use Rattle.slices.specs.Filling.{written};
ghost use Rattle.slices.specs.Halves.{halves_of, half_bytes_of};

// The numbers that some bytes are, to the start of a slice.
pub fn halves(bytes: &[u8], cells: &mut [u16])
    requires { length bytes.now / 2 ≤ length cells.old }
    ensures { cells.new ≡ written (halves_of bytes.now) cells.old }
{
    for (i, pair) in bytes.chunks_exact(2).enumerate() {
        cells[i] = u16::from_le_bytes([pair[0], pair[1]]);
    }
}

// The bytes of some numbers, to the start of a slice.
pub fn half_bytes(cells: &[u16], bytes: &mut [u8])
    requires { length cells.now * 2 ≤ length bytes.old }
    ensures { bytes.new ≡ written (half_bytes_of cells.now) bytes.old }
{
    for (i, &x) in cells.iter().enumerate() {
        let [low, high] = x.to_le_bytes();
        bytes[i * 2] = low;
        bytes[i * 2 + 1] = high;
    }
}
