// The answer slice of the calls for C: what a call says as numbers, stored byte by byte.
#![tactic(auto)]

ghost use Rattle.std.specs.Prelude.{◌≡◌, [], ◌∷◌, ◌*◌, ◌≤◌, length};
ghost use Rattle.slices.specs.Filling.{written};
ghost use Rattle.answers.specs.Layout.{part_number_of, number_bytes, layout, numbers_of, padded, refusal_numbers_of};

use slices::{Part, Refusal};

// What a call returns where the answer slice is too short; `tell` returns the other.
pub const SHORT: u32 = 0;

const WRITTEN: u32 = 1;

pub fn part_number(part: Part) -> u64
    ensures { result ≡ part_number_of part }
{
    match part {
        Part::First => 0,
        Part::Second => 1,
        Part::Opening => 2,
        Part::Loop => 3,
        Part::Out => 4,
        Part::Work => 5,
        Part::Cursor => 6,
        Part::Seconds => 7,
    }
}

// The numbers of a refusal, with zeros behind them.
pub fn refusal_numbers<const N: usize>(r: Refusal) -> [u64; N]
    requires { 3 ≤ N }
    ensures { result ≡ padded N (refusal_numbers_of r) }
{
    let mut numbers = [0; N];
    numbers[0] = u64::from(r.reason.number());
    numbers[1] = part_number(r.part);
    numbers[2] = r.place as u64;
    numbers
}

// The numbers of a call that fills the out slice.
pub fn fill_numbers(answer: Result<usize, Refusal>) -> [u64; 3]
    ensures { result ≡ padded 3 (numbers_of (λ n. n ∷ []) answer) }
{
    match answer {
        Ok(n) => [0, n as u64, 0],
        Err(r) => refusal_numbers(r),
    }
}

// Writes a number's 8 bytes, low byte first.
fn put_number(x: u64, out: &mut [u8])
    requires { 8 ≤ length out.old }
    ensures { out.new ≡ written (number_bytes x) out.old }
{
    out[..8].copy_from_slice(&x.to_le_bytes());
}

// Writes the numbers of an answer. What it returns is what the call then returns.
pub fn tell(numbers: &[u64], answer: &mut [u8]) -> u32
    requires { 8 * length numbers.now ≤ length answer.old }
    ensures { (result ≡ 1) × (answer.new ≡ written (layout numbers.now) answer.old) }
{
    for (k, &number) in numbers.iter().enumerate() {
        let at = 8 * k;
        put_number(number, &mut answer[at..]);
    }
    WRITTEN
}
