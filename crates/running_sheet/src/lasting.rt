// How long a part lasts, and how long its lines are.
ghost use Rattle.std.specs.Prelude.{◌≡◌, ◌≤◌, length};
ghost use Rattle.running_sheet.specs.Places.{timed_lines, lasting};
ghost use Rattle.running_sheet.specs.Steps.{Measurable};

use numbers::small_width;

// The seconds of a part, summed.
pub fn sum_seconds(word: &[u8], seconds: &[u16]) -> usize
    requires { Measurable word.now seconds.now }
    ensures { (result ≡ lasting word.now seconds.now) × (result ≤ 65470464) }
{
    let mut total = 0;
    for &letter in word {
        let lasts = usize::from(seconds[usize::from(letter)]);
        total += lasts;
    }
    total
}

// The length of its lines, each of which begins with `start`.
pub fn measure(start: &[u8], word: &[u8], seconds: &[u16]) -> usize
    requires { (length start.now ≤ 8) × Measurable word.now seconds.now }
    ensures { (result ≡ length (timed_lines start.now word.now seconds.now)) ×
        (result ≤ 1048576) }
{
    let mut long = 0;
    for &c in word {
        let letter = usize::from(c);
        long += start.len() + small_width(letter) + small_width(usize::from(seconds[letter])) + 2;
    }
    long
}
