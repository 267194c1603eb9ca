// What programs ask of a show's file, their second: how many opening lines it has.
#![tactic(auto)]

ghost use Rattle.std.specs.Prelude.{◌≡◌, ◌≤◌};
ghost use Rattle.show_files.specs.Shown.{openings};

use lasso_text::read;
use slices::Part;

// Room for the scenes of each part.
pub const SCENES: usize = 4096;

// How many opening lines the text has.
pub fn count_openings(show: &[u8]) -> usize
    ensures { (result ≡ openings show.now) × (result ≤ 4096) }
{
    let mut opening = [0u8; SCENES];
    let mut period = [0u8; SCENES];
    read(show, Part::Second, &mut opening, &mut period).map_or(0, |lengths| lengths.prefix)
}
