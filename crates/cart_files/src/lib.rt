// What the cart program decides of the bytes that came of its files: a sheet in any form, and the texts of shows, which
// come one after the other.
#![tactic(auto)]

mod deciding; // deciding.rt: what the sheet says of the cart
mod gathering; // gathering.rt: the cart of the texts that came
mod scenes; // scenes.rt: which show a place of the cart lies in

pub use deciding::decide;
pub use gathering::{add_show, start};
pub use scenes::scene_at;
use slices::Refusal;

// Room for 64 shows of two times 4,096 scenes.
pub const CART: usize = 524545;

// What is refused first of the texts that came: nothing; a text, or its room; or, before all such, a text that is too
// long.
#[derive(Clone, Copy, Debug, PartialEq, Eq)]
pub enum Kept {
    Nothing,
    Text(Refusal),
    Long(Refusal),
}

// What is held of the texts that came: how many they are, how many bytes of the cart, and the refusal.
#[derive(Clone, Copy, Debug, PartialEq, Eq)]
pub struct Collected {
    pub count: usize,
    pub length: usize,
    pub kept: Kept,
}

// A scene of a cart: the index of its show, how many scenes the opening of that show has, and the place in its part.
#[derive(Clone, Copy, Debug, PartialEq, Eq)]
pub struct Scene {
    pub show: usize,
    pub openings: usize,
    pub place: usize,
}
