// A refusal in words, for people: the file and its place by line and column or byte, the number and the sentence.
#![tactic(auto)]

mod reasons; // reasons.rt: a reason's number and sentence
mod scenes; // scenes.rt: a refusal of a scene, in the show's text
mod words; // words.rt: the words of a refusal

pub use scenes::{is_scene, put_scene, scene_position, show_words};
pub use words::{WORDS, refusal_words};

// A place of a text: its line and its column, from 1.
#[derive(Clone, Copy, Debug, PartialEq, Eq)]
pub struct Position {
    pub line: usize,
    pub column: usize,
}
