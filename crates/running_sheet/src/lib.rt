// The running sheet of a show: a line for each scene with its seconds, then how long opening and loop last.
#![tactic(auto)]

mod judging; // judging.rt: the show and the seconds, judged
mod lasting; // lasting.rt: how long a part lasts, and how long its lines are
mod writing; // writing.rt: the text in a lent slice

pub use writing::write;
