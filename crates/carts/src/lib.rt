// Carts: up to 64 shows as bytes, loaded where a sheet accepts each.
#![tactic(auto)]

mod judging; // judging.rt: a cart, judged by itself
mod verdicts; // verdicts.rt: the verdicts on its shows, and the cart in the out slice
mod places; // places.rt: where the shows of a cart lie

pub use verdicts::{judge, load};

// What loading a cart answers: how many bytes are loaded, or the index of the first show that is rejected, from 0.
#[derive(Clone, Copy, Debug, PartialEq, Eq)]
pub enum Loading {
    Loaded(usize),
    Rejected(usize),
}

// Where a show lies: where its prefix begins, where its period does, and where it ends.
#[derive(Clone, Copy, Debug, PartialEq, Eq)]
struct Span {
    prefix: usize,
    period: usize,
    end: usize,
}
