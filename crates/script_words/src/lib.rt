// The words of a line of text, and the numbers among them.
#![tactic(auto)]

mod number;
mod words;

pub use number::number_of;
pub use words::{place, word, word_count};
