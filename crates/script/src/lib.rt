// A list of calls as text: what a line asks for.
#![tactic(auto)]

mod ask;

pub use ask::{Ask, Taken, ask_of};
