// A file taken by a unit, by itself or in a response of the modem.
#![tactic(auto)]

mod put;
mod ready;
mod responses;
mod take;

pub use responses::take_response;
pub use take::take_file;
