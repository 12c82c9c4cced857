// Words that stand for bytes, read into a lent buffer; bytes, numbers and hex digits put into one.
#![tactic(auto)]

mod field;
mod hex;
mod put;

pub use field::{bytes_of, digits_of, hex_of};
pub use put::{put_hex, put_number, put_text};
