// The base of a script's text: lines out of chunks of input, words and numbers out of a line, bytes, numbers and forms as text.
#![tactic(auto)]

mod form;
mod lines;
mod number;
mod words;
mod write;

pub use form::{Row, put_row};
pub use lines::{Held, gather, line_end, without_return};
pub use number::{NumberError, are_digits, digit, read_number};
pub use words::{Word, next_word, part_of, word_end};
pub use write::{put, put_decimal, put_hex, put_hex_word};
