// Bytes in lent slices: words and longer numbers, and runs of bytes that go to places in memory, swapped or not.
#![tactic(auto)]

mod numbers;
mod places;
mod runs;
mod words;

pub use numbers::{low, number_at, put_number};
pub use places::{gather, place_of, scatter};
pub use runs::copy;
pub use words::{put_word, word, word_sum};
