//! Elements of any width in bits, packed into 64-bit words, as the word arrays of a blob hold them.
#![tactic(auto)]

mod copy;
mod counts;
mod words;

pub use copy::copy_bits;
pub use counts::{all_ones, digits, total_width, words_for, zeros};
pub use words::{element, element_at, set_element};
