//! Readers of trees from the beginning of a list of tokens: one token, lists of items, and their laws.
#![tactic(auto)]

mod errors;
mod first;
mod halt;
mod items;
mod nested;

pub use errors::SyntaxErr;
pub use first::{
    begins, begins_id, begins_mark, begins_word_of, flag, id, is_mark, is_word, mark, number,
    stands_before, word, word_of,
};
pub use halt::{Halt, Parsed};
pub use items::{Production, after_mark, joined, some_until, some_while, until, while_word};
pub use nested::{Nested, each_nested, joined_nested, some_nested};
