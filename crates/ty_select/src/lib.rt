//! Selectors over labels: their text is read exactly by the grammar, and printed texts read back.
#![tactic(auto)]

mod depth;
mod expression;
mod fault;
mod laws;
mod limits;
mod piece;
mod selector;
mod term;
mod text;
mod token;
mod word;

pub use fault::{SelectFault, Wanted};
pub use laws::{
    faults_stand_where_no_selector_goes_on, one_reading, printed_reads_back,
    what_is_in_the_grammar_is_read, what_is_read_is_in_the_grammar, what_is_read_is_printable,
};
pub use limits::{MOST_OPEN, WORD_BYTES};
pub use selector::{Selector, Selectors, Texts};
pub use word::is_word;

#[cfg(test)]
mod tests;
