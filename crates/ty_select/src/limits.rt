// The limits of a selector's text.

/// The most bytes of a word.
pub const WORD_BYTES: usize = 512;

/// How many `!` and `(` may be open at once.
pub const MOST_OPEN: u32 = 64;
