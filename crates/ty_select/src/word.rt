// Words, as the names of labels are.
ghost use Rattle.std.specs.Prelude.{◌≡◌};
ghost use Rattle.std.specs.List.{list_all};
ghost use Rattle.ty_select.specs.Words.{is_word_byte, is_word_len, is_word};

use crate::limits::WORD_BYTES;

/// Whether a text is a word, as the name of a label is: 1 to `WORD_BYTES` bytes out of letters, digits, `_`,
/// `.`, `/` and `-`.
pub fn is_word(text: &[u8]) -> bool
    ensures { result ≡ is_word text.now }
{
    is_word_len(text.len()) && are_word_bytes(text)
}

fn are_word_bytes(text: &[u8]) -> bool
    ensures { result ≡ list_all is_word_byte text.now }
{
    text.iter().all(|byte| is_word_byte(*byte))
}

/// Whether a word may have so many bytes.
pub(crate) fn is_word_len(count: usize) -> bool
    ensures { result ≡ is_word_len count }
{
    1 <= count && count <= WORD_BYTES
}

/// Whether it is a byte of words.
pub(crate) fn is_word_byte(byte: u8) -> bool
    ensures { result ≡ is_word_byte byte }
{
    byte.is_ascii_alphanumeric() || byte == b'_' || byte == b'.' || byte == b'/' || byte == b'-'
}
