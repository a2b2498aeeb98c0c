// Texts, and want of memory.
ghost use Rattle.std.specs.Prelude.{◌≡◌, List, ℕ, IfOk, IsErrOf, string_bytes};
ghost use Rattle.std.specs.Str.{IsUtf8, bytes_eq};
ghost use Rattle.std.specs.Ordering.{nat_cmp};
ghost use Rattle.std.specs.Cmp.Lexicographic.{slice_cmp};

use std::alloc::{AllocError, AllocFailed, Global};
use std::cmp::Ordering;
use std::marker::Model;
use std::str;

/// Want of memory, and nothing else.
#[derive(Clone, Copy, Debug, PartialEq, Eq)]
pub struct NoMemory;

impl From<AllocError> for NoMemory {
    fn from(_: AllocError) -> Self {
        NoMemory
    }
}

impl<T: Drop> From<AllocFailed<T>> for NoMemory {
    fn from(_: AllocFailed<T>) -> Self {
        NoMemory
    }
}

/// Why bytes are no text.
#[derive(Clone, Copy, Debug, PartialEq, Eq)]
pub enum TextFault {
    /// They aren't UTF-8 (RFC 3629).
    NotUtf8,
    /// Memory ran out.
    NoMemory,
}

/// A `String`, which contracts see as the list of its bytes.
#[derive(Drop)]
pub struct Text {
    text: String,
}

impl Model for Text {
    ghost Value = { List ℕ };

    ghost view = { λ t. string_bytes t.text };
}

impl Text {
    /// A copy of a string.
    pub fn of(alloc: Global, text: &str) -> Result<Text, NoMemory>
        ensures { IfOk result (λ t. t ≡ text.now) }
    {
        Ok(Text {
            text: String::from_str(alloc, text)?,
        })
    }

    /// The text that bytes are, where they are UTF-8.
    pub fn read(alloc: Global, bytes: &[u8]) -> Result<Text, TextFault>
        ensures text { IfOk result (λ t. t ≡ bytes.now) }
        ensures utf8 { IfOk result (λ _. IsUtf8 bytes.now) }
        ensures fault { IsErrOf result TextFault.NotUtf8 → ¬ (IsUtf8 bytes.now) }
    {
        let Ok(text) = str::from_utf8(bytes) else {
            return Err(TextFault::NotUtf8);
        };
        match Text::of(alloc, text) {
            Ok(text) => Ok(text),
            Err(NoMemory) => Err(TextFault::NoMemory),
        }
    }

    /// A string that is handed over, without a copy.
    pub fn from_string(text: String) -> Text
        ensures { result ≡ string_bytes text }
    {
        Text { text }
    }

    /// The string that a text is, without a copy.
    pub fn into_string(self) -> String
        ensures { string_bytes result ≡ self }
    {
        let Text { text } = self;
        text
    }

    /// The text as a string slice.
    pub fn as_str(&self) -> &str
        ensures { result.now ≡ self.now }
    {
        self.text.as_str()
    }

    /// Its bytes.
    pub fn bytes(&self) -> &[u8]
        ensures value { result.now ≡ self.now }
        ensures utf8 { IsUtf8 self.now }
    {
        self.text.as_str().as_bytes()
    }

    /// Another text of the same bytes.
    pub fn copy(&self, alloc: Global) -> Result<Text, NoMemory>
        ensures { IfOk result (λ t. t ≡ self.now) }
    {
        Text::of(alloc, self.text.as_str())
    }

    /// How two texts stand to each other by their bytes, the first that differs deciding.
    pub fn compare(&self, other: &Text) -> Ordering
        ensures { result ≡ slice_cmp nat_cmp self.now other.now }
    {
        self.text.as_str().cmp(other.text.as_str())
    }

    /// Whether two texts have the same bytes.
    pub fn same(&self, other: &Text) -> bool
        ensures { result ≡ bytes_eq self.now other.now }
    {
        self.text.as_str() == other.text.as_str()
    }
}
