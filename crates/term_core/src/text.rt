//! Text that contracts see as the list of its UTF-8 bytes.

ghost use Rattle.std.specs.Prelude.{◌≡◌, IfOk, IsUtf8, IsTrue, ℕ, false, string_bytes};
ghost use Rattle.std.specs.Str.{is_utf8};
ghost use Rattle.std.specs.Str.Lossy.{utf8_valid_len};
ghost use Rattle.term_core.specs.declared.text.TextFault.TheVariants.{NotUtf8};

use std::alloc::{AllocError, AllocFailed, Global};
use std::marker::Model;

/// The allocator had no room. No other answer of a call depends on the memory at hand.
#[derive(Clone, Copy, Debug, PartialEq, Eq)]
pub struct Memory;

impl From<AllocError> for Memory {
    fn from(_: AllocError) -> Self {
        Memory
    }
}

impl<T: Drop> From<AllocFailed<T>> for Memory {
    fn from(_: AllocFailed<T>) -> Self {
        Memory
    }
}

/// Why bytes became no text.
#[derive(Clone, Copy, Debug, PartialEq, Eq)]
pub enum TextFault {
    /// The bytes are not UTF-8 (RFC 3629, section 4). The longest prefix that is UTF-8 has `at` bytes.
    NotUtf8 { at: usize },
    /// The allocator had no room for the copy.
    Memory,
}

/// A Unicode text, kept as UTF-8 (RFC 3629). Contracts see its bytes.
#[derive(Debug, Drop)]
pub struct Text {
    text: String,
}

impl Model for Text {
    ghost use Rattle.std.specs.Prelude.{List, ℕ, string_bytes};

    ghost Value = { List ℕ };

    ghost view = { λ t. string_bytes t.text };
}

impl Text {
    /// Copies `bytes` into a text of their own. `NotUtf8` comes exactly where the bytes are not
    /// UTF-8 (RFC 3629, section 4), whatever the memory at hand.
    pub fn from_bytes(alloc: Global, bytes: &[u8]) -> Result<Text, TextFault>
        ensures ok { IfOk result (λ t. t ≡ bytes.now) }
        ensures utf8 { IfOk result (λ t. IsUtf8 bytes.now) }
        ensures not_utf8 { (at : ℕ) → result ≡ Err (NotUtf8 at)
            → (IsUtf8 bytes.now → ⊥) × (at ≡ utf8_valid_len bytes.now) }
        ensures refused { is_utf8 bytes.now ≡ false → result ≡ Err (NotUtf8 (utf8_valid_len bytes.now)) }
        ensures tested { IfOk result (λ t. IsTrue (is_utf8 bytes.now)) }
    {
        match str::from_utf8(bytes) {
            Ok(text) => match String::from_str(alloc, text) {
                Ok(text) => Ok(Text { text }),
                Err(_) => Err(TextFault::Memory),
            },
            Err(e) => Err(TextFault::NotUtf8 {
                at: e.valid_up_to(),
            }),
        }
    }

    /// The text of a string, which is taken and not copied.
    pub fn from_string(text: String) -> Text
        ensures { result ≡ string_bytes text }
    {
        Text { text }
    }

    /// The string of the text, which is taken and not copied.
    pub(crate) fn into_string(self) -> String
        ensures { string_bytes result ≡ self }
    {
        let Text { text } = self;
        text
    }

    /// Copies a string slice into a text of its own.
    pub fn from_str(alloc: Global, text: &str) -> Result<Text, Memory>
        ensures { IfOk result (λ t. t ≡ text.now) }
    {
        Ok(Text {
            text: String::from_str(alloc, text)?,
        })
    }

    /// The bytes of the text, in order.
    pub fn bytes(&self) -> &[u8]
        ensures same { result.now ≡ self.now }
        ensures utf8 { IsUtf8 self.now }
    {
        self.text.as_str().as_bytes()
    }

    /// The text as std's string slice.
    pub fn as_str(&self) -> &str
        ensures same { result.now ≡ self.now }
        ensures utf8 { IsUtf8 self.now }
    {
        self.text.as_str()
    }

    /// An equal text with room of its own.
    pub fn copy(&self, alloc: Global) -> Result<Text, Memory>
        ensures { IfOk result (λ t. t ≡ self.now) }
    {
        Ok(Text {
            text: String::from_str(alloc, self.text.as_str())?,
        })
    }
}
