//! Texts that lie in the value itself where they are short.

ghost use Rattle.std.specs.Prelude.{◌≡◌, ◌≤◌, length, IfOk, IsUtf8};

use std::alloc::{AllocError, Global};
use std::marker::Model;

/// The bytes of the longest text that lies in the value itself. With a tag and its length it takes 24
/// bytes, as a `Vec` does.
const MOST_INLINE: usize = 22;

#[derive(Drop)]
enum Storage {
    Inline(u8, [u8; MOST_INLINE]),
    Heap(Box<String>),
}

/// A text, which contracts see as its bytes in UTF-8.
///
/// A short one takes no memory of its own.
#[derive(Drop)]
pub struct Text {
    storage: Storage,
}

impl Model for Text {
    ghost use Rattle.std.specs.Prelude.{ℕ, List};
    ghost use Rattle.term_core.specs.Text.{stored_bytes, IsStored};

    ghost Value = { List ℕ };

    ghost view = { λ t. stored_bytes t.storage };

    ghost invariant = { λ t. IsStored t.storage };
}

impl Text {
    pub fn from_str(alloc: Global, text: &str) -> Result<Text, AllocError>
        ensures { IfOk result (λ made. made ≡ text.now) }
    {
        if text.len() <= MOST_INLINE {
            return Ok(inline_text(text));
        }
        let text = String::from_str(alloc, text)?;
        Ok(Text {
            storage: Storage::Heap(Box::new(alloc, text)?),
        })
    }

    /// The bytes, with no test of UTF-8.
    pub fn as_bytes(&self) -> &[u8]
        ensures { result.now ≡ self.now }
    {
        match &self.storage {
            Storage::Inline(len, bytes) => &bytes[..*len as usize],
            Storage::Heap(text) => text.as_str().as_bytes(),
        }
    }

    pub fn as_str(&self) -> &str
        ensures { result.now ≡ self.now }
    {
        match &self.storage {
            Storage::Inline(len, bytes) => match str::from_utf8(&bytes[..*len as usize]) {
                Ok(text) => text,
                Err(_) => unreachable!(),
            },
            Storage::Heap(text) => text.as_str(),
        }
    }

    pub fn try_clone(&self, alloc: Global) -> Result<Text, AllocError>
        ensures { IfOk result (λ copied. copied ≡ self.now) }
    {
        match &self.storage {
            Storage::Inline(len, bytes) => Ok(Text {
                storage: Storage::Inline(*len, *bytes),
            }),
            Storage::Heap(text) => Text::from_str(alloc, text.as_str()),
        }
    }
}

fn inline_text(text: &str) -> Text
    requires { length text.now ≤ MOST_INLINE }
    ensures { result ≡ text.now }
{
    let mut bytes = [0; MOST_INLINE];
    let len = text.len();
    bytes[..len].copy_from_slice(text.as_bytes());
    Text {
        storage: Storage::Inline(len as u8, bytes),
    }
}
