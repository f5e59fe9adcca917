ghost use Rattle.std.specs.Prelude.{◌≡◌, true, not, take, position};
ghost use Rattle.up_base.specs.Name.{is_name, is_name_byte};

use std::marker::Model;
use thiserror::Error;

/// The longest name, in bytes.
pub const NAME_SIZE: usize = 64;

/// A text is no name. `at` is the least place below 64 of a byte that may not stand in a name, else the length of the
/// text, which is then 0 or above 64.
#[derive(Clone, Copy, Debug, PartialEq, Eq, Error)]
#[error("not a name: place {at}")]
pub struct BadName {
    pub at: usize,
}

/// Whether the byte is one of `A-Z a-z 0-9 . _ -`.
fn is_name_byte(byte: u8) -> bool
    ensures { result ≡ is_name_byte byte }
{
    matches!(byte, b'A'..=b'Z' | b'a'..=b'z' | b'0'..=b'9' | b'.' | b'_' | b'-')
}

/// The place of the first of the text's first 64 bytes that may not stand in a name.
fn first_bad(text: &[u8]) -> Option<usize>
    ensures { result ≡ position (λ byte. not (is_name_byte byte)) (take NAME_SIZE text.now) }
{
    text.iter()
        .take(NAME_SIZE)
        .position(|byte| !is_name_byte(*byte))
}

/// 1 to 64 name bytes, kept inline and followed by zeros.
#[derive(Clone, Copy, Debug)]
pub struct NameText {
    bytes: [u8; NAME_SIZE],
    len: u8,
}

impl Model for NameText {
    ghost use Rattle.std.specs.Prelude.{List, ℕ};

    ghost Value = { List ℕ };

    ghost use Rattle.up_base.specs.NameText.{spelled, padded, IsPadded, padded-spelled};

    ghost view = { spelled };

    ghost invariant = { IsPadded };

    ghost inverse = { padded };

    ghost inverse_ok = { padded-spelled };
}

impl NameText {
    ghost use Rattle.up_base.specs.NameOf.{name_of};

    #[tactic(auto, unfolding(crate::specs::NameOf::name_of))]
    pub fn read(text: &[u8]) -> Result<NameText, BadName>
        ensures { result ≡ name_of text.now }
    {
        if let Some(at) = first_bad(text) {
            return Err(BadName { at });
        }
        if text.is_empty() || text.len() > NAME_SIZE {
            return Err(BadName { at: text.len() });
        }
        Ok(NameText::keep(text))
    }

    /// Keeps a text that is a name.
    pub(crate) fn keep(text: &[u8]) -> NameText
        requires { is_name text.now ≡ true }
        ensures { result ≡ text.now }
    {
        let mut bytes = [0; NAME_SIZE];
        for (at, byte) in text.iter().enumerate() {
            bytes[at] = *byte;
        }
        NameText {
            bytes,
            len: text.len() as u8,
        }
    }

    pub fn bytes(&self) -> &[u8]
        ensures bytes { result.now ≡ self.now }
        ensures name { is_name result.now ≡ true }
    {
        &self.bytes[..self.len as usize]
    }
}
