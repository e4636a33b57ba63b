//! A NAME, of a plan, a destination or a resource.

ghost use Rattle.std.specs.Prelude.{◌≡◌, IfOk, MatchOption, true, false};
ghost use Rattle.std.specs.List.{list_all};
ghost use Rattle.std.specs.Str.{bytes_eq};
ghost use Rattle.plan_parts.specs.Name.{is_name_byte, is_name};

use crate::ranges::MAX_NAME_BYTES;
use std::alloc::{AllocError, Global};
use std::marker::Model;
use std::str;

/// 1 to 64 bytes, each an ASCII letter, a digit, `_`, `-` or `.`. Contracts see the list of the bytes.
#[derive(Debug, Drop)]
pub struct Name {
    text: String,
}

impl Model for Name {
    ghost use Rattle.std.specs.Prelude.{◌≡◌, List, ℕ, string_bytes, true};
    ghost use Rattle.plan_parts.specs.Name.{is_name};

    ghost Value = { List ℕ };

    ghost view = { λ n. string_bytes n.text };

    ghost invariant = { λ n. is_name (string_bytes n.text) ≡ true };
}

impl Name {
    /// Reads the NAME in `bytes`. Returns `None` if they are no NAME. Fails only if memory is refused.
    pub fn read(alloc: Global, bytes: &[u8]) -> Result<Option<Name>, AllocError>
        ensures { IfOk result (λ name. MatchOption name (is_name bytes.now ≡ false)
            (λ n. n ≡ bytes.now)) }
    {
        let Ok(text) = str::from_utf8(bytes) else {
            return Ok(None);
        };
        if !is_name(bytes) {
            return Ok(None);
        }
        Ok(Some(Name {
            text: String::from_str(alloc, text)?,
        }))
    }

    /// Copies the NAME. Fails only if memory is refused.
    pub fn copy(&self, alloc: Global) -> Result<Name, AllocError>
        ensures { IfOk result (λ name. name ≡ self.now) }
    {
        Ok(Name {
            text: String::from_str(alloc, self.text.as_str())?,
        })
    }

    /// Returns whether these bytes are this NAME.
    pub fn is(&self, bytes: &[u8]) -> bool
        ensures { result ≡ bytes_eq self.now bytes.now }
    {
        self.text.as_bytes() == bytes
    }

    /// Returns the NAME as text.
    pub fn as_str(&self) -> &str
        ensures value { result.now ≡ self.now }
        ensures kept { is_name self.now ≡ true }
    {
        self.text.as_str()
    }
}

/// Returns whether `bytes` are a NAME.
pub fn is_name(bytes: &[u8]) -> bool
    ensures { result ≡ is_name bytes.now }
{
    1 <= bytes.len() && bytes.len() <= MAX_NAME_BYTES && are_name_bytes(bytes)
}

fn are_name_bytes(bytes: &[u8]) -> bool
    ensures { result ≡ list_all is_name_byte bytes.now }
{
    bytes.iter().all(|byte| is_name_byte(*byte))
}

fn is_name_byte(byte: u8) -> bool
    ensures { result ≡ is_name_byte byte }
{
    matches!(byte, b'a'..=b'z' | b'A'..=b'Z' | b'0'..=b'9' | b'_' | b'-' | b'.')
}
