//! Bytes as text.
ghost use Rattle.std.specs.Prelude.{◌≡◌, IfOk};
ghost use Rattle.std.specs.Str.{is_utf8};
ghost use Rattle.nt_text.specs.Reading.{ReadsFront, Makes, utf8_text};

use base_core::{Text, Want};
use std::alloc::Global;
use std::str;

/// The bytes as text, if they are UTF-8.
pub fn as_text(bytes: &[u8]) -> Option<&str>
    ensures { ReadsFront (λ text. text.now) result (utf8_text bytes.now) }
{
    match str::from_utf8(bytes) {
        Ok(text) => Some(text),
        Err(_) => None,
    }
}

/// A copy of the bytes as text; `None` where they are no UTF-8.
pub fn text_from(alloc: Global, bytes: &[u8]) -> Result<Option<Text>, Want>
    ensures { IfOk result (λ text. Makes (λ made. made) text (is_utf8 bytes.now) bytes.now) }
{
    match as_text(bytes) {
        Some(text) => Ok(Some(Text::of(alloc, text)?)),
        None => Ok(None),
    }
}
