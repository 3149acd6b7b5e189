//! Language tags (RDF 1.1 N-Triples, section 7, LANGTAG).
ghost use Rattle.std.specs.Prelude.{◌≡◌, IfOk, map};
ghost use Rattle.std.specs.Char.{to_ascii_lowercase};
ghost use Rattle.nt_text.specs.Reading.{is_tag, next_place};

use std::alloc::{AllocError, Global};

/// Where in a tag a byte stands.
#[derive(Clone, Copy)]
struct Place {
    /// In the language, which comes first, and not in a later group.
    first: bool,
    /// Behind a letter or a digit of its group.
    filled: bool,
}

/// Whether the bytes are a tag: `[a-zA-Z]+ ('-' [a-zA-Z0-9]+)*`.
#[tactic(auto, unfolding(crate::specs::Reading::is_tag))]
pub fn is_tag(bytes: &[u8]) -> bool
    ensures { result ≡ is_tag bytes.now }
{
    let mut place = Place {
        first: true,
        filled: false,
    };
    for byte in bytes {
        let Some(next) = next_place(place, *byte) else {
            return false;
        };
        place = next;
    }
    place.filled
}

fn next_place(place: Place, byte: u8) -> Option<Place>
    ensures { result ≡ next_place place byte }
{
    if byte == b'-' {
        if !place.filled {
            return None;
        }
        return Some(Place {
            first: false,
            filled: false,
        });
    }
    if byte.is_ascii_alphabetic() || !place.first && byte.is_ascii_digit() {
        Some(Place {
            first: place.first,
            filled: true,
        })
    } else {
        None
    }
}

/// The tag in lower case.
pub fn lower_case(alloc: Global, tag: &[u8]) -> Result<Vec<u8>, AllocError>
    ensures { IfOk result (λ made. made.items ≡ map to_ascii_lowercase tag.now) }
{
    tag.iter()
        .map(|byte| byte.to_ascii_lowercase())
        .collect(alloc)
}
