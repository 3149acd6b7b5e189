//! Labels of blank nodes (RDF 1.1 N-Triples, section 7, BLANK_NODE_LABEL).
ghost use Rattle.std.specs.Prelude.{◌≡◌};
ghost use Rattle.nt_text.specs.Reading.{ReadsFront, without_dot, whole_label};

use crate::utf8::as_text;
use term_core::is_label;

/// The bytes without a dot at their end, which is no part of a label.
pub fn without_dot(bytes: &[u8]) -> &[u8]
    ensures { result.now ≡ without_dot bytes.now }
{
    match bytes {
        [front @ .., b'.'] => front,
        _ => bytes,
    }
}

/// The label that the bytes are, if they are one: `(PN_CHARS_U | [0-9]) ((PN_CHARS | '.')* PN_CHARS)?`.
pub fn label_of(bytes: &[u8]) -> Option<&str>
    ensures { ReadsFront (λ label. label.now) result (whole_label bytes.now) }
{
    let Some(label) = as_text(bytes) else {
        return None;
    };
    if is_label(label) { Some(label) } else { None }
}
