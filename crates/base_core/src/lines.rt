//! Cutting bytes into lines.
ghost use Rattle.std.specs.Prelude.{◌≡◌, ◌↔◌, ◌∷◌, ◌<◌, ◌≤◌, ℕ, List, [], length, drop, IsNone, IfSome};
ghost use Rattle.base_core.specs.Lines.{lines_of, begins_with_lf, onto_first};

/// Where a line ends.
#[derive(Clone, Copy, Debug, PartialEq, Eq)]
pub enum LineEnd {
    /// At LF, at CR, and at CR followed by LF, which is one end (RDF 1.1 N-Triples, EOL).
    Any,
    /// At LF, with one CR before it dropped.
    LineFeed,
}

const LF: u8 = b'\n';

const CR: u8 = b'\r';

/// The first line without its end, and the bytes behind that end; `None` where there are no bytes.
pub fn first_line(bytes: &[u8], end: LineEnd) -> Option<(&[u8], &[u8])>
    ensures none { IsNone result ↔ (bytes.now ≡ []) }
    ensures cut { IfSome result (λ found. lines_of end bytes.now ≡ found.0.now ∷ lines_of end found.1.now) }
    ensures shorter { IfSome result (λ found. length found.1.now < length bytes.now) }
{
    if bytes.is_empty() {
        return None;
    }
    for at in 0..bytes.len() {
        let (line, rest) = bytes.split_at(at);
        let width = end_width(rest, end);
        if width > 0 {
            let (_, behind) = rest.split_at(width);
            return Some((line, behind));
        }
    }
    let (line, rest) = bytes.split_at(bytes.len());
    Some((line, rest))
}

/// How many bytes of a line's end stand at the front: none where the line goes on.
fn end_width(bytes: &[u8], end: LineEnd) -> usize
    ensures within { result ≤ length bytes.now }
    ensures end { 0 < result → lines_of end bytes.now ≡ [] ∷ lines_of end (drop result bytes.now) }
    ensures inside { (b : ℕ) (rest : List ℕ) → result ≡ 0 → bytes.now ≡ b ∷ rest →
        lines_of end bytes.now ≡ onto_first b (lines_of end rest) }
{
    let Some((first, rest)) = bytes.split_first() else {
        return 0;
    };
    if *first == LF {
        return 1;
    }
    if *first != CR {
        return 0;
    }
    if lf_follows(rest) {
        return 2;
    }
    match end {
        LineEnd::Any => 1,
        LineEnd::LineFeed => 0,
    }
}

fn lf_follows(bytes: &[u8]) -> bool
    ensures { result ≡ begins_with_lf bytes.now }
{
    match bytes.first() {
        Some(b) => *b == LF,
        None => false,
    }
}
