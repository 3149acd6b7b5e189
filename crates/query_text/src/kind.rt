//! The kinds of a query's tokens (SPARQL 1.1 Query Language, section 19.8).

/// The rule of the grammar that a token keeps; a text's longest front that keeps one is its first token.
#[derive(Clone, Copy, Debug, PartialEq, Eq)]
pub enum TokenKind {
    /// `IRIREF`
    Iriref,
    /// `STRING_LITERAL1`, `STRING_LITERAL2`
    Str,
    /// `LANGTAG`
    Langtag,
    /// `VAR1`, `VAR2`
    Var,
    /// `BLANK_NODE_LABEL`
    Label,
    /// `PNAME_NS`, `PNAME_LN`
    PrefixName,
    /// `INTEGER`, with a sign if there is one
    Integer,
    /// `DECIMAL`, with a sign if there is one
    Decimal,
    /// `DOUBLE`, with a sign if there is one
    Double,
    /// The three quotes that begin `STRING_LITERAL_LONG1` or `STRING_LITERAL_LONG2`
    Long,
    /// An ASCII letter, and letters, digits and `_`
    Word,
    /// A mark of one character, or `^^`
    Symbol,
}
