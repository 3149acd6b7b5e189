//! Numbers, character by character.
ghost use Rattle.std.specs.Prelude.{◌≡◌};
ghost use Rattle.query_text.specs.Scanning.{number_advance, number_accepted, with_digit, exponent};

use crate::kind::TokenKind;

/// What has been read of a number.
#[derive(Clone, Copy, Debug)]
pub enum NumberScan {
    /// `+` or `-`
    Sign { plus: bool },
    /// Digits.
    Integer,
    /// Digits and a dot.
    Point,
    /// A dot with no digit before it, alone or behind a sign.
    Dot { alone: bool },
    /// A digit behind the dot.
    Decimal,
    /// `e` or `E`
    Exponent,
    /// The sign of an exponent.
    ExponentSign,
    /// Digits of an exponent.
    Double,
}

impl NumberScan {
    /// What has been read with this character; `None` where no token goes on so.
    pub fn advance(self, c: char) -> Option<NumberScan>
        ensures { result ≡ number_advance self c }
    {
        if c.is_ascii_digit() {
            return Some(self.with_digit());
        }
        match self {
            NumberScan::Sign { .. } if c == '.' => Some(NumberScan::Dot { alone: false }),
            NumberScan::Integer if c == '.' => Some(NumberScan::Point),
            NumberScan::Integer | NumberScan::Point | NumberScan::Decimal => exponent(c),
            NumberScan::Exponent if c == '+' || c == '-' => Some(NumberScan::ExponentSign),
            _ => None,
        }
    }

    fn with_digit(self) -> NumberScan
        ensures { result ≡ with_digit self }
    {
        match self {
            NumberScan::Sign { .. } | NumberScan::Integer => NumberScan::Integer,
            NumberScan::Point | NumberScan::Dot { .. } | NumberScan::Decimal => NumberScan::Decimal,
            NumberScan::Exponent | NumberScan::ExponentSign | NumberScan::Double => {
                NumberScan::Double
            }
        }
    }

    /// The kind of the token that has been read, if it is one.
    pub fn accepted(self) -> Option<TokenKind>
        ensures { result ≡ number_accepted self }
    {
        match self {
            NumberScan::Sign { plus: true } | NumberScan::Dot { alone: true } => Some(
                TokenKind::Symbol,
            ),
            NumberScan::Integer => Some(TokenKind::Integer),
            NumberScan::Decimal => Some(TokenKind::Decimal),
            NumberScan::Double => Some(TokenKind::Double),
            _ => None,
        }
    }
}

fn exponent(c: char) -> Option<NumberScan>
    ensures { result ≡ exponent c }
{
    if c == 'e' || c == 'E' {
        Some(NumberScan::Exponent)
    } else {
        None
    }
}
