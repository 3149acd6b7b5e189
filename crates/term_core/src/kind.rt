//! The tag bytes of the spellings of terms.

pub const IRI: u8 = 1;

pub const LITERAL: u8 = 2;

pub const TAGGED: u8 = 3;

pub const BLANK: u8 = 4;
