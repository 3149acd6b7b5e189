/// Why no number was born.
#[derive(Clone, Copy, PartialEq, Eq, Debug)]
pub enum PlaceFault {
    /// Each of the service's 2,048 numbers was born before.
    Spent,
}

/// What a look finds a number to be.
#[derive(Clone, Copy, PartialEq, Eq, Debug)]
pub enum Look {
    Live,
    Retired,
}
