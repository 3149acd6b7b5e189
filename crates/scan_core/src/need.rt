/// Where a scan, or a job, goes on.
#[derive(Clone, Copy, Debug, PartialEq, Eq)]
pub enum Need {
    /// In no room.
    Alone,
    /// In the room of all commits.
    Commit,
    /// In the room of all places.
    Place,
    /// In the room of the service of this number.
    Service(u32),
    /// Nowhere: it has come to its end.
    Done,
}
