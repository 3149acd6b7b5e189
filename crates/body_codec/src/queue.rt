//! Bodies on their way to a disk. Those who wait for a body share its bytes.
use base_core::List;
use std::sync::Arc;

/// A queued body. The serial counts the bodies that were queued at the service.
#[derive(Debug, Drop)]
pub struct Ticket {
    /// The service.
    pub home: u32,
    pub serial: u64,
    pub body: Arc<List<u8>>,
}

/// A body that is durable, by its service and its number there.
#[derive(Debug, Drop)]
pub struct Receipt {
    /// The service.
    pub home: u32,
    /// The number of the body in the journals of the service.
    pub body: u64,
    pub spelling: Arc<List<u8>>,
}
