//! What a scan says of the history whose rows it reads. These functions do nothing: each stands for its law.
ghost use Rattle.scan_core.specs.Values.{ScanStartedLaw, ScanTakenLaw, ScanDoneLaw};

/// A scan that starts has read nothing, and has no row.
pub fn scan_started_law()
    ensures { ScanStartedLaw }
{}

/// Of the keys that were read, a scan has exactly the last values; a reply that has those of the keys that it passes
/// leaves it so.
pub fn scan_taken_law()
    ensures { ScanTakenLaw }
{}

/// Once nothing is left, it has exactly the last values of the whole span.
pub fn scan_done_law()
    ensures { ScanDoneLaw }
{}
