/// Why a scan ends without its rows.
#[derive(Clone, Copy, Debug, PartialEq, Eq)]
pub enum ScanFault {
    /// Eight different numbers were each listed when this scan asked for them, and retired when they were used.
    Again { numbers: [u32; 8] },
}
