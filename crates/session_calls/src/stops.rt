/// Why the device could not do what was asked.
#[derive(Clone, Copy, Debug, PartialEq, Eq)]
pub enum DeviceStop {
    /// The medium or the root cell failed.
    Platform,
    /// The tape gave no key.
    Tape,
    /// The ledger failed.
    Ledger,
    /// The cell is full, and not with a root record that is served.
    BadRoot,
    /// The page at this address holds no record that fits its place.
    BadRecord {
        /// The address.
        addr: u64,
    },
    /// No memory was given.
    Memory,
}
