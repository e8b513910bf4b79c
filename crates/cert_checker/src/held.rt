/// What is kept of a live address.
#[derive(Drop)]
pub(crate) enum Held {
    /// A data record of a block.
    Data(u64),
    /// A node over these children.
    Node(Vec<u64>),
}

/// An address that a certificate adds, and what is kept of it.
#[derive(Drop)]
pub(crate) struct Placed {
    /// The address.
    pub(crate) addr: u64,
    /// What is kept of it.
    pub(crate) held: Held,
}
