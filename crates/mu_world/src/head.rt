// Where a packet stands in the bag.

/// Where a packet begins among the octets of all, how many it has, and whom it is from and to.
#[derive(Clone, Copy)]
pub(crate) struct Head {
    pub(crate) begins: usize,
    pub(crate) length: u16,
    pub(crate) from: u16,
    pub(crate) to: u16,
}
