// The log of a world.
use mu_reference_node::What;

/// An entry of the log.
#[derive(Clone, Copy, Debug, PartialEq, Eq)]
pub struct LogEntry {
    /// The address of the node.
    pub node: u16,
    /// What happened there.
    pub what: What,
}
