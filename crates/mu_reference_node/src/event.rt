// What comes to a node, and what became of it.
use crate::logging::Entries;
use mu_codec::Packet;
use mu_model_node::FlashWork;

/// What comes to a node.
#[derive(Clone, Copy)]
pub enum Event<'a> {
    /// A packet, whether or not it is addressed to the node.
    Packet(&'a Packet),
    /// Time has passed.
    Time,
}

/// What became of an event.
#[derive(Drop)]
pub struct Stepped {
    /// Whether it was handled: a packet is where it is addressed to the node and asks what a node answers.
    pub handled: bool,
    /// What it did to the flash.
    pub work: FlashWork,
    /// What it did, for the log.
    pub entries: Entries,
}
