use arrayvec::ArrayVec;

/// The most octets of a message (Mesh Protocol, Upper Transport: 32 segments of 12 octets without a TransMIC of 4).
pub const MOST_OCTETS: usize = 380;

/// The octets of a message: its opcode and its fields.
pub type Payload = ArrayVec<u8, MOST_OCTETS>;

/// A message on its way between two members.
#[derive(Drop, Clone, Debug, Default, PartialEq, Eq)]
pub struct Packet {
    /// The unicast address of the sender.
    pub from: u16,
    /// The address that it is sent to, unicast or group.
    pub to: u16,
    /// The message.
    pub payload: Payload,
}

/// The packets that one event makes a member send, in their order.
pub type Outbox = ArrayVec<Packet, 32>;
