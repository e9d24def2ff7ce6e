use arrayvec::ArrayVec;
use mu_codec::Payload;
use mu_model_flash::Pattern;

/// An image as a script gives it.
#[derive(Debug, Drop)]
pub enum Content {
    /// Its octets, 1 to 1,024.
    Hex(ArrayVec<u8, 1024>),
    /// So many octets, 1 to 1,048,576, as the seed makes them.
    Made { seed: u16, size: u32 },
}

/// What a line of a script makes happen.
#[derive(Debug, Drop)]
pub enum Event {
    /// A node at a unicast address, in a group or in none (0), whose banks have so many pages (1 to 256), with its
    /// first image and that image's version.
    Node {
        addr: u16,
        group: u16,
        pages: u16,
        version: u32,
        content: Content,
    },
    /// The same with two images, each with its version.
    Pair {
        addr: u16,
        group: u16,
        pages: u16,
        version: u32,
        content: Content,
        second_version: u32,
        second_content: Content,
    },
    /// A node with one image, whose note is of the older form.
    Old {
        addr: u16,
        group: u16,
        pages: u16,
        version: u32,
        content: Content,
    },
    /// A stranger sends a packet of 1 to 380 octets from a unicast address to a unicast address or a group.
    Say {
        from: u16,
        to: u16,
        payload: Payload,
    },
    /// A packet, by its number, comes to the member at a unicast address.
    Deliver {
        packet: u32,
        addr: u16,
    },
    /// A time event at the member at a unicast address, whose moment becomes this one (0 to 2^63 - 1 milliseconds)
    /// where it is later.
    Time {
        addr: u16,
        ms: u64,
    },
    /// The member at a unicast address is booted from its flash.
    Cut {
        addr: u16,
    },
    /// The power of the member at a unicast address goes at its flash operation `n` (1 to 1,000), and the pattern says
    /// what that operation leaves of its range (a seed is at most 65,535).
    Tear {
        addr: u16,
        n: u16,
        pattern: Pattern,
    },
    /// Shows the active images of the node at a unicast address.
    Active {
        addr: u16,
    },
    /// Shows the phases of the member at a unicast address.
    Phase {
        addr: u16,
    },
}
