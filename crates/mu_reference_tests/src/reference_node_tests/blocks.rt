// Transfers of several blocks and chunks.
use super::play::{answers, sends};
use arrayvec::ArrayVec;
use mu_image::{Digesting, Meta, make_image, meta_octets};
use mu_reference_node::{Node, Stop};
use std::alloc::Global;

/// A transfer to a node: the octets that are made, the octets of a chunk, and the mode.
#[derive(Clone, Copy)]
pub(super) struct Transfer {
    pub(super) seed: u16,
    pub(super) size: u32,
    pub(super) chunk: u16,
    pub(super) mode: u8,
}

/// A node of three pages a bank with the image of the octet 61, and the octets that it is to get.
#[derive(Drop)]
pub(super) struct Station {
    pub(super) node: Node,
    pub(super) octets: Vec<u8>,
    pub(super) transfer: Transfer,
}

fn station_of(alloc: Global, transfer: Transfer) -> Result<Station, Stop> {
    let Ok(octets) = Vec::from_slice(alloc, b"a") else {
        return Err(Stop::NoMemory);
    };
    let Ok(node) = Node::with_image(alloc, 3, 1, octets) else {
        return Err(Stop::NoMemory);
    };
    let Ok(octets) = make_image(alloc, transfer.seed, transfer.size) else {
        return Err(Stop::NoMemory);
    };
    Ok(Station {
        node,
        octets,
        transfer,
    })
}

const ID: &[u8] = b"\x07\x00\x00\x00\x00\x00\x01\x00";

/// What comes to a station, and what it answers: nothing where there are no octets.
#[derive(Clone, Copy)]
pub(super) enum Act {
    /// Update Start and Transfer Start; the octet of the missing blocks.
    Begin(u8),
    /// A packet at a moment.
    Say(u64, &'static [u8], &'static [u8]),
    /// A time event at a moment.
    Time(u64, &'static [u8]),
    /// At a moment, of a block, the chunks from one number to the one before another; nothing is answered.
    Chunks(u64, u16, u16, u16),
    /// At a moment, of a block, a chunk that is answered.
    Last(u64, u16, u16, &'static [u8]),
}

// Two blocks of 11 chunks; the first is held when it is asked for again.
pub(super) const WHOLE: &[Act] = &[
    Act::Begin(3),
    Act::Say(0, b"\x83\x04\x00\x00\x78\x01", b"\x67\x00\x00\x00\x78\x01"),
    Act::Chunks(0, 0, 4, 5),
    Act::Chunks(0, 0, 4, 5),
    Act::Chunks(0, 0, 4, 5),
    Act::Chunks(0, 0, 4, 5),
    Act::Chunks(0, 0, 4, 5),
    Act::Chunks(0, 0, 0, 11),
    Act::Say(0, b"\x83\x05", b"\x67\x40\x00\x00\x78\x01"),
    Act::Say(0, b"\x83\x04\x00\x00\x78\x01", b"\x67\x40\x00\x00\x78\x01"),
    Act::Say(
        0,
        b"\x83\x00",
        b"\x83\x03\x40\x02\x07\x00\x00\x00\x00\x00\x01\x00\x00\x20\x00\x00\x0c\x7c\x01\x02",
    ),
    Act::Say(0, b"\x83\x04\x01\x00\x78\x01", b"\x67\x00\x01\x00\x78\x01"),
    Act::Chunks(0, 1, 0, 11),
    Act::Say(0, b"\x83\x05", b"\x67\x40\x01\x00\x78\x01"),
    Act::Say(
        0,
        b"\x83\x0c",
        b"\x83\x10\x60\x05\x00\x00\x00\x07\x00\x00\x00\x00\x00\x01\x00\x00",
    ),
    Act::Time(1, b""),
    Act::Say(
        1,
        b"\x83\x0c",
        b"\x83\x10\x80\x05\x00\x00\x00\x07\x00\x00\x00\x00\x00\x01\x00\x00",
    ),
];

// A late copy of a chunk of block 0 comes before block 1's own.
pub(super) const LATE: &[Act] = &[
    Act::Begin(3),
    Act::Say(0, b"\x83\x04\x00\x00\x78\x01", b"\x67\x00\x00\x00\x78\x01"),
    Act::Chunks(0, 0, 4, 5),
    Act::Chunks(0, 0, 4, 5),
    Act::Chunks(0, 0, 4, 5),
    Act::Chunks(0, 0, 4, 5),
    Act::Chunks(0, 0, 4, 5),
    Act::Chunks(0, 0, 0, 11),
    Act::Say(0, b"\x83\x05", b"\x67\x40\x00\x00\x78\x01"),
    Act::Say(0, b"\x83\x04\x00\x00\x78\x01", b"\x67\x40\x00\x00\x78\x01"),
    Act::Say(
        0,
        b"\x83\x00",
        b"\x83\x03\x40\x02\x07\x00\x00\x00\x00\x00\x01\x00\x00\x20\x00\x00\x0c\x7c\x01\x02",
    ),
    Act::Say(0, b"\x83\x04\x01\x00\x78\x01", b"\x67\x00\x01\x00\x78\x01"),
    Act::Chunks(0, 0, 4, 5),
    Act::Chunks(0, 1, 0, 11),
    Act::Say(0, b"\x83\x05", b"\x67\x40\x01\x00\x78\x01"),
    Act::Say(
        0,
        b"\x83\x0c",
        b"\x83\x10\x60\x05\x00\x00\x00\x07\x00\x00\x00\x00\x00\x01\x00\x00",
    ),
    Act::Time(1, b""),
    Act::Say(
        1,
        b"\x83\x0c",
        b"\x83\x10\xa0\x05\x00\x00\x00\x07\x00\x00\x00\x00\x00\x01\x00\x00",
    ),
    Act::Say(1, b"\x83\x00", b"\x83\x03\x00\x00"),
];

// Three blocks: two of 21 chunks, the last of 96 octets, and one of 10 chunks, the last of 8 octets.
pub(super) const TILES: &[Act] = &[
    Act::Begin(7),
    Act::Say(0, b"\x83\x04\x00\x00\xc8\x00", b"\x67\x00\x00\x00\xc8\x00"),
    Act::Chunks(0, 0, 1, 9),
    Act::Chunks(0, 0, 10, 21),
    Act::Say(0, b"\x83\x05", b"\x67\xc0\x00\x00\xc8\x00\x00\x09"),
    Act::Say(
        0,
        b"\x83\x04\x00\x00\xc8\x00",
        b"\x67\xc0\x00\x00\xc8\x00\x00\x09",
    ),
    Act::Say(0, b"\x83\x04\x02\x00\xc8\x00", b"\x67\x04\x02\x00\xc8\x00"),
    Act::Say(0, b"\x66\x15\x00\x61", b""),
    Act::Chunks(0, 0, 0, 1),
    Act::Chunks(0, 0, 9, 10),
    Act::Say(0, b"\x83\x05", b"\x67\x40\x00\x00\xc8\x00"),
    Act::Say(0, b"\x83\x04\x02\x00\xc8\x00", b"\x67\x00\x02\x00\xc8\x00"),
    Act::Chunks(0, 2, 9, 10),
    Act::Say(0, b"\x66\x0a\x00\x61\x61\x61\x61\x61\x61\x61\x61", b""),
    Act::Say(0, b"\x83\x05", b"\x67\x80\x02\x00\xc8\x00\xff\x01"),
    Act::Chunks(0, 2, 0, 9),
    Act::Say(0, b"\x83\x05", b"\x67\x40\x02\x00\xc8\x00"),
    Act::Say(
        0,
        b"\x83\x00",
        b"\x83\x03\x40\x02\x07\x00\x00\x00\x00\x00\x01\x00\x10\x27\x00\x00\x0c\x7c\x01\x02",
    ),
    Act::Say(0, b"\x83\x04\x03\x00\xc8\x00", b"\x67\x01\x03\x00\xc8\x00"),
    Act::Say(0, b"\x83\x04\x01\x00\xc8\x00", b"\x67\x00\x01\x00\xc8\x00"),
    Act::Chunks(0, 1, 0, 21),
    Act::Say(
        0,
        b"\x83\x00",
        b"\x83\x03\x40\x04\x07\x00\x00\x00\x00\x00\x01\x00\x10\x27\x00\x00\x0c\x7c\x01\x00",
    ),
    Act::Time(1, b""),
    Act::Say(
        1,
        b"\x83\x0c",
        b"\x83\x10\x80\x05\x00\x00\x00\x07\x00\x00\x00\x00\x00\x01\x00\x00",
    ),
];

// The first 16 missing chunks are asked for: again after a second, or once all of them have come.
pub(super) const PULLED: &[Act] = &[
    Act::Begin(7),
    Act::Say(0, b"\x83\x04\x00\x00\xc8\x00", b"\x67\x00\x00\x00\xc8\x00"),
    Act::Time(
        1,
        b"\x68\x00\x01\x02\x03\x04\x05\x06\x07\x08\x09\x0a\x0b\x0c\x0d\x0e\x0f",
    ),
    Act::Time(1000, b""),
    Act::Time(
        1001,
        b"\x68\x00\x01\x02\x03\x04\x05\x06\x07\x08\x09\x0a\x0b\x0c\x0d\x0e\x0f",
    ),
    Act::Chunks(1002, 0, 0, 15),
    Act::Time(1003, b""),
    Act::Chunks(1004, 0, 15, 16),
    Act::Time(1005, b"\x68\x10\x11\x12\x13\x14"),
    Act::Chunks(1006, 0, 16, 20),
    Act::Time(1007, b""),
    Act::Last(1008, 0, 20, b"\x68"),
    Act::Time(1009, b""),
];

// A chunk that was received before is heard, and a Block Get after a block.
pub(super) const HEARD: &[Act] = &[
    Act::Begin(7),
    Act::Say(0, b"\x83\x04\x00\x00\xc8\x00", b"\x67\x00\x00\x00\xc8\x00"),
    Act::Chunks(0, 0, 0, 1),
    Act::Chunks(9999, 0, 0, 1),
    Act::Time(10000, b""),
    Act::Say(
        10000,
        b"\x83\x0c",
        b"\x83\x10\x40\x05\x00\x00\x00\x07\x00\x00\x00\x00\x00\x01\x00\x00",
    ),
    Act::Chunks(10000, 0, 1, 21),
    Act::Say(19999, b"\x83\x05", b"\x67\x40\x00\x00\xc8\x00"),
    Act::Time(20000, b""),
    Act::Say(
        20000,
        b"\x83\x0c",
        b"\x83\x10\x40\x05\x00\x00\x00\x07\x00\x00\x00\x00\x00\x01\x00\x00",
    ),
    Act::Time(29999, b""),
    Act::Say(
        29999,
        b"\x83\x0c",
        b"\x83\x10\x20\x05\x00\x00\x00\x07\x00\x00\x00\x00\x00\x01\x00\x00",
    ),
];

fn message(parts: &[&[u8]]) -> ArrayVec<u8, 380> {
    let mut octets = ArrayVec::new();
    for part in parts {
        let _ = octets.try_extend_from_slice(part);
    }
    octets
}

fn chunk_message(chunk: u16, octets: &[u8]) -> ArrayVec<u8, 380> {
    let mut message = ArrayVec::new();
    let _ = message.try_extend_from_slice(b"\x66");
    let _ = message.try_extend_from_slice(&chunk.to_le_bytes());
    let _ = message.try_extend_from_slice(octets);
    message
}

impl Station {
    fn metadata(&self) -> [u8; 40] {
        let mut digesting = Digesting::new();
        digesting.take(&self.octets);
        meta_octets(&Meta {
            size: self.transfer.size,
            version: 2,
            digest: digesting.done(),
        })
    }

    fn says(&mut self, alloc: Global, now: u64, octets: &[u8], reply: &[u8]) -> Result<bool, Stop> {
        answers(&mut self.node, alloc, octets, now, reply)
    }

    fn begins(&mut self, alloc: Global, blocks: u8) -> Result<bool, Stop> {
        let metadata = self.metadata();
        let size = self.transfer.size.to_le_bytes();
        let mode = if self.transfer.mode == 2 { 0x80 } else { 0x40 };
        let start = message(&[b"\x83\x0d\x05\x00\x00", ID, &[0], &metadata]);
        let started = message(&[b"\x83\x10\x40\x05\x00\x00\x00", ID, &[0]]);
        let transfer = message(&[b"\x83\x01", &[mode], ID, &size, b"\x0c\x7c\x01"]);
        let begun = message(&[
            b"\x83\x03",
            &[mode, 2],
            ID,
            &size,
            b"\x0c\x7c\x01",
            &[blocks],
        ]);
        Ok(
            self.says(alloc, 0, start.as_slice(), started.as_slice())?
                && self.says(alloc, 0, transfer.as_slice(), begun.as_slice())?,
        )
    }

    fn chunk(
        &mut self,
        alloc: Global,
        now: u64,
        block: u16,
        chunk: u16,
        reply: &[u8],
    ) -> Result<bool, Stop> {
        let begin = usize::from(block) * 4096;
        let end = (begin + 4096).min(self.octets.len());
        let from = begin + usize::from(chunk) * usize::from(self.transfer.chunk);
        let to = (from + usize::from(self.transfer.chunk)).min(end);
        let Some(octets) = self.octets.get(from..to) else {
            return Ok(false);
        };
        let octets = chunk_message(chunk, octets);
        self.says(alloc, now, octets.as_slice(), reply)
    }

    fn chunks(
        &mut self,
        alloc: Global,
        now: u64,
        block: u16,
        from: u16,
        to: u16,
    ) -> Result<bool, Stop> {
        for chunk in from..to {
            if !self.chunk(alloc, now, block, chunk, b"")? {
                return Ok(false);
            }
        }
        Ok(true)
    }

    fn does(&mut self, alloc: Global, act: Act) -> Result<bool, Stop> {
        match act {
            Act::Begin(blocks) => self.begins(alloc, blocks),
            Act::Say(now, octets, reply) => self.says(alloc, now, octets, reply),
            Act::Time(now, reply) => sends(&mut self.node, alloc, now, reply),
            Act::Chunks(now, block, from, to) => self.chunks(alloc, now, block, from, to),
            Act::Last(now, block, chunk, reply) => self.chunk(alloc, now, block, chunk, reply),
        }
    }
}

/// The first act that a station doesn't do so, and the version of its active image at the end.
pub(super) fn plays_to(
    alloc: Global,
    transfer: Transfer,
    acts: &[Act],
) -> Result<(Option<usize>, u32), Stop> {
    let mut station = station_of(alloc, transfer)?;
    for (index, act) in acts.iter().enumerate() {
        if !station.does(alloc, *act)? {
            return Ok((Some(index), 0));
        }
    }
    if station.node.images() != 1 {
        return Ok((None, 0));
    }
    Ok((None, station.node.active(0).version))
}
