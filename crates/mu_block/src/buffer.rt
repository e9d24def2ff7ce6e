// The block that comes, or none.
ghost use Rattle.std.specs.Prelude.{◌≡◌, ◌≤◌, ◌+◌, None, Some, length, is_none, is_some};
ghost use Rattle.std.specs.List.{count_by};
ghost use Rattle.std.specs.Option.{option_map, option_copied};
ghost use Rattle.mu_model_wire.specs.Limits.{most_chunk};
ghost use Rattle.mu_model_wire.specs.Reports.{has, complement};
ghost use Rattle.mu_model_node.specs.Slots.{at, received, missing, held_count};
ghost use Rattle.mu_block.specs.Coming.{opened, chunks_of, octets_of_chunk, with_chunk, is_whole, whole_of, whole_size, IsOpen};

use mu_arith::{chunk_count, chunk_len};
use mu_model_image::laws::chunks;
use mu_report::NumberSet;
use std::marker::Model;

/// The block that comes, or none. The value is always there: opening and closing touch none of its 16,384 octets.
#[derive(Drop)]
pub struct BlockBuffer {
    open: bool,
    number: u16,
    chunk_size: u16,
    size: u16,
    came: NumberSet,
    // How many chunks are missing.
    left: u16,
    // The block's octets come first. What stands at the places of missing chunks means nothing.
    octets: [u8; 16384],
}

impl Model for BlockBuffer {
    ghost use Rattle.std.specs.Prelude.{Option};
    ghost use Rattle.mu_block.specs.Coming.{Coming};
    ghost use Rattle.mu_block.specs.Buffer.{coming_in, AreFields};

    ghost Value = { Option Coming };

    ghost view = { λ b. coming_in b.open b.number b.chunk_size b.size b.came b.octets };

    ghost invariant = { λ b. AreFields b.chunk_size b.size b.came b.left b.octets };
}

impl BlockBuffer {
    /// No block.
    pub fn new() -> BlockBuffer
        ensures { result ≡ None }
    {
        BlockBuffer {
            open: false,
            number: 0,
            chunk_size: 8,
            size: 1,
            came: NumberSet::new(1),
            left: 1,
            octets: [0; 16384],
        }
    }

    /// A block of so many octets begins, with no chunk. What came of another one is gone.
    pub fn open(&mut self, number: u16, chunk_size: u16, size: u16)
        requires size_least { 1 ≤ size }
        requires size_most { size ≤ 16384 }
        requires chunk_least { 8 ≤ chunk_size }
        requires chunk_most { chunk_size ≤ most_chunk }
        ensures { self.new ≡ Some (opened number chunk_size size) }
    {
        let count = chunk_count(size as u32, chunk_size);
        self.open = true;
        self.number = number;
        self.chunk_size = chunk_size;
        self.size = size;
        self.came = NumberSet::new(count);
        self.left = count;
    }

    /// No block from now on.
    pub fn close(&mut self)
        ensures { self.new ≡ None }
    {
        self.open = false;
    }

    /// Whether there is a block.
    pub fn is_open(&self) -> bool
        ensures there { result ≡ is_some self.now }
        ensures sound { IsOpen self.now }
    {
        self.open
    }

    /// The number of the block.
    pub fn number(&self) -> Option<u16>
        ensures { result ≡ option_map (λ c. c.block.number) self.now }
    {
        if self.open { Some(self.number) } else { None }
    }

    /// How many octets its chunks have, the last one perhaps fewer.
    pub fn chunk_size(&self) -> Option<u16>
        ensures { result ≡ option_map (λ c. c.block.chunk_size) self.now }
    {
        if self.open {
            Some(self.chunk_size)
        } else {
            None
        }
    }

    /// How many octets it has.
    pub fn size(&self) -> Option<u16>
        ensures { result ≡ option_map (λ c. c.size) self.now }
    {
        if self.open { Some(self.size) } else { None }
    }

    /// How many chunks it has; 0 without a block.
    pub fn count(&self) -> u16
        ensures { result ≡ length (chunks_of self.now) }
    {
        if self.open { self.came.bound() } else { 0 }
    }

    /// Whether a chunk is there.
    pub fn has(&self, chunk: u16) -> bool
        ensures { result ≡ is_some (at (chunks_of self.now) chunk) }
    {
        self.open && self.came.contains(chunk)
    }

    /// How many octets a chunk must have. None where the block has no such chunk, or there is no block.
    pub fn octets_of(&self, chunk: u16) -> Option<u16>
        ensures { result ≡ octets_of_chunk self.now chunk }
    {
        if self.open && chunk < self.came.bound() {
            Some(chunk_len(self.size as u32, self.chunk_size, chunk))
        } else {
            None
        }
    }

    /// A chunk comes, which is put in its place. One that is there already is replaced.
    pub fn put(&mut self, chunk: u16, octets: &[u8])
        requires { octets_of_chunk self.old chunk ≡ Some (length octets.now) }
        ensures { self.new ≡ option_map (λ c. with_chunk c chunk octets.now) self.old }
    {
        let begin = chunk as usize * self.chunk_size as usize;
        self.octets[begin..begin + octets.len()].copy_from_slice(octets);
        if !self.came.contains(chunk) {
            self.came.insert(chunk);
            self.left -= 1;
        }
    }

    /// Whether there is a block of which every chunk is there.
    pub fn is_full(&self) -> bool
        ensures { result ≡ is_whole self.now }
    {
        self.open && self.left == 0
    }

    /// The octets of the block, where every chunk is there: as many as it has.
    pub fn octets(&self) -> Option<&[u8]>
        ensures octets { option_copied result ≡ whole_of self.now }
        ensures length { option_map (λ octets. length octets.now) result ≡ whole_size self.now }
    {
        chunks();
        if !self.is_full() {
            return None;
        }
        let (block, _) = self.octets.split_at(self.size as usize);
        Some(block)
    }

    /// How many chunks are there; 0 without a block.
    pub fn received_count(&self) -> u16
        ensures { result ≡ held_count (chunks_of self.now) }
    {
        if self.open {
            self.came.bound() - self.left
        } else {
            0
        }
    }

    /// How many chunks are missing; 0 without a block.
    pub fn missing_count(&self) -> u16
        ensures { result ≡ count_by is_none (chunks_of self.now) }
    {
        if self.open { self.left } else { 0 }
    }

    /// The numbers of the chunks that are there; of none without a block.
    pub fn received(&self) -> NumberSet
        ensures { result ≡ received (chunks_of self.now) }
    {
        if self.open {
            self.came.missing().missing()
        } else {
            NumberSet::new(0)
        }
    }

    /// The numbers of the chunks that are missing: those below the count that aren't there. Of none without a block.
    pub fn missing(&self) -> NumberSet
        ensures missing { result ≡ missing (chunks_of self.now) }
        ensures rest { result ≡ complement (received (chunks_of self.now)) }
    {
        if self.open {
            self.came.missing()
        } else {
            NumberSet::new(0)
        }
    }
}
