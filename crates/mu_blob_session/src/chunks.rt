// Chunks that come.
ghost use Rattle.std.specs.Prelude.{◌≡◌, ℕ, [], if◌then◌else◌, Some, length};
ghost use Rattle.std.specs.Option.{option_map, option_copied};
ghost use Rattle.mu_model_node.specs.Slots.{Slots, joined};
ghost use Rattle.mu_model_node.specs.BlobMessages.{ChunkTransfer};
ghost use Rattle.mu_model_node.specs.BlobServer.{Puts, heard_at};
ghost use Rattle.mu_model_node.specs.BlobTable.{on_blob, completes, to_client};
ghost use Rattle.mu_block.specs.Coming.{Coming, octets_of_chunk, with_chunk, is_whole, whole_of, whole_size};
ghost use Rattle.mu_blob_session.specs.Sound.{Suits};
ghost use Rattle.mu_blob_session.specs.Came.{CameAs, chunk_look};

use crate::session::{BlobSession, Kept};
use mu_blob_rows::{ChunkLook, ChunkStep};
use mu_block::BlockBuffer;
use mu_model_node::Parameters;

/// What came of a chunk.
#[derive(Clone, Copy)]
pub enum Came {
    /// It was passed over or heard, or it was received and others are missing.
    InPart,
    /// It was the last one of the block, in a transfer with these parameters: the block is to be put, and then `complete` to be called.
    Whole(Parameters),
}

fn look_of(block: &BlockBuffer, chunk: u16) -> Option<ChunkLook>
    ensures { result ≡ chunk_look block.now chunk }
{
    match block.octets_of(chunk) {
        None => None,
        Some(octets) => Some(ChunkLook {
            octets,
            is_received: block.has(chunk),
        }),
    }
}

impl BlobSession {
    ghost use Rattle.mu_blob_session.specs.Sessions.{session_in, session_with, coming_in, server_in};

    /// The number of the block that comes.
    pub fn block_number(&self) -> Option<u16>
        ensures { result ≡ option_map (λ c. c.block.number) (coming_in self.now) }
    {
        self.block.number()
    }

    /// The octets of the block that comes, where every chunk is there: as many as it has.
    pub fn block_octets(&self) -> Option<&[u8]>
        ensures octets { option_copied result ≡ whole_of (coming_in self.now) }
        ensures length { option_map (λ octets. length octets.now) result ≡ whole_size (coming_in self.now) }
    {
        self.block.octets()
    }

    // A chunk is received.
    fn receive(&mut self, parameters: Parameters, chunk: u16, octets: &[u8], now: u64) -> Came
        requires { octets_of_chunk (coming_in self.old) chunk ≡ Some (length octets.now) }
        ensures block { coming_in self.new ≡ option_map (λ c. with_chunk c chunk octets.now) (coming_in self.old) }
        ensures session { session_in self.new ≡ heard_at now (session_with self.old (coming_in self.new)) }
        ensures came { result ≡ (if is_whole (coming_in self.new) then Came.Whole parameters else Came.InPart) }
    {
        self.session.heard = now;
        self.block.put(chunk, octets);
        if self.block.is_full() {
            Came::Whole(parameters)
        } else {
            Came::InPart
        }
    }

    /// BLOB Chunk Transfer: the row, but for the block that it completes.
    pub fn chunk(&mut self, kept: Kept, chunk: u16, octets: &[u8], now: u64) -> Came
        requires { Suits kept.serving (session_in self.old).link (coming_in self.old) }
        ensures suits { Suits kept.serving (session_in self.new).link (coming_in self.new) }
        ensures number { option_map (λ c. c.block.number) (coming_in self.new) ≡ option_map (λ c. c.block.number) (coming_in self.old) }
        ensures row { (held : Slots) (from : ℕ) → CameAs (on_blob (server_in self.old kept held now) from (ChunkTransfer chunk octets.now)) (session_in self.new) (coming_in self.new) result }
    {
        let look = look_of(&self.block, chunk);
        match self.look(kept, now).chunk_transfer(look, octets.len()) {
            ChunkStep::PassOver => Came::InPart,
            ChunkStep::Hear => {
                self.session.heard = now;
                Came::InPart
            }
            ChunkStep::Receive(parameters) => self.receive(parameters, chunk, octets, now),
        }
    }

    /// The block that came was put: it is the last one, and none comes any more. In pull mode the client is answered, which is to be told
    /// that no chunk is missing.
    pub fn complete(&mut self, parameters: Parameters) -> Option<u16>
        ensures row { (c : Coming) → coming_in self.old ≡ Some c
            → completes (session_in self.old) parameters c.block c.block.chunks ≡ record { session = session_in self.new; change = Puts c.block.number (joined c.block.chunks); replies = to_client result [] } }
        ensures block { coming_in self.new ≡ None }
    {
        let (Some(number), Some(chunk_size)) = (self.block.number(), self.block.chunk_size()) else {
            return None;
        };
        self.block.close();
        self.session.complete(number, chunk_size);
        if parameters.mode == 2 {
            self.session.client
        } else {
            None
        }
    }
}
