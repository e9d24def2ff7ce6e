// A session, with the block that comes.
ghost use Rattle.std.specs.Prelude.{◌≡◌, None};
ghost use Rattle.mu_model_wire.specs.Reports.{complement};
ghost use Rattle.mu_model_node.specs.Slots.{Slots, missing, received};
ghost use Rattle.mu_model_node.specs.BlobServer.{asleep, unlinked, made_ready};
ghost use Rattle.mu_blob_rows.specs.Sessions.{link_by};
ghost use Rattle.mu_block.specs.Coming.{chunks_of, IsOpen};
ghost use Rattle.mu_blob_session.specs.Blocks.{block_look, coming_after, is_cut_link, resumed};
ghost use Rattle.mu_blob_rows.specs.Looks.{server_with as looked_server};

use mu_blob_rows::{BlockLook, LinkChange, Look, Serving, Session};
use mu_block::BlockBuffer;
use mu_model_node::Link;
use mu_report::NumberSet;

/// What a server has in memory beside what it keeps: its session and the block that comes. The value is about 17 KB.
#[derive(Drop)]
pub struct BlobSession {
    pub(crate) session: Session,
    pub(crate) block: BlockBuffer,
}

/// What the owner of a server says of what is kept.
#[derive(Clone, Copy)]
pub struct Kept {
    /// Octets of a bank.
    pub capacity: u32,
    pub serving: Serving,
}

fn look_of(block: &BlockBuffer) -> Option<BlockLook>
    ensures { result ≡ block_look block.now }
{
    match (block.number(), block.chunk_size()) {
        (Some(number), Some(chunk_size)) => Some(BlockLook { number, chunk_size }),
        _ => None,
    }
}

fn close_by(block: &mut BlockBuffer, change: LinkChange)
    ensures { block.new ≡ coming_after change block.old }
{
    if let LinkChange::Unlinks = change {
        block.close();
    }
}

impl BlobSession {
    ghost use Rattle.mu_blob_session.specs.Sessions.{session_in, coming_in, server_in};

    /// After a boot: no link, and no block.
    pub fn asleep() -> BlobSession
        ensures session { session_in result ≡ asleep }
        ensures block { coming_in result ≡ None }
    {
        BlobSession {
            session: Session::asleep(),
            block: BlockBuffer::new(),
        }
    }

    /// The link becomes Cut, and no block comes any more.
    pub fn unlink(&mut self)
        ensures session { session_in self.new ≡ unlinked (session_in self.old) }
        ensures block { coming_in self.new ≡ None }
    {
        self.block.close();
        self.session.unlink();
    }

    /// A job is written: the link is Ready, and heard.
    pub fn make_ready(&mut self, now: u64)
        ensures session { session_in self.new ≡ made_ready now (session_in self.old) }
        ensures block { coming_in self.new ≡ coming_in self.old }
    {
        self.session.make_ready(now);
    }

    /// A job is taken up again: it is heard, and a Cut link becomes Ready.
    pub fn resume(&mut self, now: u64)
        ensures session { session_in self.new ≡ resumed now (session_in self.old) }
        ensures block { coming_in self.new ≡ coming_in self.old }
    {
        match self.session.link {
            Link::Cut => self.make_ready(now),
            _ => self.session.heard = now,
        }
    }

    /// Does what a row of the table does to the link.
    pub fn link(&mut self, change: LinkChange, now: u64, from: u16)
        ensures session { session_in self.new ≡ link_by change now from (session_in self.old) }
        ensures block { coming_in self.new ≡ coming_after change (coming_in self.old) }
    {
        close_by(&mut self.block, change);
        self.session.link(change, now, from);
    }

    /// Whether the link is Cut.
    pub fn is_cut(&self) -> bool
        ensures { result ≡ is_cut_link (session_in self.now).link }
    {
        self.session.link == Link::Cut
    }

    /// What holds of every block that comes: its ranges. It does nothing.
    pub fn known(&self)
        ensures { IsOpen (coming_in self.now) }
    {
        let _ = self.block.is_open();
    }

    /// The chunks of the block that comes that are missing: those below its count that weren't received since it began. The empty set below 0 where no
    /// block comes.
    pub fn missing(&self) -> NumberSet
        ensures missing { result ≡ missing (chunks_of (coming_in self.now)) }
        ensures rest { result ≡ complement (received (chunks_of (coming_in self.now))) }
    {
        self.block.missing()
    }

    /// The server as its rows look at it, at a moment.
    pub fn look<'a>(&'a self, kept: Kept, now: u64) -> Look<'a>
        ensures serving { result.serving ≡ kept.serving }
        ensures capacity { result.capacity ≡ kept.capacity }
        ensures current { result.current ≡ block_look (coming_in self.now) }
        ensures link { result.session.now.link ≡ (session_in self.now).link }
        ensures server { (held : Slots) → looked_server result held (chunks_of (coming_in self.now)) ≡ server_in self.now kept held now }
    {
        Look {
            capacity: kept.capacity,
            serving: kept.serving,
            session: &self.session,
            current: look_of(&self.block),
            now,
        }
    }
}
