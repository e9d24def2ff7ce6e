// What isn't kept over a power cut, but for the block that comes.
ghost use Rattle.std.specs.Prelude.{◌≡◌, Option, None, Some};
ghost use Rattle.mu_model_node.specs.Slots.{Slots};
ghost use Rattle.mu_model_node.specs.BlobServer.{CurrentBlock, asleep, unlinked, made_ready};
ghost use Rattle.mu_blob_rows.specs.Sessions.{session_of, link_by, session_by, current_by_link, current_by};

use arrayvec::ArrayVec;
use mu_model_node::{LastBlock, Link, Parameters};

/// The last Partial Block Report of the block that comes.
#[derive(Drop)]
pub struct PullReport {
    /// When it was sent, in milliseconds.
    pub moment: u64,
    /// The chunks that were asked for.
    pub chunks: ArrayVec<u16, 16>,
}

/// What isn't kept over a power cut, but for the block that comes.
#[derive(Drop)]
pub struct Session {
    pub link: Link,
    /// The block that was completed or asked for last.
    pub last: Option<LastBlock>,
    /// The client's address.
    pub client: Option<u16>,
    /// The moment last heard, in milliseconds.
    pub heard: u64,
    pub report: Option<PullReport>,
}

/// What a row does to the link.
#[derive(Clone, Copy)]
pub enum LinkChange {
    Keeps,
    Hears,
    Links,
    Unlinks,
}

/// What a row does to the session.
#[derive(Clone, Copy)]
pub enum SessionChange {
    Link(LinkChange),
    /// The block is held already: it is the last one.
    Holds {
        block: u16,
        chunk_size: u16,
    },
    /// The block of a transfer with these parameters comes now, with no chunk received.
    Opens {
        parameters: Parameters,
        block: u16,
        chunk_size: u16,
    },
}

impl Session {
    /// After a boot.
    pub fn asleep() -> Session
        ensures { session_of result None ≡ asleep }
    {
        Session {
            link: Link::Cut,
            last: None,
            client: None,
            heard: 0,
            report: None,
        }
    }

    /// The link becomes Cut. No block comes any more.
    pub fn unlink(&mut self)
        ensures { (c : Option CurrentBlock) → session_of self.new None ≡ unlinked (session_of self.old c) }
    {
        self.link = Link::Cut;
        self.last = None;
        self.client = None;
        self.report = None;
    }

    /// A job is written, or taken up again.
    pub fn make_ready(&mut self, now: u64)
        ensures { (c : Option CurrentBlock) → session_of self.new c ≡ made_ready now (session_of self.old c) }
    {
        self.link = Link::Ready;
        self.heard = now;
    }

    /// Does what a row says of the link. Where it unlinks, no block comes any more.
    pub fn link(&mut self, change: LinkChange, now: u64, from: u16)
        ensures { (c : Option CurrentBlock) → session_of self.new (current_by_link change c) ≡ link_by change now from (session_of self.old c) }
    {
        match change {
            LinkChange::Keeps => (),
            LinkChange::Hears => self.heard = now,
            LinkChange::Links => {
                self.link = Link::Running;
                self.client = Some(from);
                self.heard = now;
            }
            LinkChange::Unlinks => self.unlink(),
        }
    }

    /// Does what a row says. Which block comes then is the owner's.
    pub fn change(&mut self, change: SessionChange, now: u64, from: u16)
        ensures { (c : Option CurrentBlock) → session_of self.new (current_by change c) ≡ session_by change now from (session_of self.old c) }
    {
        match change {
            SessionChange::Link(change) => self.link(change, now, from),
            SessionChange::Holds { block, chunk_size } => {
                self.last = Some(LastBlock {
                    number: block,
                    chunk_size,
                });
                self.heard = now;
            }
            SessionChange::Opens { .. } => {
                self.report = None;
                self.heard = now;
            }
        }
    }

    /// All chunks of the block that came are there: it is the last one, and none comes any more.
    pub fn complete(&mut self, block: u16, chunk_size: u16)
        ensures { session_of self.new None ≡ record (session_of self.old None) { last = Some (record { number = block; chunk_size = chunk_size }); report = None } }
    {
        self.last = Some(LastBlock {
            number: block,
            chunk_size,
        });
        self.report = None;
    }
}
