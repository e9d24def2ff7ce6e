// Changes of what isn't kept over a power cut.
ghost use Rattle.std.specs.Prelude.{◌≡◌, ◌≤◌, length, IfOk, OnErr};
ghost use Rattle.mu_model_node.specs.Slots.{missing};
ghost use Rattle.mu_model_node.specs.BlobServer.{asleep, unlinked, made_ready};
ghost use Rattle.mu_model_node.specs.There.{there};
ghost use Rattle.mu_reference.specs.View.{current_of, session_of};
ghost use Rattle.mu_reference.specs.BlobRows.{chunks_in, OpensWithin};
ghost use Rattle.mu_blob_rows.specs.Sessions.{link_by, session_by, opened, current_by_link};

use crate::slots::Slots;
use crate::values::{CurrentBlock, RowSession, Session};
use mu_arith::{block_len, chunk_count};
use mu_blob_rows::{LinkChange, SessionChange};
use mu_model_node::Parameters;
use mu_report::NumberSet;
use std::alloc::{AllocError, Global};

fn close_by(current: &mut Option<CurrentBlock>, change: LinkChange)
    ensures { there current_of current.new ≡ current_by_link change (there current_of current.old) }
{
    if let LinkChange::Unlinks = change {
        *current = None;
    }
}

fn open_block(
    alloc: Global,
    parameters: Parameters,
    block: u16,
    chunk_size: u16,
) -> Result<CurrentBlock, AllocError>
    requires { OpensWithin (SessionChange.Opens parameters block chunk_size) }
    ensures { IfOk result (λ current. current_of current ≡ opened parameters block chunk_size) }
{
    let octets = block_len(parameters.size, parameters.log, block);
    let count = chunk_count(octets, chunk_size);
    let chunks = Slots::empty(alloc, usize::from(count))?;
    Ok(CurrentBlock {
        number: block,
        chunk_size,
        chunks,
    })
}

impl Session {
    /// After a boot.
    pub fn asleep() -> Session
        ensures { session_of result ≡ asleep }
    {
        Session {
            rest: RowSession::asleep(),
            current: None,
        }
    }

    /// The link becomes Cut.
    pub fn unlink(&mut self)
        ensures { session_of self.new ≡ unlinked (session_of self.old) }
    {
        self.current = None;
        self.rest.unlink();
    }

    /// A job is written, or taken up again.
    pub fn make_ready(&mut self, now: u64)
        ensures { session_of self.new ≡ made_ready now (session_of self.old) }
    {
        self.rest.make_ready(now);
    }

    /// Does what a row says of the link.
    pub fn link(&mut self, change: LinkChange, now: u64, from: u16)
        ensures { session_of self.new ≡ link_by change now from (session_of self.old) }
    {
        close_by(&mut self.current, change);
        self.rest.link(change, now, from);
    }

    /// Does what a row says. Without memory nothing changes.
    pub fn change(
        &mut self,
        alloc: Global,
        change: SessionChange,
        now: u64,
        from: u16,
    ) -> Result<(), AllocError>
        requires { OpensWithin change }
        ensures ok { IfOk result (λ _. session_of self.new ≡ session_by change now from (session_of self.old)) }
        ensures err { OnErr result (self.new ≡ self.old) }
    {
        match change {
            SessionChange::Link(change) => self.link(change, now, from),
            SessionChange::Holds { .. } => self.rest.change(change, now, from),
            SessionChange::Opens {
                parameters,
                block,
                chunk_size,
            } => {
                self.current = Some(open_block(alloc, parameters, block, chunk_size)?);
                self.rest.change(change, now, from);
            }
        }
        Ok(())
    }

    /// The set of the chunks that are missing of the block that comes; the empty set below 0 where none comes.
    pub fn missing(&self) -> NumberSet
        requires { length (chunks_in (session_of self.now).current) ≤ 2048 }
        ensures { result ≡ missing (chunks_in (session_of self.now).current) }
    {
        match &self.current {
            None => NumberSet::new(0),
            Some(current) => current.chunks.missing(),
        }
    }
}
