// Block Start and Block Get.
ghost use Rattle.std.specs.Prelude.{◌≡◌, ◌≤◌};
ghost use Rattle.mu_model_node.specs.Slots.{Slots};
ghost use Rattle.mu_model_node.specs.BlobMessages.{BlockStart, BlockGet};
ghost use Rattle.mu_model_node.specs.BlobServer.{Same};
ghost use Rattle.mu_model_node.specs.BlobTable.{on_blob};
ghost use Rattle.mu_blob_rows.specs.Sessions.{session_by};
ghost use Rattle.mu_blob_rows.specs.Rows.{BlocksLookSo};
ghost use Rattle.mu_blob_session.specs.Sound.{IsSoundServing, blocks_of, Suits};
ghost use Rattle.mu_blob_session.specs.Opens.{CanOpen, coming_by, IsOpenedBy, ReportOf, block_replies};

use crate::session::{BlobSession, Kept};
use mu_arith::block_len;
use mu_blob_rows::{BlockTold, BlocksLook, SessionChange};
use mu_block::BlockBuffer;

fn open_by(block: &mut BlockBuffer, change: SessionChange)
    requires { CanOpen change }
    ensures { block.new ≡ coming_by change block.old }
{
    if let SessionChange::Opens {
        parameters,
        block: number,
        chunk_size,
    } = change
    {
        let size = block_len(parameters.size, parameters.log, number);
        block.open(number, chunk_size, size as u16);
    }
}

impl BlobSession {
    ghost use Rattle.mu_blob_session.specs.Sessions.{session_in, coming_in, server_in};

    // Does what a row says.
    fn change(&mut self, change: SessionChange, from: u16, now: u64)
        requires { CanOpen change }
        ensures session { session_in self.new ≡ session_by change now from (session_in self.old) }
        ensures block { coming_in self.new ≡ coming_by change (coming_in self.old) }
    {
        open_by(&mut self.block, change);
        self.session.change(change, now, from);
    }

    /// BLOB Block Start, of a block of which the owner says how it stands: the row, and what its Block Status tells. A set of chunks that it tells
    /// is that of `missing` before the call.
    pub fn block_start(
        &mut self,
        kept: Kept,
        blocks: BlocksLook,
        block: u16,
        chunk_size: u16,
        from: u16,
        now: u64,
    ) -> BlockTold
        requires sound { IsSoundServing kept.serving }
        requires suits { Suits kept.serving (session_in self.old).link (coming_in self.old) }
        requires count { blocks.count ≡ blocks_of kept.serving }
        ensures known { result.status ≤ 7 }
        ensures report { ReportOf result.report (coming_in self.old) }
        ensures suits { Suits kept.serving (session_in self.new).link (coming_in self.new) }
        ensures opened { IsOpenedBy blocks block (coming_in self.old) (coming_in self.new) }
        ensures row { (held : Slots) → BlocksLookSo held block blocks
            → on_blob (server_in self.old kept held now) from (BlockStart block chunk_size) ≡ record { session = session_in self.new; change = Same; replies = block_replies from result (coming_in self.old) } }
    {
        let told = self.look(kept, now).block_start(block, chunk_size, blocks);
        self.change(told.session, from, now);
        told
    }

    /// BLOB Block Get: the row, and what its Block Status tells. A set of chunks that it tells is that of `missing`.
    pub fn block_get(&mut self, kept: Kept, from: u16, now: u64) -> BlockTold
        requires sound { IsSoundServing kept.serving }
        requires suits { Suits kept.serving (session_in self.old).link (coming_in self.old) }
        ensures known { result.status ≤ 7 }
        ensures report { ReportOf result.report (coming_in self.old) }
        ensures suits { Suits kept.serving (session_in self.new).link (coming_in self.new) }
        ensures block { coming_in self.new ≡ coming_in self.old }
        ensures row { (held : Slots)
            → on_blob (server_in self.old kept held now) from BlockGet ≡ record { session = session_in self.new; change = Same; replies = block_replies from result (coming_in self.old) } }
    {
        let told = self.look(kept, now).block_get();
        self.change(told.session, from, now);
        told
    }
}
