// What is answered by a server's session, without a look at its flash.
ghost use Rattle.std.specs.Prelude.{◌≡◌, ◌≤◌, ℕ, [], ◌∷◌, length};
ghost use Rattle.mu_model_node.specs.Slots.{Slots, missing as missing_of};
ghost use Rattle.mu_model_node.specs.BlobMessages.{BlockStart, BlockGet};
ghost use Rattle.std.specs.Option.{option_map};
ghost use Rattle.mu_model_node.specs.declared.Parameters.{Parameters};
ghost use Rattle.mu_model_node.specs.BlobServer.{Server, Same, server_phase, serving_after};
ghost use Rattle.mu_model_node.specs.BlobTable.{on_blob, transfer_status, to_client};
ghost use Rattle.mu_blob_rows.specs.Looks.{serving_with};
ghost use Rattle.mu_blob_rows.specs.Rows.{BlocksLookSo, change_by, told_by};
ghost use Rattle.mu_blob_rows.specs.Sessions.{link_by};
ghost use Rattle.mu_blob_session.specs.Blocks.{coming_after};
ghost use Rattle.mu_blob_session.specs.Came.{asked_of};
ghost use Rattle.mu_blobsrv.specs.Replies.{replies_of};
ghost use Rattle.mu_blob_session.specs.Sessions.{session_in, coming_in, server_in};
ghost use Rattle.mu_blob_session.specs.Sound.{IsSoundServing, blocks_of, Suits};
ghost use Rattle.mu_blob_session.specs.Opens.{IsOpenedBy};

use arrayvec::ArrayVec;
use mu_blob_answers::{BlobAnswer, block_reply, partial_reply, transfer_reply};
use mu_blob_rows::{BlocksLook, Told};
use mu_blob_session::{BlobSession, Kept};
use mu_report::NumberSet;

/// The Transfer Status of a server of which these blocks are missing.
pub(crate) fn transfer_told(
    session: &BlobSession,
    kept: Kept,
    missing: NumberSet,
    status: u8,
) -> BlobAnswer
    requires known { status ≤ 7 }
    requires sound { IsSoundServing kept.serving }
    requires few { length missing ≤ 256 }
    ensures { (held : Slots) (now : ℕ) → missing_of held ≡ missing → result ≡ transfer_status status (server_phase (server_in session.now kept held now)) }
{
    let phase = session.look(kept, 0).phase();
    transfer_reply(status, phase, missing)
}

/// Does what a row of Transfer Start or Transfer Cancel says of the link, and tells the phase after it, where so much is kept then.
pub(crate) fn link_told(
    session: &mut BlobSession,
    told: Told,
    after: Kept,
    missing: NumberSet,
    from: u16,
    now: u64,
) -> BlobAnswer
    requires known { told.status ≤ 7 }
    requires sound { IsSoundServing after.serving }
    requires few { length missing ≤ 256 }
    ensures session { session_in session.new ≡ link_by told.link now from (session_in session.old) }
    ensures block { coming_in session.new ≡ coming_after told.link (coming_in session.old) }
    ensures row { (v : Server) (held : Slots) (p : Parameters) → v.session ≡ session_in session.old → v.now ≡ now → missing_of held ≡ missing
        → serving_with after.serving held ≡ serving_after (change_by p told.change) v.serving
        → told_by v from p told ≡ record { session = session_in session.new; change = change_by p told.change; replies = (from, result) ∷ [] } }
{
    session.link(told.link, now, from);
    transfer_told(session, after, missing, told.status)
}

/// The Partial Block Report that says that no chunk is missing, to the client that is to be told so.
pub(crate) fn completed(client: Option<u16>) -> Option<(u16, BlobAnswer)>
    ensures { replies_of result ≡ to_client client [] }
{
    match client {
        None => None,
        Some(client) => Some((client, partial_reply(ArrayVec::new()))),
    }
}

/// The Partial Block Report that asks for chunks, where one is asked for.
pub(crate) fn asked(asked: Option<(u16, ArrayVec<u16, 16>)>) -> Option<(u16, BlobAnswer)>
    ensures { replies_of result ≡ asked_of (option_map (λ asked. (asked.0, asked.1.items)) asked) }
{
    match asked {
        None => None,
        Some((client, chunks)) => Some((client, partial_reply(chunks))),
    }
}

/// BLOB Block Start, of a block of which the owner says how it stands: the row, and its answer.
pub(crate) fn block_started(
    session: &mut BlobSession,
    kept: Kept,
    blocks: BlocksLook,
    block: u16,
    chunk_size: u16,
    from: u16,
    now: u64,
) -> BlobAnswer
    requires sound { IsSoundServing kept.serving }
    requires suits { Suits kept.serving (session_in session.old).link (coming_in session.old) }
    requires count { blocks.count ≡ blocks_of kept.serving }
    ensures suits { Suits kept.serving (session_in session.new).link (coming_in session.new) }
    ensures opened { IsOpenedBy blocks block (coming_in session.old) (coming_in session.new) }
    ensures row { (held : Slots) → BlocksLookSo held block blocks
        → on_blob (server_in session.old kept held now) from (BlockStart block chunk_size) ≡ record { session = session_in session.new; change = Same; replies = (from, result) ∷ [] } }
{
    session.known();
    let missing = session.missing();
    let told = session.block_start(kept, blocks, block, chunk_size, from, now);
    block_reply(told, &missing)
}

/// BLOB Block Get: the row, and its answer.
pub(crate) fn block_got(session: &mut BlobSession, kept: Kept, from: u16, now: u64) -> BlobAnswer
    requires sound { IsSoundServing kept.serving }
    requires suits { Suits kept.serving (session_in session.old).link (coming_in session.old) }
    ensures suits { Suits kept.serving (session_in session.new).link (coming_in session.new) }
    ensures block { coming_in session.new ≡ coming_in session.old }
    ensures row { (held : Slots)
        → on_blob (server_in session.old kept held now) from BlockGet ≡ record { session = session_in session.new; change = Same; replies = (from, result) ∷ [] } }
{
    session.known();
    let missing = session.missing();
    let told = session.block_get(kept, from, now);
    block_reply(told, &missing)
}
