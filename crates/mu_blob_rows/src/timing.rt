// What is done as time passes.
ghost use Rattle.std.specs.Prelude.{ℕ, ◌≡◌, ◌≤◌, ◌+◌, ◌&&◌, ◌++◌, ◌∷◌, [], List, Bool, Some, nat_le, nat_lt, not, take, if◌then◌else◌, length};
ghost use Rattle.std.specs.List.{list_any};
ghost use Rattle.mu_model_wire.specs.Reports.{has, members, complement};
ghost use Rattle.mu_model_node.specs.Slots.{Slots, received as received_of};
ghost use Rattle.mu_model_node.specs.BlobServer.{Server as AnyServer, CurrentBlock, server_phase};
ghost use Rattle.mu_model_node.specs.BlobTable.{timeout, waits, pulls, on_server_time};
ghost use Rattle.mu_blob_rows.specs.Sessions.{there, session_of, report_of};
ghost use Rattle.mu_blob_rows.specs.Looks.{phase_with, server_with, PhaseOf};
ghost use Rattle.mu_blob_rows.specs.Rows.{time_stepped, TimeStepFits, asked_by};
ghost use Rattle.mu_blob_rows.specs.Pulls.{is_due_by};

use crate::looks::{BlobPhase, Look, Serving};
use crate::session::{PullReport, Session};
use arrayvec::ArrayVec;
use mu_model_node::Link;
use mu_report::NumberSet;

/// What is done as time passes.
#[derive(Clone, Copy)]
pub enum TimeStep {
    Wait,
    /// Nothing was heard for too long: the link becomes Cut.
    Unlink,
    /// Chunks of the block that comes are asked for, where that is due.
    Pull,
}

/// Whether a server that was last heard at that moment has heard nothing for too long.
pub fn is_late(heard: u64, base: u16, now: u64) -> bool
    ensures { result ≡ nat_le (heard + timeout base) now }
{
    now >= heard && now - heard >= 10000 * (u64::from(base) + 1)
}

fn wait<'a>(look: Look<'a>, phase: BlobPhase) -> TimeStep
    requires { PhaseOf look phase }
    ensures fits { TimeStepFits look.entry result }
    ensures stepped { (held chunks : Slots) → waits (server_with look.entry held chunks) (phase_with phase held chunks) ≡ time_stepped (server_with look.entry held chunks) result }
{
    match phase {
        BlobPhase::NextChunk(_, parameters, _) if parameters.mode == 2 => TimeStep::Pull,
        _ => TimeStep::Wait,
    }
}

fn decide_time<'a>(look: Look<'a>, phase: BlobPhase) -> TimeStep
    requires found { PhaseOf look phase }
    requires phase { (held chunks : Slots) → phase_with phase held chunks ≡ server_phase (server_with look held chunks) }
    ensures fits { TimeStepFits look.entry result }
    ensures stepped { (held chunks : Slots) → on_server_time (server_with look.entry held chunks) (server_with look.entry held chunks).serving ≡ time_stepped (server_with look.entry held chunks) result }
{
    match look.serving {
        Serving::Lacking(transfer) if look.session.link != Link::Cut => {
            if is_late(look.session.heard, transfer.base, look.now) {
                TimeStep::Unlink
            } else {
                wait(look, phase)
            }
        }
        _ => TimeStep::Wait,
    }
}

impl<'a> Look<'a> {
    /// A time event at the server.
    pub fn time(self) -> TimeStep
        ensures fits { TimeStepFits self.entry result }
        ensures stepped { (held chunks : Slots) → on_server_time (server_with self.entry held chunks) (server_with self.entry held chunks).serving ≡ time_stepped (server_with self.entry held chunks) result }
    {
        decide_time(self, self.phase())
    }
}

fn is_second_past(moment: u64, now: u64) -> bool
    ensures { result ≡ nat_le (moment + 1000) now }
{
    now >= moment && now - moment >= 1000
}

fn is_any_missing(chunks: &[u16], received: &NumberSet) -> bool
    ensures { result ≡ list_any (λ k. not (has received.now k)) chunks.now }
{
    chunks.iter().any(|chunk| !received.contains(*chunk))
}

fn is_due(last: &Option<PullReport>, received: &NumberSet, now: u64) -> bool
    ensures { result ≡ is_due_by received.now now (there report_of last.now) }
{
    match last {
        None => true,
        Some(last) => {
            !is_any_missing(last.chunks.as_slice(), received) || is_second_past(last.moment, now)
        }
    }
}

fn ask(chunks: &mut ArrayVec<u16, 16>, missing: &NumberSet, chunk: u16)
    ensures { chunks.new.items ≡ (if has missing.now chunk && nat_lt (length chunks.old.items) 16 then chunks.old.items ++ chunk ∷ [] else chunks.old.items) }
{
    if missing.contains(chunk) && chunks.len() < 16 {
        chunks.push(chunk);
    }
}

/// The least 16 numbers of a set, or all of them where there are fewer.
#[tactic(auto, using(crate::proofs::Asked::asked_more))]
fn asked(missing: &NumberSet) -> ArrayVec<u16, 16>
    ensures { result.items ≡ take 16 (members missing.now) }
{
    let mut chunks = ArrayVec::new();
    for chunk in 0..missing.bound() {
        ask(&mut chunks, missing, chunk);
    }
    chunks
}

/// The chunks that a Partial Block Report asks for, where one is due: the least 16 that are missing of the block that comes, or
/// all of them where there are fewer.
pub fn report_due(session: &Session, received: &NumberSet, now: u64) -> Option<ArrayVec<u16, 16>>
    ensures due { (v : AnyServer) (c : CurrentBlock) → v.session ≡ session_of session.now (Some c) → v.now ≡ now → received_of c.chunks ≡ received.now
        → pulls v c ≡ asked_by v (there (λ chunks. chunks.items) result) }
{
    if is_due(&session.report, received, now) {
        Some(asked(&received.missing()))
    } else {
        None
    }
}
