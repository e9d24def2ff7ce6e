// Time passes.
ghost use Rattle.std.specs.Prelude.{◌≡◌, Some};
ghost use Rattle.std.specs.Option.{option_map};
ghost use Rattle.mu_model_node.specs.Slots.{Slots};
ghost use Rattle.mu_model_node.specs.BlobServer.{Same};
ghost use Rattle.mu_model_node.specs.BlobTable.{on_server_time};
ghost use Rattle.mu_blob_session.specs.Sound.{Suits};
ghost use Rattle.mu_blob_session.specs.Came.{asked_of, StaysOrGoes};

use crate::session::{BlobSession, Kept};
use arrayvec::ArrayVec;
use mu_blob_rows::{PullReport, TimeStep, report_due};

// The same numbers.
fn copied(chunks: &ArrayVec<u16, 16>) -> ArrayVec<u16, 16>
    ensures { result.items ≡ chunks.now.items }
{
    let mut numbers = ArrayVec::new();
    if numbers.try_extend_from_slice(chunks.as_slice()).is_err() {
        prove!(false);
    }
    numbers
}

impl BlobSession {
    ghost use Rattle.mu_blob_session.specs.Sessions.{session_in, coming_in, server_in};
    ghost use Rattle.mu_model_node.specs.BlobServer.{Server, CurrentBlock};
    ghost use Rattle.mu_model_node.specs.BlobTable.{pulls};
    ghost use Rattle.mu_blob_session.specs.Blocks.{current_of};

    // A Partial Block Report, where one is due.
    fn pull(&mut self, now: u64) -> Option<(u16, ArrayVec<u16, 16>)>
        ensures row { (v : Server) (c : CurrentBlock) → v.session ≡ session_in self.old → v.now ≡ now → current_of (coming_in self.old) ≡ Some c
            → pulls v c ≡ record { session = session_in self.new; change = Same; replies = asked_of (option_map (λ asked. (asked.0, asked.1.items)) result) } }
        ensures block { coming_in self.new ≡ coming_in self.old }
        ensures link { (session_in self.new).link ≡ (session_in self.old).link }
    {
        let Some(chunks) = report_due(&self.session, &self.block.received(), now) else {
            return None;
        };
        self.session.report = Some(PullReport {
            moment: now,
            chunks: copied(&chunks),
        });
        match self.session.client {
            None => None,
            Some(client) => Some((client, chunks)),
        }
    }

    /// Time passes: the timeout, else the pull report: the numbers that it asks for, with the client that it goes to.
    pub fn time(&mut self, kept: Kept, now: u64) -> Option<(u16, ArrayVec<u16, 16>)>
        requires { Suits kept.serving (session_in self.old).link (coming_in self.old) }
        ensures suits { Suits kept.serving (session_in self.new).link (coming_in self.new) }
        ensures stays { StaysOrGoes (coming_in self.old) (coming_in self.new) }
        ensures row { (held : Slots)
            → on_server_time (server_in self.old kept held now) (server_in self.old kept held now).serving ≡ record { session = session_in self.new; change = Same; replies = asked_of (option_map (λ asked. (asked.0, asked.1.items)) result) } }
    {
        match self.look(kept, now).time() {
            TimeStep::Wait => None,
            TimeStep::Unlink => {
                self.unlink();
                None
            }
            TimeStep::Pull => self.pull(now),
        }
    }
}
