// The note of the next record.
ghost use Rattle.std.specs.Prelude.{◌≡◌};
ghost use Rattle.mu_model_distributor.specs.Commit.{recorded};
ghost use Rattle.mu_model_distributor.specs.DistState.{DistState};
ghost use Rattle.mu_model_represents_distributor.specs.DistributorNote.{distributor_octets};
ghost use Rattle.mu_model_represents_distributor.specs.RepresentsDistributor.{note_of_distributor};
ghost use Rattle.mu_distributor_rows.specs.Decided.{is_in_part};
ghost use Rattle.mu_distributor_memory.specs.Shows.{rows_in, upload_in, banks_in, IsMemoryOf};

use crate::memory::Memory;
use mu_distributor_note::{Note, distributor_note_octets};

impl Memory {
    /// The note of a record that is due. It says the phase of the upload in the run, which doesn't lag from then on.
    pub fn record(&mut self) -> Note
        ensures note { (s : DistState) → IsMemoryOf self.old s → result ≡ distributor_octets (note_of_distributor (recorded s).durable) }
        ensures memory { (s : DistState) → IsMemoryOf self.old s → IsMemoryOf self.new (recorded s) }
        ensures rows { rows_in self.new ≡ rows_in self.old }
        ensures upload { is_in_part (upload_in self.new) ≡ is_in_part (upload_in self.old) }
        ensures banks { banks_in self.new ≡ banks_in self.old }
    {
        self.head.upload = self.upload_phase();
        self.lags = false;
        distributor_note_octets(&self.head, self.rows.as_slice())
    }
}
