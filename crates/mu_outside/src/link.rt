// A link that carries datagrams.
ghost use Rattle.std.specs.Prelude.{◌≡◌, ℕ, ◌<◌, ◌≤◌, ◌^◌, Result, IsTrue, IfOk, OnOk, OnErr, length};
ghost use Rattle.mu_model_flash.specs.Cause.{HasCause};

use arrayvec::ArrayVec;
use mu_model_flash::Failed;

/// What a `receive` found: the datagram that waited next for the address, or none.
#[derive(Debug, Drop, PartialEq, Eq)]
pub enum Incoming {
    Datagram(ArrayVec<u8, 389>),
    Quiet,
}

/// A link between mesh addresses.
pub trait Link {
    ghost use Rattle.mu_outside.specs.Link.{LinkSeen, found_of, Keeps, Stays, Bound, Sent, Received};

    /// All that it means at a moment.
    ghost seen: { Self → LinkSeen };

    /// Begins to receive for this address.
    fn bind(&mut self, addr: u16) -> Result<(), Failed>
        ensures told { (seen self.new).told ≡ (seen self.old).told }
        ensures bound { OnOk result (IsTrue (seen self.old).told → Bound addr (seen self.old) (seen self.new)) }
        ensures same { OnErr result (IsTrue (seen self.old).told → Stays (seen self.old) (seen self.new)) }
        ensures cause { HasCause (seen self.old).faults (seen self.new).faults result };

    /// Sends a datagram of 1..388 octets from a unicast address.
    fn send(&mut self, from: u16, to: u16, bytes: &[u8]) -> Result<(), Failed>
        requires unicast { (0 < from) × (from < 0x8000) }
        requires some { 0 < length bytes.now }
        requires few { length bytes.now ≤ 388 }
        ensures told { (seen self.new).told ≡ (seen self.old).told }
        ensures sent { OnOk result (IsTrue (seen self.old).told → Sent from to bytes.now (seen self.old) (seen self.new)) }
        ensures same { OnErr result (IsTrue (seen self.old).told → Keeps (seen self.old) (seen self.new)) }
        ensures cause { HasCause (seen self.old).faults (seen self.new).faults result };

    /// Takes the datagram that waits next for this address.
    fn receive(&mut self, at: u16) -> Result<Incoming, Failed>
        ensures told { (seen self.new).told ≡ (seen self.old).told }
        ensures received { IfOk result (λ incoming. IsTrue (seen self.old).told → Received at (found_of incoming) (seen self.old) (seen self.new)) }
        ensures same { OnErr result (IsTrue (seen self.old).told → Stays (seen self.old) (seen self.new)) }
        ensures cause { HasCause (seen self.old).faults (seen self.new).faults result };

    ghost bounded: { (link : Self) → (seen link).faults < 2 ^ 64 };
}
