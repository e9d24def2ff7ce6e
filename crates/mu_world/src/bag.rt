// All packets that were sent.
use crate::head::Head;
use mu_codec::{Packet, Payload, put_octets};
use std::alloc::{AllocError, Global};
use std::marker::Model;

/// All packets that were sent, in their order: the octets of all, one behind the other, and where each packet stands.
#[derive(Drop)]
pub(crate) struct Bag {
    octets: Vec<u8>,
    heads: Vec<Head>,
}

impl Model for Bag {
    ghost use Rattle.std.specs.Prelude.{List, map};
    ghost use Rattle.std.specs.List.{AllByRecursion};
    ghost use Rattle.mu_model_wire.specs.Packet.{Packet};
    ghost use Rattle.mu_world.specs.Bag.{packet_in, IsWithin};

    ghost Value = { List Packet };

    ghost view = { λ b. map (packet_in b.octets.items) b.heads.items };

    ghost invariant = { λ b. AllByRecursion (IsWithin b.octets.items) b.heads.items };
}

impl Bag {
    ghost use Rattle.std.specs.Prelude.{◌≡◌, ◌<◌, ◌++◌, ◌∷◌, [], length, slice_get, Some, OnOk};
    ghost use Rattle.std.specs.Option.{option_map};
    ghost use Rattle.mu_codec.specs.View.{packet_of};

    /// No packet was sent.
    pub(crate) fn new(alloc: Global) -> Bag
        ensures { result ≡ [] }
    {
        Bag {
            octets: Vec::new(alloc),
            heads: Vec::new(alloc),
        }
    }

    /// How many packets there are.
    pub(crate) fn len(&self) -> usize
        ensures { result ≡ length self.now }
    {
        self.heads.len()
    }

    /// Puts a packet in, behind the others.
    #[tactic(auto, using(crate::proofs::Bags::grown, crate::proofs::Bags::grown_alone, crate::proofs::Bags::alone_still, crate::proofs::Bags::put_within, crate::proofs::Bags::put_in))]
    pub(crate) fn push(&mut self, packet: &Packet) -> Result<(), AllocError>
        ensures { OnOk result (self.new ≡ self.old ++ packet_of packet.now ∷ []) }
    {
        let head = Head {
            begins: self.octets.len(),
            length: packet.payload.len() as u16,
            from: packet.from,
            to: packet.to,
        };
        self.octets.extend_from_slice(packet.payload.as_slice())?;
        self.heads.push(head)?;
        Ok(())
    }

    /// The packet of a number, from 0.
    #[tactic(auto, using(crate::proofs::Bags::number_within, crate::proofs::Bags::there_at, crate::proofs::Bags::few_at, crate::proofs::Bags::at_is))]
    pub(crate) fn at(&self, number: usize) -> Packet
        requires { number < length self.now }
        ensures { slice_get self.now number ≡ Some (packet_of result) }
    {
        let head = self.heads[number];
        let end = head.begins + usize::from(head.length);
        let mut payload = Payload::new();
        put_octets(&mut payload, &self.octets[head.begins..end]);
        Packet {
            from: head.from,
            to: head.to,
            payload,
        }
    }

    /// The packet of a number, if there is one.
    pub(crate) fn get(&self, number: u32) -> Option<Packet>
        ensures { option_map packet_of result ≡ slice_get self.now number }
    {
        let number = number as usize;
        if number < self.heads.len() {
            Some(self.at(number))
        } else {
            None
        }
    }
}
