ghost use Rattle.std.specs.Prelude.{◌≡◌, ◌≤◌, ◌+◌, ◌++◌, Ok, length};
ghost use Rattle.arrayvec.specs.ArrayVec.{array_vec_len};
ghost use Rattle.mu_model_wire.specs.Reading.{Gives};
ghost use Rattle.mu_codec.specs.View.{packet_of};
ghost use Rattle.mu_access.specs.Datagram.{mark, datagram_spelling, CanTravel, first_difference, addressed_at, datagram_at};

use arrayvec::ArrayVec;
use byteorder::{ByteOrder, LittleEndian};
use mu_codec::{Packet, Payload, Refusal, Why, is_group, is_unicast, put_octets};

/// The octets that carry a packet over a link. Its payload isn't empty, `from` is a unicast address, and `to` is a
/// unicast or a group address.
pub fn datagram(packet: &Packet) -> ArrayVec<u8, 388>
    requires { CanTravel (packet_of packet.now) }
    ensures spelled { result.items ≡ datagram_spelling (packet_of packet.now) }
    // Reading them gives the packet back.
    ensures again { datagram_at result.items ≡ Ok (packet_of packet.now) }
{
    let mut octets = ArrayVec::new();
    push(&mut octets, &[0x4D, 0x55, 0x01, 0x00]);
    push(&mut octets, &packet.from.to_le_bytes());
    push(&mut octets, &packet.to.to_le_bytes());
    push(&mut octets, packet.payload.as_slice());
    octets
}

fn push(octets: &mut ArrayVec<u8, 388>, piece: &[u8])
    requires { array_vec_len octets.old + length piece.now ≤ 388 }
    ensures items { octets.new.items ≡ octets.old.items ++ piece.now }
    ensures len { array_vec_len octets.new ≡ array_vec_len octets.old + length piece.now }
{
    if octets.try_extend_from_slice(piece).is_err() {
        prove!(false);
    }
}

/// The packet that a datagram carries. The first of these that holds is refused: `Value` at the first of the octets
/// 0 to 3 that differs from the mark, `Short` at the first of them that lacks, `Short` at 4 or 6 where an address lacks
/// octets, `Value` at 4 where `from` isn't unicast, `Value` at 6 where `to` is neither unicast nor group, `Short` at 8
/// where the payload is empty, `Long` at 388 where it has more than 380 octets.
pub fn undatagram(bytes: &[u8]) -> Result<Packet, Refusal>
    ensures { Gives packet_of result (datagram_at bytes.now) }
{
    match first_difference(bytes) {
        Some(at) => Err(Refusal {
            at,
            why: Why::Value,
        }),
        None => addressed(bytes),
    }
}

#[tactic(auto, using(crate::proofs::Difference::difference_is))]
fn first_difference(bytes: &[u8]) -> Option<u16>
    ensures { result ≡ first_difference 0 mark bytes.now }
{
    if bytes.len() > 0 && bytes[0] != 0x4D {
        Some(0)
    } else if bytes.len() > 1 && bytes[1] != 0x55 {
        Some(1)
    } else if bytes.len() > 2 && bytes[2] != 0x01 {
        Some(2)
    } else if bytes.len() > 3 && bytes[3] != 0x00 {
        Some(3)
    } else {
        None
    }
}

fn addressed(bytes: &[u8]) -> Result<Packet, Refusal>
    ensures { Gives packet_of result (addressed_at bytes.now) }
{
    if bytes.len() < 4 {
        return Err(short(bytes.len() as u16));
    }
    if bytes.len() < 8 {
        return Err(short(if bytes.len() < 6 { 4 } else { 6 }));
    }
    let from = LittleEndian::read_u16(&bytes[4..]);
    let to = LittleEndian::read_u16(&bytes[6..]);
    if !is_unicast(from) {
        return Err(value(4));
    }
    if !is_unicast(to) && !is_group(to) {
        return Err(value(6));
    }
    if bytes.len() == 8 {
        return Err(short(8));
    }
    if bytes.len() > 388 {
        return Err(Refusal {
            at: 388,
            why: Why::Long,
        });
    }
    let mut payload = Payload::new();
    put_octets(&mut payload, &bytes[8..]);
    Ok(Packet { from, to, payload })
}

fn short(at: u16) -> Refusal
    ensures { result ≡ record { at = at; why = Why.Short } }
{
    Refusal {
        at,
        why: Why::Short,
    }
}

fn value(at: u16) -> Refusal
    ensures { result ≡ record { at = at; why = Why.Value } }
{
    Refusal {
        at,
        why: Why::Value,
    }
}
