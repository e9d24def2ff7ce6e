// The turns of a serving command.
ghost use Rattle.std.specs.Prelude.{◌≡◌, ◌≤◌, ◌<◌, ◌⊎◌, ◌∷◌, [], ◌++◌, List, Option, Some, None, Ok, true, false, map, length, IfErr, OnOk};
ghost use Rattle.mu_model_wire.specs.Packet.{Packet as PlainPacket};
ghost use Rattle.mu_model_flash.specs.Cause.{Rose};
ghost use Rattle.mu_codec.specs.View.{packet_of};
ghost use Rattle.mu_outside.specs.Link.{found_of};
ghost use Rattle.mu_turns.specs.Turns.{Event, Turn, Came, Time, Runs, Over, Made, Broke, Cut, read};

use crate::member::Member;
use crate::sending::send_all;
use crate::stop::Stop;
use mu_access::undatagram;
use mu_codec::Outbox;
use mu_outside::{Clock, Incoming, Link};

/// Makes turns of a member at its address `me`, until it has ended or so many were made. In a turn it takes the moment, receives
/// once, hands the member a datagram that reads and then the time, and sends what it answers to each. Other datagrams are
/// passed over. The first call of the link that fails ends the turns, and so does a failure of the member.
pub fn run_turns<M: Member, L: Link, C: Clock>(
    member: &mut M,
    me: u16,
    turns: u32,
    link: &mut L,
    clock: &mut C,
) -> Result<(), Stop>
    ensures made { OnOk result ((made : List Turn) × Made M.step M.ended me member.old member.new (C.answered clock.old) (C.answered clock.new) (L.seen link.old) (L.seen link.new) made × (length made ≤ turns) × ((length made ≡ turns) ⊎ (M.ended member.new ≡ true))) }
    ensures broke { IfErr result (λ stop. (made : List Turn) × Broke M.step M.fails M.ended me member.old member.new (C.answered clock.old) (C.answered clock.new) (L.seen link.old) (L.seen link.new) made stop × (length made < turns)) }
    ensures cause { IfErr result (λ stop. stop ≡ Stop.Link → Rose (L.seen link.old).faults (L.seen link.new).faults) }
    ensures later { (L.seen link.old).faults ≤ (L.seen link.new).faults }
{
    let mut out = Outbox::new();
    for _ in 0..turns {
        if member.has_ended() {
            return Ok(());
        }
        if let Err(stop) = turn(member, me, link, clock, &mut out) {
            return Err(stop);
        }
    }
    Ok(())
}

fn turn<M: Member, L: Link, C: Clock>(
    member: &mut M,
    me: u16,
    link: &mut L,
    clock: &mut C,
    out: &mut Outbox,
) -> Result<(), Stop>
    requires going { M.ended member.old ≡ false }
    requires empty { out.old.items ≡ [] }
    ensures made { OnOk result ((turn : Turn) × Made M.step M.ended me member.old member.new (C.answered clock.old) (C.answered clock.new) (L.seen link.old) (L.seen link.new) (turn ∷ [])) }
    ensures broke { IfErr result (λ stop. Broke M.step M.fails M.ended me member.old member.new (C.answered clock.old) (C.answered clock.new) (L.seen link.old) (L.seen link.new) [] stop) }
    ensures cause { IfErr result (λ stop. stop ≡ Stop.Link → Rose (L.seen link.old).faults (L.seen link.new).faults) }
    ensures later { (L.seen link.old).faults ≤ (L.seen link.new).faults }
    ensures empty { OnOk result (out.new.items ≡ []) }
{
    let now = clock.now();
    let Ok(found) = link.receive(me) else {
        return Err(Stop::Link);
    };
    if let Err(stop) = hand(member, me, link, &found, now, out) {
        return Err(stop);
    }
    pass_time(member, me, link, now, out)
}

// Hands a datagram that reads to the member and sends the replies.
fn hand<M: Member, L: Link>(
    member: &mut M,
    me: u16,
    link: &mut L,
    found: &Incoming,
    now: u64,
    out: &mut Outbox,
) -> Result<(), Stop>
    requires { out.old.items ≡ [] }
    ensures done { OnOk result ((replies : List PlainPacket) × Runs M.step member.old (read now (found_of found.now)) member.new replies × Over me (L.seen link.old) (L.seen link.new) [] replies) }
    ensures broke { IfErr result (λ stop. Cut M.step M.fails me member.old member.new (L.seen link.old) (L.seen link.new) (read now (found_of found.now)) stop) }
    ensures cause { IfErr result (λ stop. stop ≡ Stop.Link → Rose (L.seen link.old).faults (L.seen link.new).faults) }
    ensures later { (L.seen link.old).faults ≤ (L.seen link.new).faults }
    ensures empty { OnOk result (out.new.items ≡ []) }
{
    let Incoming::Datagram(octets) = found else {
        return Ok(());
    };
    let Ok(packet) = undatagram(octets.as_slice()) else {
        return Ok(());
    };
    if let Err(fault) = member.on_packet(&packet, now, out) {
        return Err(Stop::Member(fault));
    }
    if let Err(_) = send_all(link, me, out) {
        return Err(Stop::Link);
    }
    out.clear();
    Ok(())
}

// Lets the time pass at the member and sends the replies.
fn pass_time<M: Member, L: Link>(
    member: &mut M,
    me: u16,
    link: &mut L,
    now: u64,
    out: &mut Outbox,
) -> Result<(), Stop>
    requires { out.old.items ≡ [] }
    ensures done { OnOk result ((replies : List PlainPacket) × Runs M.step member.old (Time now ∷ []) member.new replies × Over me (L.seen link.old) (L.seen link.new) [] replies) }
    ensures broke { IfErr result (λ stop. Cut M.step M.fails me member.old member.new (L.seen link.old) (L.seen link.new) (Time now ∷ []) stop) }
    ensures cause { IfErr result (λ stop. stop ≡ Stop.Link → Rose (L.seen link.old).faults (L.seen link.new).faults) }
    ensures later { (L.seen link.old).faults ≤ (L.seen link.new).faults }
    ensures empty { OnOk result (out.new.items ≡ []) }
{
    if let Err(fault) = member.on_time(now, out) {
        return Err(Stop::Member(fault));
    }
    if let Err(_) = send_all(link, me, out) {
        return Err(Stop::Link);
    }
    out.clear();
    Ok(())
}
