// What a node does with an event, whose moment was handed to it.
ghost use Rattle.std.specs.Prelude.{◌≡◌, ◌<◌, ◌≤◌, ◌^◌, ◌++◌, false, length, map, IfOk};
ghost use Rattle.arrayvec.specs.ArrayVec.{array_vec_len};
ghost use Rattle.mu_codec.specs.View.{packet_of};
ghost use Rattle.mu_model_node.specs.NodeMessages.{reply_packet};
ghost use Rattle.mu_model_node.specs.NodeState.{NodeDurable, is_addressee};
ghost use Rattle.mu_model_node.specs.FlashWork.{record_work, work_by};
ghost use Rattle.mu_model_node.specs.Laws.{pages_put};
ghost use Rattle.mu_model_node.specs.Events.{PacketComes, TimeComes, on_event, has_record};
ghost use Rattle.mu_model_node.specs.Sound.{IsNodeState};
ghost use Rattle.mu_reference.specs.View.{state_of};
ghost use Rattle.mu_reference.specs.NodeRows.{replies_of};
ghost use Rattle.mu_reference_node.specs.Events.{event_of, DidAs};

use crate::event::Event;
use crate::reading::request_at;
use crate::writing::octets_of;
use mu_codec::{Outbox, Packet};
use mu_model_node::laws::states_are_sound;
use mu_model_node::{FlashWork, NodeConfig};
use mu_reference::{Reply, State, Stop};
use std::alloc::{AllocError, Global};

/// What became of an event, its entries in the log apart.
#[derive(Clone, Copy)]
pub(crate) struct Did {
    pub(crate) handled: bool,
    pub(crate) work: FlashWork,
}

/// Whether a packet is addressed to the node.
fn is_addressee(config: &NodeConfig, packet: &Packet) -> bool
    ensures { result ≡ is_addressee config.now (packet_of packet.now) }
{
    packet.to == config.address || (config.group != 0 && packet.to == config.group)
}

/// Sends a reply, if there is one.
fn send(from: u16, reply: Option<(u16, Reply)>, out: &mut Outbox)
    requires { array_vec_len out.old < 32 }
    ensures { map packet_of out.new.items ≡ map packet_of out.old.items ++ map (reply_packet from) (replies_of reply) }
{
    if let Some((to, reply)) = reply {
        out.push(Packet {
            from,
            to,
            payload: octets_of(reply),
        });
    }
}

fn passed_over() -> Did
    ensures { result ≡ record { handled = false; work = FlashWork.Untouched } }
{
    Did {
        handled: false,
        work: FlashWork::Untouched,
    }
}

fn do_packet(
    state: &mut State,
    alloc: Global,
    config: &NodeConfig,
    packet: &Packet,
    out: &mut Outbox,
) -> Result<Did, Stop>
    requires room { array_vec_len out.old < 32 }
    requires sound { IsNodeState (state_of state.old) }
    ensures sound { IsNodeState (state_of state.new) }
    ensures did { DidAs config.now (state_of state.old) (PacketComes (packet_of packet.now)) (map packet_of out.old.items) result (state_of state.new) (map packet_of out.new.items) }
{
    states_are_sound();
    if !is_addressee(config, packet) {
        return Ok(passed_over());
    }
    let Some(request) = request_at(packet.payload.as_slice()) else {
        return Ok(passed_over());
    };
    let done = state.take_request(alloc, packet.from, request)?;
    send(config.address, done.reply, out);
    Ok(Did {
        handled: true,
        work: done.work,
    })
}

fn do_time(
    state: &mut State,
    alloc: Global,
    config: &NodeConfig,
    out: &mut Outbox,
) -> Result<Did, Stop>
    requires room { array_vec_len out.old < 32 }
    requires sound { IsNodeState (state_of state.old) }
    ensures sound { IsNodeState (state_of state.new) }
    ensures did { DidAs config.now (state_of state.old) TimeComes (map packet_of out.old.items) result (state_of state.new) (map packet_of out.new.items) }
{
    states_are_sound();
    let done = state.pass_time(alloc)?;
    send(config.address, done.reply, out);
    Ok(Did {
        handled: true,
        work: done.work,
    })
}

/// Does an event, and appends the packets that it sends.
pub(crate) fn do_event<'a>(
    state: &mut State,
    alloc: Global,
    config: &NodeConfig,
    event: Event<'a>,
    out: &mut Outbox,
) -> Result<Did, Stop>
    requires room { array_vec_len out.old < 32 }
    requires sound { IsNodeState (state_of state.old) }
    ensures sound { IsNodeState (state_of state.new) }
    ensures did { DidAs config.now (state_of state.old) (event_of event.entry) (map packet_of out.old.items) result (state_of state.new) (map packet_of out.new.items) }
{
    match event {
        Event::Packet(packet) => do_packet(state, alloc, config, packet, out),
        Event::Time => do_time(state, alloc, config, out),
    }
}

/// How many flash operations there are, where this run may still use so many slots after the present record.
#[tactic(auto, using(crate::proofs::Work::block_count))]
pub(crate) fn operation_count(work: FlashWork, fresh: u8) -> usize
    requires { pages_put work ≤ 2 ^ 53 }
    ensures { (old new : NodeDurable) → result ≡ length (work_by fresh old new work) }
{
    match work {
        FlashWork::Untouched => 0,
        FlashWork::Recorded { is_long } => record_operations(is_long, fresh),
        FlashWork::Begun { is_long } => 1 + record_operations(is_long, fresh),
        FlashWork::PutBlock { pages } => 2 * pages + 1,
    }
}

fn record_operations(is_long: bool, fresh: u8) -> usize
    ensures few { result ≤ 2 }
    ensures count { (old new : NodeDurable) → result ≡ length (record_work is_long fresh old new) }
{
    if is_long || fresh == 0 { 2 } else { 1 }
}

/// Whether a record is due.
pub(crate) fn has_record(work: FlashWork) -> bool
    ensures { result ≡ has_record work }
{
    match work {
        FlashWork::Recorded { .. } | FlashWork::Begun { .. } => true,
        FlashWork::Untouched | FlashWork::PutBlock { .. } => false,
    }
}

fn packet_work(
    state: &State,
    alloc: Global,
    config: &NodeConfig,
    packet: &Packet,
) -> Result<FlashWork, AllocError>
    requires { IsNodeState (state_of state.now) }
    ensures few { IfOk result (λ work. pages_put work ≤ 2 ^ 53) }
    ensures work { IfOk result (λ work. work ≡ (on_event config.now (state_of state.now) (PacketComes (packet_of packet.now))).work) }
{
    if !is_addressee(config, packet) {
        return Ok(FlashWork::Untouched);
    }
    match request_at(packet.payload.as_slice()) {
        None => Ok(FlashWork::Untouched),
        Some(request) => state.request_work(alloc, request),
    }
}

/// What an event will do to the flash.
pub(crate) fn event_work<'a>(
    state: &State,
    alloc: Global,
    config: &NodeConfig,
    event: Event<'a>,
) -> Result<FlashWork, AllocError>
    requires { IsNodeState (state_of state.now) }
    ensures few { IfOk result (λ work. pages_put work ≤ 2 ^ 53) }
    ensures work { IfOk result (λ work. work ≡ (on_event config.now (state_of state.now) (event_of event.entry)).work) }
{
    match event {
        Event::Packet(packet) => packet_work(state, alloc, config, packet),
        Event::Time => Ok(state.time_work()),
    }
}
