// A node that keeps its states sound.
ghost use Rattle.std.specs.Prelude.{◌≡◌, ◌≤◌, ◌<◌, ◌*◌, ◌^◌, ◌==◌, ◌&&◌, ◌++◌, IsTrue, false, length, map, None, IfOk, IfErr, OnErr, OnOk};
ghost use Rattle.arrayvec.specs.ArrayVec.{array_vec_len};
ghost use Rattle.mu_codec.specs.View.{packet_of};
ghost use Rattle.mu_model_image.specs.Meta.{image_of as image_with};
ghost use Rattle.mu_model_node.specs.NodeState.{NodeDurable, new_node, new_pair, restarted};
ghost use Rattle.mu_model_node.specs.FlashWork.{page_octets, passed_by, work_by};
ghost use Rattle.mu_model_node.specs.Events.{node_step, node_passed, node_work, is_worn, has_record, last_count};
ghost use Rattle.mu_model_node.specs.Laws.{pages_put};
ghost use Rattle.mu_model_node.specs.Log.{logged};
ghost use Rattle.mu_model_node.specs.Safe.{left_after};
ghost use Rattle.mu_model_node.specs.Sound.{IsNodeDurable};
ghost use Rattle.mu_reference.specs.View.{image_of};
ghost use Rattle.mu_reference_node.specs.Events.{event_of};
ghost use Rattle.mu_reference_node.specs.Logging.{what_of};

use crate::event::{Event, Stepped};
use crate::happening::{do_event, event_work, has_record, operation_count};
use crate::logging::{Entries, entries, glance_at};
use mu_codec::Outbox;
use mu_image::{Digesting, Meta};
use mu_model_node::laws::states_are_sound;
use mu_model_node::{FlashWork, NodeConfig};
use mu_reference::{Image, Session, State, Stop};
use std::alloc::{AllocError, Global};
use std::marker::Model;

/// A node as plain values, seen as the model's node.
#[derive(Drop)]
pub struct Node {
    pub(crate) state: State,
}

impl Model for Node {
    ghost use Rattle.mu_model_node.specs.NodeState.{NodeState};
    ghost use Rattle.mu_model_node.specs.Sound.{IsNodeState};
    ghost use Rattle.mu_reference.specs.View.{state_of};

    ghost Value = { NodeState };

    ghost view = { λ n. state_of n.state };

    ghost invariant = { λ n. IsNodeState (state_of n.state) };
}

/// The image that octets are at a version.
fn image_at(version: u32, octets: Vec<u8>) -> Image
    requires { length octets.items ≤ 1048576 }
    ensures { image_of result ≡ image_with version octets.items }
{
    let mut digesting = Digesting::new();
    digesting.take(&octets);
    let meta = Meta {
        size: octets.len() as u32,
        version,
        digest: digesting.done(),
    };
    Image { octets, meta }
}

impl Node {
    /// A node that was booted with these images, and no job, after so many records.
    fn new(pages: u16, count: u32, images: Vec<Image>) -> Node
        requires { IsNodeDurable (record { count = count; capacity = page_octets * pages; images = map image_of images.items; job = None }) }
        ensures { result ≡ restarted (record { count = count; capacity = page_octets * pages; images = map image_of images.items; job = None }) }
    {
        states_are_sound();
        Node {
            state: State {
                count,
                capacity: 4096 * u32::from(pages),
                images,
                job: None,
                fresh: 0,
                session: Session::asleep(),
                moment: 0,
            },
        }
    }

    /// A new node with banks of so many pages of 4,096 octets, whose one image is these octets at a version.
    #[tactic(auto, using(crate::proofs::Fresh::new_is_sound))]
    pub fn with_image(
        alloc: Global,
        pages: u16,
        version: u32,
        octets: Vec<u8>,
    ) -> Result<Node, AllocError>
        requires pages_least { 1 ≤ pages }
        requires pages_most { pages ≤ 256 }
        requires some { 1 ≤ length octets.items }
        requires room { length octets.items ≤ 4096 * pages }
        ensures { IfOk result (λ node. node ≡ restarted (new_node pages (image_with version octets.items))) }
    {
        let mut images = Vec::new(alloc);
        images.push(image_at(version, octets))?;
        Ok(Node::new(pages, 2, images))
    }

    /// A new node with two images: these octets at a version, and the second ones at theirs.
    #[tactic(auto, using(crate::proofs::Fresh::pair_is_sound))]
    pub fn pair(
        alloc: Global,
        pages: u16,
        version: u32,
        octets: Vec<u8>,
        second_version: u32,
        second: Vec<u8>,
    ) -> Result<Node, AllocError>
        requires pages_least { 1 ≤ pages }
        requires pages_most { pages ≤ 256 }
        requires some { 1 ≤ length octets.items }
        requires room { length octets.items ≤ 4096 * pages }
        requires second_some { 1 ≤ length second.items }
        requires second_room { length second.items ≤ 4096 * pages }
        ensures { IfOk result (λ node. node ≡ restarted (new_pair pages (image_with version octets.items) (image_with second_version second.items))) }
    {
        let mut images = Vec::new(alloc);
        images.push(image_at(version, octets))?;
        images.push(image_at(second_version, second))?;
        Ok(Node::new(pages, 3, images))
    }

    /// The same node, as one that has written its last record: it can write no other.
    pub fn at_last_record(self) -> Node
        ensures { result ≡ record self { durable = record (self.durable) { count = last_count } } }
    {
        let mut node = self;
        node.state.count = u32::MAX;
        node
    }

    /// The power goes between events and comes again: what isn't kept is lost. Tells what the log has of it.
    pub fn restart(&mut self) -> Entries
        ensures next { self.new ≡ restarted self.old.durable }
        ensures log { map what_of result.items ≡ logged self.old self.new }
    {
        states_are_sound();
        let before = glance_at(&self.state);
        self.state.boot();
        entries(&before, &glance_at(&self.state))
    }

    /// Does an event at a moment in milliseconds, and appends the packets that it sends. A record that is due once the last one
    /// was written is answered Worn. After Worn, or where there is no memory, the node and what is sent are as they were.
    pub fn step<'a>(
        &mut self,
        alloc: Global,
        config: &NodeConfig,
        event: Event<'a>,
        now: u64,
        out: &mut Outbox,
    ) -> Result<Stepped, Stop>
        requires room { array_vec_len out.old < 32 }
        ensures next { IfOk result (λ _. self.new ≡ (node_step config.now self.old (event_of event.entry) now).next) }
        ensures sent { IfOk result (λ _. map packet_of out.new.items ≡ map packet_of out.old.items ++ (node_step config.now self.old (event_of event.entry) now).sent) }
        ensures handled { IfOk result (λ stepped. stepped.handled ≡ (node_step config.now self.old (event_of event.entry) now).handled) }
        ensures flash { IfOk result (λ stepped. stepped.work ≡ (node_step config.now self.old (event_of event.entry) now).work) }
        // The durable states that the event went through.
        ensures passed { IfOk result (λ stepped. passed_by self.old.durable self.new.durable stepped.work ≡ node_passed config.now self.old (event_of event.entry) now) }
        // The durable state that stood after each flash operation.
        ensures work { IfOk result (λ stepped. work_by self.old.fresh self.old.durable self.new.durable stepped.work ≡ node_work config.now self.old (event_of event.entry) now) }
        ensures log { IfOk result (λ stepped. map what_of stepped.entries.items ≡ logged self.old self.new) }
        ensures not_worn { OnOk result (is_worn config.now self.old (event_of event.entry) now ≡ false) }
        ensures worn { IfErr result (λ stop. stop ≡ Stop.Worn → IsTrue (is_worn config.now self.old (event_of event.entry) now)) }
        ensures same { OnErr result (self.new ≡ self.old) }
        ensures unsent { OnErr result (map packet_of out.new.items ≡ map packet_of out.old.items) }
    {
        let before = glance_at(&self.state);
        let moment = self.state.moment;
        self.state.hand_moment(now);
        match do_event(&mut self.state, alloc, config, event, out) {
            Ok(did) => Ok(Stepped {
                handled: did.handled,
                work: did.work,
                entries: entries(&before, &glance_at(&self.state)),
            }),
            Err(stop) => {
                self.state.moment = moment;
                Err(stop)
            }
        }
    }

    /// What an event will do to the flash at a moment.
    fn work<'a>(
        &mut self,
        alloc: Global,
        config: &NodeConfig,
        event: Event<'a>,
        now: u64,
    ) -> Result<FlashWork, AllocError>
        ensures work { IfOk result (λ work. work ≡ (node_step config.now self.old (event_of event.entry) now).work) }
        ensures few { IfOk result (λ work. pages_put work ≤ 2 ^ 53) }
        ensures same { self.new ≡ self.old }
    {
        let moment = self.state.moment;
        self.state.hand_moment(now);
        let work = event_work(&self.state, alloc, config, event);
        self.state.moment = moment;
        work
    }

    /// How many flash operations there are.
    fn count_of(&self, work: FlashWork) -> usize
        requires { pages_put work ≤ 2 ^ 53 }
        ensures { (old new : NodeDurable) → result ≡ length (work_by self.now.fresh old new work) }
    {
        operation_count(work, self.state.fresh)
    }

    /// Whether a record is due, and the last was written.
    fn is_spent(&self, work: FlashWork) -> bool
        ensures { result ≡ (has_record work && (self.now.durable.count == last_count)) }
    {
        has_record(work) && self.state.is_at_last_record()
    }

    /// How many flash operations an event has at a moment, without doing it.
    pub fn operations<'a>(
        &mut self,
        alloc: Global,
        config: &NodeConfig,
        event: Event<'a>,
        now: u64,
    ) -> Result<usize, AllocError>
        ensures operations { IfOk result (λ operations. operations ≡ length (node_work config.now self.old (event_of event.entry) now)) }
        ensures same { self.new ≡ self.old }
    {
        let work = self.work(alloc, config, event, now)?;
        Ok(self.count_of(work))
    }

    /// The node is booted from what an event leaves that is done.
    fn done_and_lost<'a>(
        &mut self,
        alloc: Global,
        config: &NodeConfig,
        event: Event<'a>,
        now: u64,
    ) -> Result<Entries, Stop>
        ensures next { IfOk result (λ _. self.new ≡ restarted (node_step config.now self.old (event_of event.entry) now).next.durable) }
        ensures log { IfOk result (λ entries. map what_of entries.items ≡ logged self.old self.new) }
        ensures same { OnErr result (self.new ≡ self.old) }
        ensures worn { IfErr result (λ stop. stop ≡ Stop.Worn → IsTrue (is_worn config.now self.old (event_of event.entry) now)) }
    {
        states_are_sound();
        let before = glance_at(&self.state);
        let mut lost = Outbox::new();
        self.step(alloc, config, event, now, &mut lost)?;
        self.state.boot();
        Ok(entries(&before, &glance_at(&self.state)))
    }

    /// The power goes in an event after so many of its flash operations, and comes again: the node is booted from what is left.
    /// Tells what the log has of it. Worn, and want of memory, are as of `step`.
    pub fn tear<'a>(
        &mut self,
        alloc: Global,
        config: &NodeConfig,
        event: Event<'a>,
        now: u64,
        done: usize,
    ) -> Result<Entries, Stop>
        requires { done ≤ length (node_work config.now self.old (event_of event) now) }
        ensures next { IfOk result (λ _. self.new ≡ restarted (left_after config.now self.old (event_of event.entry) now done)) }
        ensures log { IfOk result (λ entries. map what_of entries.items ≡ logged self.old self.new) }
        ensures not_worn { OnOk result (is_worn config.now self.old (event_of event.entry) now ≡ false) }
        ensures worn { IfErr result (λ stop. stop ≡ Stop.Worn → IsTrue (is_worn config.now self.old (event_of event.entry) now)) }
        ensures same { OnErr result (self.new ≡ self.old) }
    {
        let Ok(work) = self.work(alloc, config, event, now) else {
            return Err(Stop::NoMemory);
        };
        if self.is_spent(work) {
            return Err(Stop::Worn);
        }
        if done == 0 {
            return Ok(self.restart());
        }
        if done < self.count_of(work) {
            return Ok(self.restart());
        }
        self.done_and_lost(alloc, config, event, now)
    }
}
