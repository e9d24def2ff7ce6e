// The members of a script.
ghost use Rattle.std.specs.Prelude.{◌≡◌, ◌≤◌, ◌<◌, [], Some, None, map, slice_get, IfOk, IfErr, OnErr, length};
ghost use Rattle.mu_codec.specs.View.{packet_of};
ghost use Rattle.mu_model_world.specs.Outcomes.{filling_held};
ghost use Rattle.mu_world.specs.Member.{CameOf, Stopped};

use crate::content::First;
use mu_codec::Outbox;
use mu_image::Meta;
use mu_model_flash::Pattern;
use mu_model_node::NodeConfig;
use mu_reference_node::{Entries, Event, Node, Stop};
use std::alloc::{AllocError, Global};
use std::marker::Model;

/// The power goes at a flash operation of the next event that has so many.
#[derive(Clone, Copy, Debug, PartialEq, Eq)]
pub(crate) struct Tear {
    /// Counted from 1.
    pub(crate) operation: u16,
    /// What that operation leaves.
    pub(crate) pattern: Pattern,
}

impl Tear {
    ghost use Rattle.std.specs.Prelude.{Contains};
    ghost use Rattle.mu_model_world.specs.Outcomes.{done_by};

    /// How many operations are done when the power goes. Of an operation that leaves made bits the state before it is taken: both
    /// may come of it.
    fn operations_done(self) -> usize
        ensures { Contains (done_by self.pattern self.operation) result }
    {
        let operation = usize::from(self.operation);
        match self.pattern {
            Pattern::New => operation,
            Pattern::Old => operation.saturating_sub(1),
            Pattern::Made(_) => operation.saturating_sub(1),
        }
    }
}

/// What a node was booted with.
#[derive(Drop)]
pub(crate) struct Boot {
    pub(crate) count: u32,
    pub(crate) held: u16,
    pub(crate) entries: Entries,
}

/// What came of an event at a node.
#[derive(Drop)]
pub(crate) enum Came {
    /// It ran whole.
    Whole { handled: bool, entries: Entries },
    /// The power went in it.
    Torn(Boot),
}

/// A node of the script.
#[derive(Drop)]
pub(crate) struct Member {
    group: u16,
    moment: u64,
    tear: Option<Tear>,
    node: Node,
    first: First,
    second: Option<First>,
}

impl Model for Member {
    ghost use Rattle.std.specs.Option.{option_map};
    ghost use Rattle.mu_model_world.specs.World.{Member as Seen};
    ghost use Rattle.mu_world.specs.View.{tear_of, first_images};

    ghost Value = { Seen };

    ghost view = { λ m. record { group = m.group; moment = m.moment; tear = option_map tear_of m.tear; state = m.node; first = first_images m.first m.second } };
}

impl Member {
    ghost use Rattle.std.specs.Option.{option_map};
    ghost use Rattle.mu_model_node.specs.BlobServer.{blob_number};
    ghost use Rattle.mu_model_node.specs.NodeState.{restarted, update_phase, update_number, blob_phase};
    ghost use Rattle.mu_model_world.specs.World.{config_of};
    ghost use Rattle.mu_reference_node.specs.Events.{event_of};
    ghost use Rattle.mu_world.specs.View.{tear_of, first_images};
    ghost use Rattle.mu_world.specs.Member.{BootOf, Operations};

    /// A member in a group, or in none (0), before its first event.
    pub(crate) fn new(group: u16, node: Node, first: First, second: Option<First>) -> Member
        ensures { result ≡ record { group = group; moment = 0; tear = None; state = node; first = first_images first second } }
    {
        Member {
            group,
            moment: 0,
            tear: None,
            node,
            first,
            second,
        }
    }

    /// Where it stands, at its address.
    pub(crate) fn config(&self, address: u16) -> NodeConfig
        ensures { result ≡ config_of address self.now }
    {
        NodeConfig {
            address,
            group: self.group,
        }
    }

    /// Its present moment in milliseconds.
    pub(crate) fn moment(&self) -> u64
        ensures { result ≡ self.now.moment }
    {
        self.moment
    }

    /// How many images it has.
    pub(crate) fn images(&self) -> u8
        ensures is { result ≡ length self.now.state.durable.images }
        ensures some { 1 ≤ result }
        ensures few { result ≤ 2 }
    {
        self.node.images()
    }

    /// The metadata of an active image.
    pub(crate) fn active(&self, index: u8) -> Meta
        requires { index < length self.now.state.durable.images }
        ensures { slice_get (map (λ image. image.meta) self.now.state.durable.images) index ≡ Some result }
    {
        self.node.active(index)
    }

    /// The update phase.
    pub(crate) fn phase(&self) -> u8
        ensures { result ≡ update_number (update_phase self.now.state) }
    {
        self.node.phase()
    }

    /// The BLOB phase.
    pub(crate) fn blob_phase(&self) -> u8
        ensures { result ≡ blob_number (blob_phase self.now.state) }
    {
        self.node.blob_phase()
    }

    /// The power is to go, in place of an earlier tear.
    pub(crate) fn arm(&mut self, tear: Tear)
        ensures { self.new ≡ record self.old { tear = Some (tear_of tear) } }
    {
        self.tear = Some(tear);
    }

    /// The power goes between events. A tear is spent.
    pub(crate) fn cut(&mut self) -> Boot
        ensures next { self.new ≡ record self.old { tear = None; state = restarted self.old.state.durable } }
        ensures boot { BootOf self.old self.new result }
    {
        self.tear = None;
        let entries = self.node.restart();
        self.boot(entries)
    }

    /// What it was booted with.
    fn boot(&self, entries: Entries) -> Boot
        ensures count { result.count ≡ self.now.state.durable.count }
        ensures held { result.held ≡ filling_held self.now.state.durable.job }
        ensures entries { result.entries ≡ entries }
    {
        Boot {
            count: self.node.count(),
            held: self.node.held_count(),
            entries,
        }
    }

    /// After how many flash operations the power goes in an event at a moment, where it does.
    fn operations_done<'a>(
        &mut self,
        alloc: Global,
        config: &NodeConfig,
        event: Event<'a>,
        now: u64,
    ) -> Result<Option<usize>, AllocError>
        ensures done { IfOk result (λ done. Operations config.now self.old (event_of event.entry) now done) }
        ensures same { self.new ≡ self.old }
    {
        let Some(tear) = self.tear else {
            return Ok(None);
        };
        if usize::from(tear.operation) > self.node.operations(alloc, config, event, now)? {
            return Ok(None);
        }
        Ok(Some(tear.operations_done()))
    }

    /// An event comes to it, at a moment that isn't before its own: what it sends goes into `out`. Where it isn't done, nothing has
    /// changed.
    pub(crate) fn happen<'a>(
        &mut self,
        alloc: Global,
        address: u16,
        event: Event<'a>,
        now: u64,
        out: &mut Outbox,
    ) -> Result<Came, Stop>
        requires { out.old.items ≡ [] }
        ensures ok { IfOk result (λ came. CameOf address self.old self.new (event_of event.entry) now (map packet_of out.new.items) came) }
        ensures err { IfErr result (λ stop. Stopped address self.old (event_of event.entry) now stop) }
        ensures same { OnErr result (self.new ≡ self.old) }
    {
        let config = self.config(address);
        let Ok(torn) = self.operations_done(alloc, &config, event, now) else {
            return Err(Stop::NoMemory);
        };
        if let Some(done) = torn {
            let entries = self.node.tear(alloc, &config, event, now, done)?;
            self.tear = None;
            self.moment = now;
            return Ok(Came::Torn(self.boot(entries)));
        }
        let stepped = self.node.step(alloc, &config, event, now, out)?;
        self.moment = now;
        Ok(Came::Whole {
            handled: stepped.handled,
            entries: stepped.entries,
        })
    }
}
