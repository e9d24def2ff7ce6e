// The world of a script.
ghost use Rattle.std.specs.Prelude.{◌≡◌, ◌<◌, ◌+◌, map, length, IfSome, IfErr, OnOk, IfOk, Err, min, slice_get, Some};
ghost use Rattle.mu_codec.specs.View.{packet_of};
ghost use Rattle.mu_model_script.specs.Ranges.{IsInRange};
ghost use Rattle.mu_script.specs.View.{event};
ghost use Rattle.mu_world.specs.Moved.{DidLine, FailsLine, kept_of, new_held};
ghost use Rattle.mu_world.specs.View.{entry_of};

use crate::fault::WorldFault;
use crate::lines::Lines;
use crate::log::LogEntry;
use crate::state::State;
use mu_codec::{Outbox, Packet};
use mu_script::Event;
use std::alloc::{AllocError, Global};
use std::marker::Model;

/// The most events of a world.
const MOST_EVENTS: u32 = 100_000;

/// The world of a script: its members, all packets that were sent, and the log of what has happened at its nodes.
///
/// Want of memory and a flash that is worn out are kept: a world that has answered one answers the same from then on.
#[derive(Drop)]
pub struct World {
    state: State,
    fault: Option<WorldFault>,
    /// What an event makes a member send stands here until it is put into the bag.
    out: Outbox,
}

impl Model for World {
    ghost use Rattle.mu_world.specs.Moved.{Held};

    ghost Value = { Held };

    ghost view = { λ w. record { world = w.state; fault = w.fault } };
}

impl World {
    /// The world before the first line of a script. This takes no memory yet.
    pub fn new(alloc: Global) -> Result<World, AllocError>
        ensures { IfOk result (λ world. world ≡ new_held) }
    {
        Ok(World {
            state: State::new(alloc),
            fault: None,
            out: Outbox::new(),
        })
    }

    /// Does one event, and prints what it prints.
    ///
    /// A bad event, and one past the limit of 100,000, change and print nothing.
    pub fn line(&mut self, happening: &Event, lines: &mut Lines) -> Result<(), WorldFault>
        requires { IsInRange (event happening.now) }
        ensures ok { OnOk result (DidLine self.old (event happening.now) lines.old lines.new self.new) }
        ensures err { IfErr result (λ fault. FailsLine self.old (event happening.now) lines.old lines.new self.new fault self.old.fault) }
        ensures counted { OnOk result (self.new.world.events ≡ self.old.world.events + 1) }
        ensures kept { IfSome self.old.fault (λ fault. result ≡ Err fault) }
    {
        if let Some(fault) = self.fault {
            return Err(fault);
        }
        if self.state.events >= MOST_EVENTS {
            return Err(WorldFault::TooLong);
        }
        match self.state.line(happening, &mut self.out, lines) {
            Ok(()) => Ok(()),
            Err(fault) => {
                self.keep(fault);
                Err(fault)
            }
        }
    }

    /// Keeps a fault that is for good.
    fn keep(&mut self, fault: WorldFault)
        ensures world { self.new.world ≡ self.old.world }
        ensures fault { self.new.fault ≡ kept_of self.old.fault fault }
    {
        match fault {
            WorldFault::Memory => self.fault = Some(fault),
            WorldFault::Worn { .. } => self.fault = Some(fault),
            WorldFault::Bad { .. } => {}
            WorldFault::TooLong => {}
        }
    }

    /// What has happened at its nodes, in order.
    pub fn log(&self) -> &[LogEntry]
        ensures { map entry_of result.now ≡ self.now.world.log }
    {
        self.state.log.as_slice()
    }

    /// How many packets were sent; 4,294,967,295 where there were more.
    pub fn bag_len(&self) -> u32
        ensures { result ≡ min (length self.now.world.bag) 4294967295 }
    {
        u32::try_from(self.state.bag.len()).unwrap_or(u32::MAX)
    }

    /// The packet of a number, from 0.
    pub fn bag_at(&self, k: u32) -> Packet
        requires { k < length self.now.world.bag }
        ensures { slice_get self.now.world.bag k ≡ Some (packet_of result) }
    {
        self.state.bag.at(k as usize)
    }
}
