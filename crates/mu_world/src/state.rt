// A world that goes on: its members, all that was sent, and what has happened.
ghost use Rattle.std.specs.Prelude.{◌≡◌, ◌≤◌, ◌<◌, ◌++◌, [], ◌∷◌, Some, None, map, length, nat_eq, IfErr, IfOk, IfSome, OnOk, OnErr};
ghost use Rattle.std.specs.Map.{lookup};
ghost use Rattle.mu_codec.specs.View.{packet_of};
ghost use Rattle.mu_model_script.specs.Event.{Node as NodeLine, Old as OldLine, Pair as PairLine, Say as SayLine, Deliver as DeliverLine, Time as TimeLine, Cut as CutLine, Tear as TearLine, Active as ActiveLine, Phase as PhaseLine};
ghost use Rattle.mu_model_script.specs.Texts.{boot_text};
ghost use Rattle.mu_model_script.specs.Ranges.{IsInRange};
ghost use Rattle.mu_model_world.specs.Judged.{against_member, against_stranger, most_events};
ghost use Rattle.mu_model_world.specs.Outcomes.{content_octets, sent_texts};
ghost use Rattle.mu_script.specs.View.{content, event};
ghost use Rattle.mu_world.specs.Moved.{Did, Fails};

use crate::bag::Bag;
use crate::content::{First, fits, image_copy, image_octets};
use crate::fault::{WorldFault, bad};
use crate::lines::Lines;
use crate::log::LogEntry;
use crate::member::{Boot, Came, Member, Tear};
use crate::members::{arm, cut, hand};
use crate::packets::{copy_of, is_addressee, offered, owner_of};
use crate::shown::{print_active, print_unread};
use indexmap::IndexMap;
use mu_codec::{Outbox, Packet, Payload};
use mu_model_image::laws::made;
use mu_model_script::BadWhy;
use mu_reference_node::{Entries, Event as NodeEvent, Node, What};
use mu_script::{Content, Event};
use std::alloc::Global;
use std::marker::Model;

/// The most members of a script.
const MOST_MEMBERS: usize = 32;

/// The members of a script, all packets that were sent, and what has happened.
#[derive(Drop)]
pub(crate) struct State {
    alloc: Global,
    members: IndexMap<u16, Member>,
    pub(crate) bag: Bag,
    pub(crate) log: Vec<LogEntry>,
    pub(crate) events: u32,
    begun: bool,
}

impl Model for State {
    ghost use Rattle.std.specs.Prelude.{map};
    ghost use Rattle.mu_model_world.specs.World.{World as Seen};
    ghost use Rattle.mu_world.specs.View.{entry_of};

    ghost Value = { Seen };

    ghost view = { λ w. record {
      members = w.members.entries;
      bag = w.bag;
      log = map entry_of w.log.items;
      events = w.events;
      begun = w.begun;
    } };
}

impl State {
    ghost use Rattle.mu_codec.specs.View.{packet_of};
    ghost use Rattle.mu_model_world.specs.World.{new_world, member_at};
    ghost use Rattle.mu_model_world.specs.Outcomes.{with_packets, with_member, counted, begun};
    ghost use Rattle.mu_reference_node.specs.Logging.{what_of};
    ghost use Rattle.mu_world.specs.Outcome.{Objects, with_entries};

    /// The world before the first line.
    pub(crate) fn new(alloc: Global) -> State
        ensures { result ≡ new_world }
    {
        State {
            alloc,
            members: IndexMap::new(alloc),
            bag: Bag::new(alloc),
            log: Vec::new(alloc),
            events: 0,
            begun: false,
        }
    }

    // ---- parts of an event

    /// One event more, which is no member line.
    fn begin(&mut self)
        requires { self.old.events < most_events }
        ensures { self.new ≡ begun self.old }
    {
        self.events += 1;
        self.begun = true;
    }

    /// Puts a packet into the bag, and prints its line.
    fn send(&mut self, packet: &Packet, lines: &mut Lines) -> Result<(), WorldFault>
        ensures bag { OnOk result (self.new ≡ with_packets self.old (packet_of packet.now ∷ [])) }
        ensures printed { OnOk result (lines.new ≡ lines.old ++ sent_texts (length self.old.bag) (packet_of packet.now ∷ [])) }
        ensures err { IfErr result (λ fault. fault ≡ WorldFault.Memory) }
    {
        let Ok(number) = u32::try_from(self.bag.len()) else {
            return Err(WorldFault::Memory);
        };
        lines.sent(number, packet)?;
        self.bag.push(packet)?;
        Ok(())
    }

    /// Puts packets into the bag, and prints their lines.
    fn send_all(&mut self, packets: &[Packet], lines: &mut Lines) -> Result<(), WorldFault>
        ensures bag { OnOk result (self.new ≡ with_packets self.old (map packet_of packets.now)) }
        ensures printed { OnOk result (lines.new ≡ lines.old ++ sent_texts (length self.old.bag) (map packet_of packets.now)) }
        ensures err { IfErr result (λ fault. fault ≡ WorldFault.Memory) }
    {
        for packet in packets {
            self.send(packet, lines)?;
        }
        Ok(())
    }

    /// Logs one thing that happened at the node of an address.
    fn enter(&mut self, address: u16, what: What) -> Result<(), WorldFault>
        ensures ok { OnOk result (self.new ≡ with_entries self.old address (what_of what ∷ [])) }
        ensures err { IfErr result (λ fault. fault ≡ WorldFault.Memory) }
    {
        self.log.push(LogEntry {
            node: address,
            what,
        })?;
        Ok(())
    }

    /// Logs what happened at the node of an address, in order.
    fn enter_all(&mut self, address: u16, entries: &[What]) -> Result<(), WorldFault>
        ensures ok { OnOk result (self.new ≡ with_entries self.old address (map what_of entries.now)) }
        ensures err { IfErr result (λ fault. fault ≡ WorldFault.Memory) }
    {
        for what in entries {
            self.enter(address, *what)?;
        }
        Ok(())
    }

    /// The member at an address, which the token of this number names.
    fn member(&self, token: u8, address: u16) -> Result<&Member, WorldFault>
        ensures ok { IfOk result (λ member. member_at self.now address ≡ Some member.now) }
        ensures err { IfErr result (λ fault. (member_at self.now address ≡ None) × (fault ≡ WorldFault.Bad token BadWhy.Member)) }
    {
        match self.members.get(&address) {
            Some(member) => Ok(member),
            None => Err(bad(token, BadWhy::Member)),
        }
    }

    // ---- member lines

    /// That a member may still be added at an address.
    fn free(&self, address: u16) -> Result<(), WorldFault>
        ensures ok { OnOk result (against_member self.now address ≡ None) }
        ensures err { IfErr result (Objects (against_member self.now address)) }
    {
        if self.begun || self.members.len() >= MOST_MEMBERS {
            return Err(bad(0, BadWhy::Member));
        }
        if self.members.contains_key(&address) {
            return Err(bad(1, BadWhy::Member));
        }
        Ok(())
    }

    /// A member more.
    fn add(&mut self, address: u16, member: Member) -> Result<(), WorldFault>
        requires free { against_member self.old address ≡ None }
        requires few { self.old.events < most_events }
        ensures ok { OnOk result (self.new ≡ with_member (counted self.old) address member) }
        ensures err { IfErr result (λ fault. fault ≡ WorldFault.Memory) }
    {
        self.events += 1;
        self.members.insert(address, member)?;
        Ok(())
    }

    /// A node with one image.
    fn node(
        &mut self,
        address: u16,
        group: u16,
        pages: u16,
        version: u32,
        image: &Content,
        lines: &Lines,
    ) -> Result<(), WorldFault>
        requires few { self.old.events < most_events }
        requires pages { (1 ≤ pages) × (pages ≤ 256) }
        requires image { 1 ≤ length (content_octets (content image.now)) }
        ensures ok { OnOk result (Did self.old (NodeLine address group pages version (content image.now)) lines.now lines.now self.new) }
        ensures err { IfErr result (Fails self.old (NodeLine address group pages version (content image.now)) lines.now lines.now self.new) }
    {
        self.free(address)?;
        fits(5, pages, image)?;
        let octets = image_octets(self.alloc, image)?;
        let node = Node::with_image(self.alloc, pages, version, octets)?;
        let first = First {
            version,
            content: image_copy(image),
        };
        self.add(address, Member::new(group, node, first, None))
    }

    /// A node with two images.
    fn pair(
        &mut self,
        address: u16,
        group: u16,
        pages: u16,
        version: u32,
        image: &Content,
        second_version: u32,
        second_image: &Content,
        lines: &Lines,
    ) -> Result<(), WorldFault>
        requires few { self.old.events < most_events }
        requires pages { (1 ≤ pages) × (pages ≤ 256) }
        requires image { 1 ≤ length (content_octets (content image.now)) }
        requires second { 1 ≤ length (content_octets (content second_image.now)) }
        ensures ok { OnOk result (Did self.old (PairLine address group pages version (content image.now) second_version (content second_image.now)) lines.now lines.now self.new) }
        ensures err { IfErr result (Fails self.old (PairLine address group pages version (content image.now) second_version (content second_image.now)) lines.now lines.now self.new) }
    {
        self.free(address)?;
        fits(5, pages, image)?;
        fits(7, pages, second_image)?;
        let octets = image_octets(self.alloc, image)?;
        let second_octets = image_octets(self.alloc, second_image)?;
        let node = Node::pair(
            self.alloc,
            pages,
            version,
            octets,
            second_version,
            second_octets,
        )?;
        let first = First {
            version,
            content: image_copy(image),
        };
        let second = First {
            version: second_version,
            content: image_copy(second_image),
        };
        self.add(address, Member::new(group, node, first, Some(second)))
    }

    // ---- packets and time

    /// That a stranger may send a payload from an address.
    fn stranger(&self, from: u16, payload: &[u8]) -> Result<(), WorldFault>
        ensures ok { OnOk result (against_stranger self.now from payload.now ≡ None) }
        ensures err { IfErr result (Objects (against_stranger self.now from payload.now)) }
    {
        if self.members.contains_key(&from) {
            return Err(bad(1, BadWhy::Premise));
        }
        match offered(payload) {
            Some(id) if self.members.contains_key(&owner_of(id)) => Err(bad(3, BadWhy::Premise)),
            _ => Ok(()),
        }
    }

    /// A stranger's packet.
    fn say(
        &mut self,
        from: u16,
        to: u16,
        payload: &Payload,
        lines: &mut Lines,
    ) -> Result<(), WorldFault>
        requires few { self.old.events < most_events }
        ensures ok { OnOk result (Did self.old (SayLine from to payload.now.items) lines.old lines.new self.new) }
        ensures err { IfErr result (Fails self.old (SayLine from to payload.now.items) lines.old lines.new self.new) }
    {
        self.stranger(from, payload.as_slice())?;
        self.begin();
        let packet = Packet {
            from,
            to,
            payload: copy_of(payload),
        };
        self.send(&packet, lines)
    }

    /// What came of an event at the node of an address is logged and printed.
    fn ran(
        &mut self,
        address: u16,
        entries: &Entries,
        packets: &Outbox,
        lines: &mut Lines,
    ) -> Result<(), WorldFault>
        ensures world { OnOk result (self.new ≡ with_packets (with_entries self.old address (map what_of entries.now.items)) (map packet_of packets.now.items)) }
        ensures printed { OnOk result (lines.new ≡ lines.old ++ sent_texts (length self.old.bag) (map packet_of packets.now.items)) }
        ensures err { IfErr result (λ fault. fault ≡ WorldFault.Memory) }
    {
        self.enter_all(address, entries.as_slice())?;
        self.send_all(packets.as_slice(), lines)
    }

    /// A boot of the node of an address is logged and printed.
    fn booted(&mut self, address: u16, boot: &Boot, lines: &mut Lines) -> Result<(), WorldFault>
        ensures world { OnOk result (self.new ≡ with_entries self.old address (map what_of boot.now.entries.items)) }
        ensures printed { OnOk result (lines.new ≡ lines.old ++ boot_text address boot.now.count boot.now.held) }
        ensures err { IfErr result (λ fault. fault ≡ WorldFault.Memory) }
    {
        self.enter_all(address, boot.entries.as_slice())?;
        lines.boot(address, boot.count, boot.held)?;
        Ok(())
    }

    /// A packet of the bag comes to a member. What it sends stands in `out` meanwhile, in place of what stood there.
    fn deliver(
        &mut self,
        number: u32,
        address: u16,
        out: &mut Outbox,
        lines: &mut Lines,
    ) -> Result<(), WorldFault>
        requires few { self.old.events < most_events }
        ensures ok { OnOk result (Did self.old (DeliverLine number address) lines.old lines.new self.new) }
        ensures err { IfErr result (Fails self.old (DeliverLine number address) lines.old lines.new self.new) }
    {
        let Some(member) = self.members.get(&address) else {
            return Err(bad(2, BadWhy::Member));
        };
        let moment = member.moment();
        let config = member.config(address);
        let Some(packet) = self.bag.get(number) else {
            return Err(bad(1, BadWhy::Packet));
        };
        if !is_addressee(&config, &packet) {
            return Err(bad(2, BadWhy::Packet));
        }
        out.clear();
        let came = hand(
            self.alloc,
            &mut self.members,
            address,
            NodeEvent::Packet(&packet),
            moment,
            out,
        )?;
        self.begin();
        match came {
            Came::Whole { handled, entries } => {
                print_unread(handled, number, address, lines)?;
                self.ran(address, &entries, out, lines)
            }
            Came::Torn(boot) => self.booted(address, &boot, lines),
        }
    }

    /// Time comes to a member. What it sends stands in `out` meanwhile, in place of what stood there.
    fn time(
        &mut self,
        address: u16,
        ms: u64,
        out: &mut Outbox,
        lines: &mut Lines,
    ) -> Result<(), WorldFault>
        requires few { self.old.events < most_events }
        ensures ok { OnOk result (Did self.old (TimeLine address ms) lines.old lines.new self.new) }
        ensures err { IfErr result (Fails self.old (TimeLine address ms) lines.old lines.new self.new) }
    {
        let moment = self.member(1, address)?.moment().max(ms);
        out.clear();
        let came = hand(
            self.alloc,
            &mut self.members,
            address,
            NodeEvent::Time,
            moment,
            out,
        )?;
        self.begin();
        match came {
            Came::Whole { entries, .. } => self.ran(address, &entries, out, lines),
            Came::Torn(boot) => self.booted(address, &boot, lines),
        }
    }

    // ---- power

    /// The power of a member goes between events.
    fn cut(&mut self, address: u16, lines: &mut Lines) -> Result<(), WorldFault>
        requires few { self.old.events < most_events }
        ensures ok { OnOk result (Did self.old (CutLine address) lines.old lines.new self.new) }
        ensures err { IfErr result (Fails self.old (CutLine address) lines.old lines.new self.new) }
    {
        let boot = cut(&mut self.members, address)?;
        self.begin();
        self.booted(address, &boot, lines)
    }

    /// The power of a member is to go in an event.
    fn tear(&mut self, address: u16, tear: Tear, lines: &Lines) -> Result<(), WorldFault>
        requires few { self.old.events < most_events }
        ensures ok { OnOk result (Did self.old (TearLine address tear.operation tear.pattern) lines.now lines.now self.new) }
        ensures err { IfErr result (Fails self.old (TearLine address tear.operation tear.pattern) lines.now lines.now self.new) }
    {
        arm(&mut self.members, address, tear)?;
        self.begin();
        Ok(())
    }

    // ---- shown lines

    /// Shows the active images of a node.
    fn active(&mut self, address: u16, lines: &mut Lines) -> Result<(), WorldFault>
        requires few { self.old.events < most_events }
        ensures ok { OnOk result (Did self.old (ActiveLine address) lines.old lines.new self.new) }
        ensures err { IfErr result (Fails self.old (ActiveLine address) lines.old lines.new self.new) }
    {
        let member = self.member(1, address)?;
        print_active(member, address, lines)?;
        self.begin();
        Ok(())
    }

    /// Shows the phases of a node.
    fn phase(&mut self, address: u16, lines: &mut Lines) -> Result<(), WorldFault>
        requires few { self.old.events < most_events }
        ensures ok { OnOk result (Did self.old (PhaseLine address) lines.old lines.new self.new) }
        ensures err { IfErr result (Fails self.old (PhaseLine address) lines.old lines.new self.new) }
    {
        let member = self.member(1, address)?;
        lines.phase(address, member.phase(), member.blob_phase())?;
        self.begin();
        Ok(())
    }

    /// Does one event, and prints what it prints. At want of memory it may be half done. One outbox serves every event.
    pub(crate) fn line(
        &mut self,
        happening: &Event,
        out: &mut Outbox,
        lines: &mut Lines,
    ) -> Result<(), WorldFault>
        requires few { self.old.events < most_events }
        requires in_range { IsInRange (event happening.now) }
        ensures ok { OnOk result (Did self.old (event happening.now) lines.old lines.new self.new) }
        ensures err { IfErr result (Fails self.old (event happening.now) lines.old lines.new self.new) }
    {
        made();
        match happening {
            Event::Node {
                addr,
                group,
                pages,
                version,
                content,
            } => self.node(*addr, *group, *pages, *version, content, lines),
            Event::Old {
                addr,
                group,
                pages,
                version,
                content,
            } => self.node(*addr, *group, *pages, *version, content, lines),
            Event::Pair {
                addr,
                group,
                pages,
                version,
                content,
                second_version,
                second_content,
            } => self.pair(
                *addr,
                *group,
                *pages,
                *version,
                content,
                *second_version,
                second_content,
                lines,
            ),
            Event::Say { from, to, payload } => self.say(*from, *to, payload, lines),
            Event::Deliver { packet, addr } => self.deliver(*packet, *addr, out, lines),
            Event::Time { addr, ms } => self.time(*addr, *ms, out, lines),
            Event::Cut { addr } => self.cut(*addr, lines),
            Event::Tear { addr, n, pattern } => {
                let tear = Tear {
                    operation: *n,
                    pattern: *pattern,
                };
                self.tear(*addr, tear, lines)
            }
            Event::Active { addr } => self.active(*addr, lines),
            Event::Phase { addr } => self.phase(*addr, lines),
        }
    }
}
