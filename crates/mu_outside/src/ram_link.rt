// A link in memory.
ghost use Rattle.std.specs.Prelude.{◌≡◌, ◌+◌, ◌-◌, ◌^◌, ◌<◌, ◌≤◌, ◌↔◌, ◌⊎◌, [], ◌∷◌, ◌++◌, ℕ, true, false, None, IsTrue, IsErr, IfOk, OnOk, OnErr, Contains, length, min};
ghost use Rattle.std.specs.List.{All};
ghost use Rattle.std.specs.Vec.{vec_capacity};
ghost use Rattle.mu_model_flash.specs.Cause.{HasCause};
ghost use Rattle.mu_outside.specs.Link.{found_of, Keeps, Stays, Bound, Sent, Received as ReceivedAt};

use crate::calls::Calls;
use crate::posts::{copied, incoming, next_for, post_of};
use crate::{Incoming, Link};
use arrayvec::ArrayVec;
use mu_model_flash::Failed;
use std::alloc::{AllocError, Global};

/// The most addresses that are bound.
const MOST_BOUND: u8 = 32;

#[derive(Drop)]
pub(crate) struct Datagram {
    pub(crate) from: u16,
    pub(crate) to: u16,
    pub(crate) octets: ArrayVec<u8, 388>,
}

#[derive(Drop)]
pub(crate) struct Received {
    pub(crate) at: u16,
    pub(crate) bound: bool,
    pub(crate) found: Incoming,
}

// An address that is bound, and how many datagrams it has behind it.
#[derive(Clone, Copy, Drop)]
pub(crate) struct Post {
    pub(crate) addr: u16,
    pub(crate) passed: usize,
}

/// A link in memory with room for so many datagrams, answers of `receive` and 32 addresses. Its calls are numbered
/// from 1, and those whose number is named fail. So does a call that lacks room. It keeps all that it carried and answered.
#[derive(Drop)]
pub struct RamLink {
    sent: Vec<Datagram>,
    answers: Vec<Received>,
    posts: Vec<Post>,
    send_room: u32,
    receive_room: u32,
    bind_room: u8,
    calls: Calls,
    ghost sends: { length sent.items + send_room ≤ vec_capacity sent },
    ghost receives: { length answers.items + receive_room ≤ vec_capacity answers },
    ghost binds: { length posts.items + bind_room ≤ vec_capacity posts },
    ghost behind: { All (λ post. post.passed ≤ length sent.items) posts.items },
}

impl RamLink {
    ghost use Rattle.mu_outside.specs.RamLink.{link_seen, link_waits, link_calls, link_fails, link_room};

    /// A link of which the calls with these numbers fail. Nothing is bound, and nothing was sent or received.
    pub fn new(
        alloc: Global,
        sends: u32,
        receives: u32,
        fails: &[u32],
    ) -> Result<RamLink, AllocError>
        ensures bound { IfOk result (λ link. (a : ℕ) → (link_seen link).bound a ≡ false) }
        ensures waits { IfOk result (λ link. (a : ℕ) → link_waits link a ≡ []) }
        ensures sent { IfOk result (λ link. (link_seen link).sent ≡ []) }
        ensures answers { IfOk result (λ link. (link_seen link).answers ≡ []) }
        ensures faults { IfOk result (λ link. (link_seen link).faults ≡ 0) }
        ensures calls { IfOk result (λ link. link_calls link ≡ 0) }
        ensures fails { IfOk result (λ link. link_fails link ≡ fails.now) }
        ensures room { IfOk result (λ link. link_room link ≡ record { sends = sends; receives = receives; binds = 32 }) }
    {
        Ok(RamLink {
            sent: Vec::with_capacity(alloc, sends as usize)?,
            answers: Vec::with_capacity(alloc, receives as usize)?,
            posts: Vec::with_capacity(alloc, MOST_BOUND as usize)?,
            send_room: sends,
            receive_room: receives,
            bind_room: MOST_BOUND,
            calls: Calls::new(alloc, fails)?,
        })
    }

    // Sends with room to spare.
    fn keep(&mut self, from: u16, to: u16, bytes: &[u8])
        requires { (length bytes.now ≤ 388) × (0 < self.old.send_room) }
        ensures sent { Sent from to bytes.now (link_seen self.old) (link_seen self.new) }
        ensures reaches { Reaches from to bytes.now self.old self.new }
        ensures room { self.new.send_room + 1 ≡ self.old.send_room }
        ensures rooms { (self.new.receive_room ≡ self.old.receive_room) × (self.new.bind_room ≡ self.old.bind_room) }
        ensures calls { self.new.calls ≡ self.old.calls }
    {
        let mut octets = ArrayVec::new();
        let _fits = octets.try_extend_from_slice(bytes);
        self.send_room -= 1;
        self.sent.push_reserved(Datagram { from, to, octets });
    }

    // Binds with room to spare an address that isn't bound.
    fn post(&mut self, addr: u16)
        requires { (passed self.old.posts.items addr ≡ None) × (0 < self.old.bind_room) }
        ensures bound { Bound addr (link_seen self.old) (link_seen self.new) }
        ensures waits { (a : ℕ) → link_waits self.new a ≡ link_waits self.old a }
        ensures room { self.new.bind_room + 1 ≡ self.old.bind_room }
        ensures rooms { (self.new.receive_room ≡ self.old.receive_room) × (self.new.send_room ≡ self.old.send_room) }
        ensures calls { self.new.calls ≡ self.old.calls }
    {
        self.bind_room -= 1;
        self.posts.push_reserved(Post {
            addr,
            passed: self.sent.len(),
        });
    }

    // Takes what waits next at a post.
    fn take(&mut self, addr: u16, place: usize) -> Incoming
        requires { IsPost self.old.posts.items addr place }
        ensures takes { Takes addr (found_of result) self.old self.new }
        ensures next { found_of result ≡ (link_seen self.old).next addr }
        ensures bound { (a : ℕ) → (link_seen self.new).bound a ≡ (link_seen self.old).bound a }
        ensures was_bound { (link_seen self.old).bound addr ≡ true }
        ensures same { (self.new.sent ≡ self.old.sent) × (self.new.answers ≡ self.old.answers) × (self.new.calls ≡ self.old.calls) }
        ensures rooms { (self.new.send_room ≡ self.old.send_room) × (self.new.receive_room ≡ self.old.receive_room) × (self.new.bind_room ≡ self.old.bind_room) }
    {
        let next = next_for(&self.sent, addr, self.posts[place].passed);
        if next == self.sent.len() {
            self.posts[place] = Post { addr, passed: next };
            return Incoming::Quiet;
        }
        self.posts[place] = Post {
            addr,
            passed: next + 1,
        };
        incoming(&self.sent[next])
    }

    // Answers with room to spare.
    fn answer(&mut self, at: u16) -> Incoming
        requires { 0 < self.old.receive_room }
        ensures received { ReceivedAt at (found_of result) (link_seen self.old) (link_seen self.new) }
        ensures takes { Takes at (found_of result) self.old self.new }
        ensures room { self.new.receive_room + 1 ≡ self.old.receive_room }
        ensures rooms { (self.new.send_room ≡ self.old.send_room) × (self.new.bind_room ≡ self.old.bind_room) }
        ensures calls { self.new.calls ≡ self.old.calls }
    {
        match post_of(self.posts.as_slice(), at) {
            Some(place) => {
                let found = self.take(at, place);
                self.note(at, true, copied(&found));
                found
            }
            None => {
                self.note(at, false, Incoming::Quiet);
                Incoming::Quiet
            }
        }
    }

    // Keeps an answer with room to spare.
    fn note(&mut self, at: u16, bound: bool, found: Incoming)
        requires { 0 < self.old.receive_room }
        ensures answers { (link_seen self.new).answers ≡ (link_seen self.old).answers ++ (record { at = at; bound = bound; found = found_of found }) ∷ [] }
        ensures sent { self.new.sent ≡ self.old.sent }
        ensures posts { self.new.posts ≡ self.old.posts }
        ensures room { self.new.receive_room + 1 ≡ self.old.receive_room }
        ensures rooms { (self.new.send_room ≡ self.old.send_room) × (self.new.bind_room ≡ self.old.bind_room) }
        ensures calls { self.new.calls ≡ self.old.calls }
    {
        self.receive_room -= 1;
        self.answers.push_reserved(Received { at, bound, found });
    }

    ghost use Rattle.mu_outside.specs.RamLink.{passed, Reaches, Takes, IsPost};
}

impl Link for RamLink {
    ghost use Rattle.mu_outside.specs.RamLink.{link_seen, link_waits, link_calls, link_fails, link_room, Reaches, Takes, Untouched};

    ghost seen = { link_seen };

    ghost bounded = { λ link. link.calls.counted };

    fn bind(&mut self, addr: u16) -> Result<(), Failed>
        ensures told { (link_seen self.new).told ≡ (link_seen self.old).told }
        ensures bound { OnOk result (IsTrue (link_seen self.old).told → Bound addr (link_seen self.old) (link_seen self.new)) }
        ensures same { OnErr result (IsTrue (link_seen self.old).told → Stays (link_seen self.old) (link_seen self.new)) }
        ensures cause { HasCause (link_seen self.old).faults (link_seen self.new).faults result }

        // An address that is bound again takes no room. It fails at the named calls and without room alone.
        ensures waits { OnOk result ((a : ℕ) → link_waits self.new a ≡ link_waits self.old a) }
        ensures again { OnOk result ((link_seen self.old).bound addr ≡ true → link_room self.new ≡ link_room self.old) }
        ensures room { OnOk result ((link_seen self.old).bound addr ≡ false → record (link_room self.new) { binds = (link_room self.new).binds + 1 } ≡ link_room self.old) }
        ensures untouched { OnErr result (Untouched self.old self.new) }
        ensures fails { IsErr result ↔ (Contains (link_fails self.old) (link_calls self.new) ⊎ (((link_seen self.old).bound addr ≡ false) × ((link_room self.old).binds ≡ 0))) }
        ensures calls { link_calls self.new ≡ min (link_calls self.old + 1) (2 ^ 64 - 1) }
        ensures keeps { link_fails self.new ≡ link_fails self.old }
        ensures unfailed { OnOk result ((link_seen self.new).faults ≡ (link_seen self.old).faults) }
    {
        if let Err(failed) = self.calls.begin() {
            return Err(failed);
        }
        if post_of(self.posts.as_slice(), addr).is_some() {
            return Ok(());
        }
        if self.bind_room == 0 {
            return Err(self.calls.fail());
        }
        self.post(addr);
        Ok(())
    }

    fn send(&mut self, from: u16, to: u16, bytes: &[u8]) -> Result<(), Failed>
        requires few { length bytes.now ≤ 388 }
        ensures told { (link_seen self.new).told ≡ (link_seen self.old).told }
        ensures sent { OnOk result (IsTrue (link_seen self.old).told → Sent from to bytes.now (link_seen self.old) (link_seen self.new)) }
        ensures same { OnErr result (IsTrue (link_seen self.old).told → Keeps (link_seen self.old) (link_seen self.new)) }
        ensures cause { HasCause (link_seen self.old).faults (link_seen self.new).faults result }

        // It waits last where it goes to. It fails at the named calls and without room alone.
        ensures reaches { OnOk result (Reaches from to bytes.now self.old self.new) }
        ensures room { OnOk result (record (link_room self.new) { sends = (link_room self.new).sends + 1 } ≡ link_room self.old) }
        ensures untouched { OnErr result (Untouched self.old self.new) }
        ensures fails { IsErr result ↔ (Contains (link_fails self.old) (link_calls self.new) ⊎ ((link_room self.old).sends ≡ 0)) }
        ensures calls { link_calls self.new ≡ min (link_calls self.old + 1) (2 ^ 64 - 1) }
        ensures keeps { link_fails self.new ≡ link_fails self.old }
        ensures unfailed { OnOk result ((link_seen self.new).faults ≡ (link_seen self.old).faults) }
    {
        if let Err(failed) = self.calls.begin() {
            return Err(failed);
        }
        if self.send_room == 0 {
            return Err(self.calls.fail());
        }
        self.keep(from, to, bytes);
        Ok(())
    }

    fn receive(&mut self, at: u16) -> Result<Incoming, Failed>
        ensures told { (link_seen self.new).told ≡ (link_seen self.old).told }
        ensures received { IfOk result (λ incoming. IsTrue (link_seen self.old).told → ReceivedAt at (found_of incoming) (link_seen self.old) (link_seen self.new)) }
        ensures same { OnErr result (IsTrue (link_seen self.old).told → Stays (link_seen self.old) (link_seen self.new)) }
        ensures cause { HasCause (link_seen self.old).faults (link_seen self.new).faults result }

        // What it finds waits no longer. It fails at the named calls and without room alone.
        ensures takes { IfOk result (λ incoming. Takes at (found_of incoming) self.old self.new) }
        ensures room { OnOk result (record (link_room self.new) { receives = (link_room self.new).receives + 1 } ≡ link_room self.old) }
        ensures untouched { OnErr result (Untouched self.old self.new) }
        ensures fails { IsErr result ↔ (Contains (link_fails self.old) (link_calls self.new) ⊎ ((link_room self.old).receives ≡ 0)) }
        ensures calls { link_calls self.new ≡ min (link_calls self.old + 1) (2 ^ 64 - 1) }
        ensures keeps { link_fails self.new ≡ link_fails self.old }
        ensures unfailed { OnOk result ((link_seen self.new).faults ≡ (link_seen self.old).faults) }
    {
        if let Err(failed) = self.calls.begin() {
            return Err(failed);
        }
        if self.receive_room == 0 {
            return Err(self.calls.fail());
        }
        Ok(self.answer(at))
    }
}
