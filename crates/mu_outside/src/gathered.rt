// An output that gathers what is written and hands it on in large pieces.
ghost use Rattle.std.specs.Prelude.{◌≡◌, ◌≤◌, ℕ, List, [], drop, length, Option, None, OnOk};
ghost use Rattle.mu_model_flash.specs.Cause.{HasCause};
ghost use Rattle.mu_outside.specs.Gathering.{Handed, GoesOn};
ghost use Rattle.mu_outside.specs.Stream.{KeepsTold};

use crate::Sink;
use arrayvec::ArrayVec;
use mu_model_flash::Failed;
use std::marker::{Brand, PhantomData};

/// A loan, which proofs know by its name and by what the lent output told at its start. So what a gathered output has done is known
/// of the output that was lent to it.
pub trait Loan {
    ghost name: { ℕ };

    ghost start: { Option (List ℕ) };
}

impl Loan for Brand {
    ghost name = { 0 };

    ghost start = { None };
}

/// An output that keeps some of what is written until it is told to hand it on.
pub trait Gather: Sink {
    /// Hands on what is kept, and what is written stays the same. What was not taken where it fails is still kept.
    fn flush(&mut self) -> Result<(), Failed>
        ensures same { KeepsTold (Self.written self.old) (Self.written self.new) }
        ensures cause { HasCause (Self.faults self.old) (Self.faults self.new) result };
}

/// An output that is lent.
#[derive(Drop)]
pub struct Lent<'k, K> {
    pub output: &'k mut K,
}

impl<'k, K> Lent<'k, K> {
    ghost use Rattle.std.specs.Prelude.{◌≡◌};

    /// Lends an output.
    pub fn new(output: &'k mut K) -> Lent<'k, K>
        ensures output { result.output.now ≡ output.old }
        ensures name { result.output.ghost_name ≡ output.entry.ghost_name }
    {
        Lent { output }
    }
}

/// An output over another one, which hands on what it has gathered once that is 65,536 octets, or when it is told to.
/// What is written is what the output below it has, and then what is gathered. Drop it only once all is handed on: the rest is lost.
#[derive(Drop)]
pub struct Gathered<'k, K: Sink, N: Loan> {
    below: &'k mut K,
    held: ArrayVec<u8, 65536>,
    of: PhantomData<N>,
    ghost lent: { below.ghost_name ≡ N.name },
    ghost grows: { GoesOn N.start (K.written below.now) },
}

// Hands octets on, as many as the output takes, until it fails.
fn hand_on<K: Sink>(below: &mut K, held: &mut ArrayVec<u8, 65536>) -> Result<(), Failed>
    ensures handed { Handed (K.written below.old) held.old.items (K.written below.new) held.new.items }
    ensures empty { OnOk result (held.new.items ≡ []) }
    ensures cause { HasCause (K.faults below.old) (K.faults below.new) result }
{
    let mut done = 0;
    let mut failed = false;
    while done < held.len() && !failed {
        match below.write(&held.as_slice()[done..]) {
            Ok(count) => done += count,
            Err(_) => failed = true,
        }
    }
    if failed {
        keep_from(held, done);
        return Err(Failed);
    }
    held.clear();
    Ok(())
}

// Lets the first octets go.
fn keep_from(held: &mut ArrayVec<u8, 65536>, done: usize)
    requires { done ≤ length held.old.items }
    ensures { held.new.items ≡ drop done held.old.items }
{
    let mut rest = ArrayVec::new();
    let _fits = rest.try_extend_from_slice(&held.as_slice()[done..]);
    *held = rest;
}

impl<'k, K: Sink, N: Loan> Gathered<'k, K, N> {
    ghost use Rattle.std.specs.Prelude.{◌≡◌, [], OnOk};
    ghost use Rattle.mu_model_flash.specs.Cause.{HasCause};
    ghost use Rattle.mu_outside.specs.Gathering.{GoesOn};
    ghost use Rattle.mu_outside.specs.Gathered.{below_of, held_of};

    /// Nothing is gathered yet.
    #[tactic(auto, using(crate::proofs::Handing::goes_on_self))]
    pub fn new(lent: Lent<'k, K>) -> Gathered<'k, K, N>
        requires name { lent.output.ghost_name ≡ N.name }
        requires start { K.written lent.output.now ≡ N.start }
        ensures below { below_of result ≡ lent.entry.output.now }
        ensures held { held_of result ≡ [] }
    {
        Gathered {
            below: lent.output,
            held: ArrayVec::new(),
            of: PhantomData,
        }
    }

    /// Gives the output that was lent back. What is still gathered is lost.
    pub fn back(self) -> Lent<'k, K>
        ensures output { result.output.now ≡ below_of self.entry }
        ensures name { result.output.ghost_name ≡ N.name }
        ensures grows { GoesOn N.start (K.written result.output.now) }
    {
        Lent { output: self.below }
    }
}

impl<'k, K: Sink, N: Loan> Sink for Gathered<'k, K, N> {
    ghost use Rattle.std.specs.Prelude.{◌≡◌, ◌≤◌, ◌<◌, length, IfOk, OnErr};
    ghost use Rattle.mu_model_flash.specs.Cause.{HasCause};
    ghost use Rattle.mu_outside.specs.Stream.{WriteTakes, KeepsTold};
    ghost use Rattle.mu_outside.specs.Gathering.{behind, most_gathered};
    ghost use Rattle.mu_outside.specs.Gathered.{below_of, held_of};

    ghost written = { λ sink. behind (K.written sink.below.now) sink.held.items };

    ghost faults = { λ sink. K.faults sink.below.now };

    ghost bounded = { λ sink. K.bounded sink.below.now };

    #[tactic(auto, using(crate::proofs::Handing::took, crate::proofs::Handing::kept, crate::proofs::Handing::handed_none, crate::proofs::Handing::goes_on))]
    fn write(&mut self, bytes: &[u8]) -> Result<usize, Failed>
        ensures within { IfOk result (λ n. n ≤ length bytes.now) }
        ensures some { IfOk result (λ n. n ≡ 0 → length bytes.now ≡ 0) }
        ensures takes { IfOk result (λ n. WriteTakes (behind (K.written (below_of self.old)) (held_of self.old)) (behind (K.written (below_of self.new)) (held_of self.new)) bytes.now n) }
        ensures same { OnErr result (KeepsTold (behind (K.written (below_of self.old)) (held_of self.old)) (behind (K.written (below_of self.new)) (held_of self.new))) }
        ensures cause { HasCause (K.faults (below_of self.old)) (K.faults (below_of self.new)) result }

        // The output below is called only where no octet more can be gathered.
        ensures gathers { length (held_of self.old) < most_gathered → below_of self.new ≡ below_of self.old }
    {
        if self.held.is_full() {
            if let Err(failed) = hand_on(self.below, &mut self.held) {
                return Err(failed);
            }
        }
        let count = bytes.len().min(self.held.remaining_capacity());
        let _fits = self.held.try_extend_from_slice(&bytes[..count]);
        Ok(count)
    }
}

impl<'k, K: Sink, N: Loan> Gather for Gathered<'k, K, N> {
    ghost use Rattle.std.specs.Prelude.{◌≡◌, [], OnOk};
    ghost use Rattle.mu_model_flash.specs.Cause.{HasCause};
    ghost use Rattle.mu_outside.specs.Stream.{KeepsTold};
    ghost use Rattle.mu_outside.specs.Gathering.{behind, Handed};
    ghost use Rattle.mu_outside.specs.Gathered.{below_of, held_of};

    #[tactic(auto, using(crate::proofs::Handing::kept, crate::proofs::Handing::goes_on))]
    fn flush(&mut self) -> Result<(), Failed>
        ensures same { KeepsTold (behind (K.written (below_of self.old)) (held_of self.old)) (behind (K.written (below_of self.new)) (held_of self.new)) }
        ensures cause { HasCause (K.faults (below_of self.old)) (K.faults (below_of self.new)) result }

        // What is handed on is handed on once, in its order; at Ok that is all.
        ensures handed { Handed (K.written (below_of self.old)) (held_of self.old) (K.written (below_of self.new)) (held_of self.new) }
        ensures empty { OnOk result (held_of self.new ≡ []) }
    {
        hand_on(self.below, &mut self.held)
    }
}
