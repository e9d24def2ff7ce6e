// How a client comes from one step to the next, and through the rounds of a step. What is to be sent is its list then.
ghost use Rattle.std.specs.Prelude.{◌≡◌, ℕ, ◌+◌, ◌≤◌, nat_le, true, false, [], Some, None};
ghost use Rattle.mu_model_client.specs.Client.{Chunks, At, Pull, round_time};
ghost use Rattle.mu_model_client.specs.Lists.{chunk_items, wanted_of};
ghost use Rattle.mu_model_client.specs.Going.{Go, going, by_step, is_done, is_empty, list_is_sent, by_wanted, by_round, round_ends, after_counting, new_round, next_step, begins_if, goes_on, in_step, first_of, sends, after};
ghost use Rattle.mu_receivers.specs.Receivers.{receivers_of};
ghost use Rattle.mu_receivers.specs.Slots.{Each, KeepsWas};
ghost use Rattle.mu_told.specs.Told.{StepFits};
ghost use Rattle.mu_rounds.specs.After.{next_of, is_chunk_step};
ghost use Rattle.mu_rounds.specs.Rounds.{client_of, HasShape, GoesOn, KeepsLeft, IsFree, rests};

use crate::after::{Next, after, part_of};
use crate::left::all_chunks;
use crate::rounds::Rounds;
use mu_model_client::{Place, Step};
use mu_receivers::{
    ask_missing, ask_wanted, begin, count, is_any_begun_for, is_any_listed, is_any_pending, renew,
    unwant,
};

fn is_chunk_step(step: Step) -> bool
    ensures { result ≡ is_chunk_step step }
{
    match step {
        Step::Chunks(_) => true,
        _ => false,
    }
}

impl Rounds {
    // Begins a step whose list has messages, or none.
    fn begin_messages(&mut self, step: Step)
        requires shape { HasShape self.old }
        requires fits { StepFits self.old.sending step }
        requires messages { (b : ℕ) → step ≡ Chunks b → ⊥ }
        ensures goes { GoesOn self.old self.new (sends (in_step (client_of self.old) step) (first_of (client_of self.old) step)) }
        ensures left { KeepsLeft self.old self.new }
    {
        begin(&mut self.slots, step);
        self.left = None;
        self.place = Place::At(step);
        self.began = self.moment;
    }

    // Begins the chunks of a block in push.
    fn begin_chunks(&mut self, b: u16)
        requires shape { HasShape self.old }
        requires fits { StepFits self.old.sending (Chunks b) }
        requires free { self.old.left ≡ None }
        ensures goes { GoesOn self.old self.new (sends (in_step (client_of self.old) (Chunks b)) (first_of (client_of self.old) (Chunks b))) }
        ensures left { KeepsLeft self.old self.new }
    {
        begin(&mut self.slots, Step::Chunks(b));
        ask_missing(&mut self.slots);
        self.left = all_chunks(&self.sending, &self.slots, b);
        self.place = Place::At(Step::Chunks(b));
        self.began = self.moment;
    }

    fn begin_step(&mut self, step: Step)
        requires shape { HasShape self.old }
        requires fits { StepFits self.old.sending step }
        requires free { IsFree self.old (Go step) }
        ensures goes { GoesOn self.old self.new (sends (in_step (client_of self.old) step) (first_of (client_of self.old) step)) }
        ensures left { KeepsLeft self.old self.new }
    {
        match step {
            Step::Chunks(b) => self.begin_chunks(b),
            _ => self.begin_messages(step),
        }
    }

    // Goes to a place where nothing is to be sent.
    fn rest_at(&mut self, place: Place)
        requires shape { HasShape self.old }
        requires rests { rests place ≡ true }
        ensures goes { GoesOn self.old self.new (record { next = record (client_of self.old) { place = place; queue = [] }; items = [] }) }
        ensures left { KeepsLeft self.old self.new }
    {
        self.place = place;
        self.left = None;
    }

    // Begins a step, if there is a receiver for it.
    fn begin_if_any(&mut self, step: Step)
        requires shape { HasShape self.old }
        requires fits { StepFits self.old.sending step }
        requires free { IsFree self.old (Go step) }
        ensures goes { GoesOn self.old self.new (goes_on (client_of self.old) (Go step)) }
        ensures left { KeepsLeft self.old self.new }
    {
        if is_any_begun_for(&self.slots, step) {
            self.begin_step(step);
        } else {
            self.rest_at(Place::Ended(part_of(step)));
        }
    }

    // What comes after a step.
    fn next_step(&mut self, step: Step)
        requires shape { HasShape self.old }
        requires fits { StepFits self.old.sending step }
        requires free { IsFree self.old (after self.old.sending self.old.purpose (receivers_of self.old.slots.items) step) }
        ensures goes { GoesOn self.old self.new (next_step (client_of self.old) step) }
        ensures left { KeepsLeft self.old self.new }
    {
        match after(&self.sending, &self.purpose, &self.slots, step) {
            Next::Go(next) => self.begin_if_any(next),
            Next::Rests => self.rest_at(Place::Verified),
            Next::Ends(part) => self.rest_at(Place::Ended(part)),
        }
    }

    // A new round of a step.
    fn new_round(&mut self, step: Step)
        requires shape { HasShape self.old }
        requires at { self.old.place ≡ At step }
        requires sent { self.old.left ≡ None }
        ensures goes { GoesOn self.old self.new (new_round (client_of self.old) step) }
        ensures left { KeepsLeft self.old self.new }
    {
        renew(&mut self.slots, step);
        self.began = self.moment;
    }

    // The end of a round, once it is counted.
    fn round_ends(&mut self, step: Step)
        requires shape { HasShape self.old }
        requires at { self.old.place ≡ At step }
        requires sent { self.old.left ≡ None }
        ensures goes { GoesOn self.old self.new (round_ends (client_of self.old) step) }
        ensures left { KeepsLeft self.old self.new }
    {
        if is_any_pending(&self.slots) {
            self.new_round(step);
        } else {
            self.next_step(step);
        }
    }

    // Whether the round is over. The sum of its beginning and its time may pass 2^64, the difference doesn't.
    fn is_over(&self) -> bool
        requires { HasShape self.now }
        ensures { result ≡ nat_le (self.now.began + round_time self.now.sending) self.now.moment }
    {
        self.moment - self.began
            >= 2000 * (self.sending.base as u64 + 2) + 20 * self.sending.ttl as u64
    }

    // Counts the round, if it is over.
    fn by_round(&mut self, step: Step)
        requires shape { HasShape self.old }
        requires at { self.old.place ≡ At step }
        requires sent { self.old.left ≡ None }
        requires nothing { (client_of self.old).queue ≡ [] }
        ensures goes { GoesOn self.old self.new (by_round (client_of self.old) step) }
        ensures left { KeepsLeft self.old self.new }
    {
        if self.is_over() {
            count(&mut self.slots, step);
            self.round_ends(step);
        }
    }

    // In pull the wanted chunks become the list.
    fn by_wanted(&mut self, b: u16)
        requires shape { HasShape self.old }
        requires at { self.old.place ≡ At (Pull b) }
        requires sent { self.old.left ≡ None }
        requires nothing { (client_of self.old).queue ≡ [] }
        ensures goes { GoesOn self.old self.new (list_is_sent (client_of self.old) (Pull b)) }
        ensures left { KeepsLeft self.old self.new }
    {
        ask_wanted(&mut self.slots);
        match all_chunks(&self.sending, &self.slots, b) {
            Some(left) => {
                unwant(&mut self.slots);
                self.left = Some(left);
            }
            None => self.by_round(Step::Pull(b)),
        }
    }

    fn list_is_sent(&mut self, step: Step)
        requires shape { HasShape self.old }
        requires at { self.old.place ≡ At step }
        requires sent { self.old.left ≡ None }
        requires nothing { (client_of self.old).queue ≡ [] }
        ensures goes { GoesOn self.old self.new (list_is_sent (client_of self.old) step) }
        ensures left { KeepsLeft self.old self.new }
    {
        match step {
            Step::Pull(b) => self.by_wanted(b),
            _ => self.by_round(step),
        }
    }

    // Nobody is pending; chunks in push are over once all are sent.
    fn is_done(&self, step: Step) -> bool
        requires shape { HasShape self.now }
        requires at { self.now.place ≡ At step }
        ensures { result ≡ is_done (client_of self.now) step }
    {
        if is_chunk_step(step) {
            self.left.is_none()
        } else {
            !is_any_pending(&self.slots)
        }
    }

    // Whether the list of a step that isn't done is sent.
    fn is_sent(&self, step: Step) -> bool
        requires shape { HasShape self.now }
        requires at { self.now.place ≡ At step }
        requires undone { is_done (client_of self.now) step ≡ false }
        ensures sent { result ≡ is_empty (client_of self.now).queue }
        ensures left { result ≡ true → self.now.left ≡ None }
    {
        self.left.is_none() && !is_any_listed(&self.slots)
    }

    fn at_step(&mut self, step: Step)
        requires shape { HasShape self.old }
        requires at { self.old.place ≡ At step }
        ensures goes { GoesOn self.old self.new (by_step (client_of self.old) step (is_done (client_of self.old) step)) }
        ensures left { KeepsLeft self.old self.new }
    {
        if self.is_done(step) {
            self.next_step(step);
        } else if self.is_sent(step) {
            self.list_is_sent(step);
        }
    }

    /// A time event at this moment, in milliseconds, but for what it sends: the first 16 of the list that is left then.
    pub fn go_on(&mut self, now: u64)
        requires { HasShape self.old }
        ensures goes { GoesOn self.old self.new (going (client_of self.old) now) }
        ensures left { KeepsLeft self.old self.new }
    {
        self.moment = self.moment.max(now);
        match self.place {
            Place::Before(step) => self.begin_if_any(step),
            Place::At(step) => self.at_step(step),
            Place::Verified | Place::Ended(_) => {}
        }
    }
}
