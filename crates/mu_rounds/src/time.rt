// A time event: the client goes on, and the first of its list are sent. A failed read of the image takes all of it back.
ghost use Rattle.std.specs.Prelude.{◌≡◌, ℕ, [], List, None, Some, IsTrue, IfSome, OnOk, OnErr, map, take};
ghost use Rattle.mu_model_flash.specs.Cause.{HasCause};
ghost use Rattle.mu_model_client.specs.Client.{At};
ghost use Rattle.mu_model_client.specs.Lists.{sent_for};
ghost use Rattle.mu_model_client.specs.Going.{going, most_packets};
ghost use Rattle.mu_model_client.specs.Due.{due};
ghost use Rattle.mu_receivers.specs.Image.{Image, IsSame};
ghost use Rattle.mu_rounds.specs.Rounds.{client_of, HasShape};
ghost use Rattle.mu_rounds.specs.Sents.{sents_of, HaveOctets};
ghost use Rattle.mu_rounds.specs.Time.{HasSize, left_after, SendsOn, Keeps, StoodSo, GoesBack, IsBack};

use crate::left::Left;
use crate::reads::read_spots;
use crate::rounds::Rounds;
use crate::said::Sent;
use crate::sending::send_messages;
use arrayvec::ArrayVec;
use mu_model_client::{Place, Step};
use mu_model_flash::Failed;
use mu_receivers::{Cursor, ImageBytes, MOST_PACKETS, keep, spots_from, take_back};

/// Where a client stood before a time event.
#[derive(Clone, Copy, Debug, PartialEq, Eq)]
pub(crate) struct Stood {
    place: Place,
    left: Option<Left>,
    began: u64,
    moment: u64,
}

fn left_after(left: Left, next: Option<Cursor>) -> Option<Left>
    ensures { result ≡ left_after left next }
{
    match next {
        Some(at) => Some(Left {
            block: left.block,
            chunks: left.chunks,
            at,
        }),
        None => None,
    }
}

impl Rounds {
    fn stood(&self) -> Stood
        ensures { StoodSo self.now result }
    {
        Stood {
            place: self.place,
            left: self.left,
            began: self.began,
            moment: self.moment,
        }
    }

    // Keeps how each receiver is.
    fn keep(&mut self)
        requires { HasShape self.old }
        ensures { Keeps self.old self.new }
    {
        keep(&mut self.slots);
    }

    // Takes a time event back.
    fn go_back(&mut self, stood: Stood)
        ensures { GoesBack self.old stood self.new }
    {
        take_back(&mut self.slots);
        self.place = stood.place;
        self.left = stood.left;
        self.began = stood.began;
        self.moment = stood.moment;
    }

    // Sends the first messages of the step's list.
    fn send_of_step(&mut self, step: Step, out: &mut ArrayVec<Sent, MOST_PACKETS>)
        requires shape { HasShape self.old }
        requires at { self.old.place ≡ At step }
        requires none { self.old.left ≡ None }
        requires empty { out.old.items ≡ [] }
        ensures octets { HaveOctets out.new.items }
        ensures sends { SendsOn self.old self.new }
        ensures packets { (image : List ℕ) → sents_of self.old.sending self.old.purpose out.new.items ≡ map (sent_for self.old.sending image) (take most_packets (client_of self.old).queue) }
    {
        send_messages(&mut self.slots, step, out);
    }

    // Sends the first messages of the list.
    fn send_messages_left(&mut self, out: &mut ArrayVec<Sent, MOST_PACKETS>)
        requires shape { HasShape self.old }
        requires none { self.old.left ≡ None }
        requires empty { out.old.items ≡ [] }
        ensures octets { HaveOctets out.new.items }
        ensures sends { SendsOn self.old self.new }
        ensures packets { (image : List ℕ) → sents_of self.old.sending self.old.purpose out.new.items ≡ map (sent_for self.old.sending image) (take most_packets (client_of self.old).queue) }
    {
        if let Place::At(step) = self.place {
            self.send_of_step(step, out);
        }
    }

    // Sends the first chunks of the list, all of which are read before anything is written.
    fn send_chunks<I: ImageBytes>(
        &mut self,
        image: &mut I,
        left: Left,
        out: &mut ArrayVec<Sent, MOST_PACKETS>,
    ) -> Result<(), Failed>
        requires shape { HasShape self.old }
        requires left { self.old.left ≡ Some left }
        requires size { HasSize self.old.sending (I.image image.old) }
        requires empty { out.old.items ≡ [] }
        ensures sends { OnOk result (SendsOn self.old self.new) }
        ensures packets { OnOk result (IfSome (I.image image.old).octets (λ octets. sents_of self.old.sending self.old.purpose out.new.items ≡ map (sent_for self.old.sending octets) (take most_packets (client_of self.old).queue))) }
        ensures octets { HaveOctets out.new.items }
        ensures before { OnErr result (self.new ≡ self.old) }
        ensures nothing { OnErr result (out.new.items ≡ []) }
        ensures same { IsSame (I.image image.old) (I.image image.new) }
        ensures fails { OnErr result (IsTrue (I.image image.old).can_fail) }
        ensures cause { HasCause (I.image image.old).faults (I.image image.new).faults result }
        ensures stays { I.stays image.old image.new }
    {
        let found = spots_from(
            &self.slots,
            self.sending.group,
            left.block,
            left.chunks,
            left.at,
        );
        *out = read_spots(image, self, left.block, &found.spots)?;
        self.left = left_after(left, found.next);
        Ok(())
    }

    // Sends the first of the list.
    fn send<I: ImageBytes>(
        &mut self,
        image: &mut I,
        out: &mut ArrayVec<Sent, MOST_PACKETS>,
    ) -> Result<(), Failed>
        requires shape { HasShape self.old }
        requires size { HasSize self.old.sending (I.image image.old) }
        requires empty { out.old.items ≡ [] }
        ensures sends { OnOk result (SendsOn self.old self.new) }
        ensures packets { OnOk result (IfSome (I.image image.old).octets (λ octets. sents_of self.old.sending self.old.purpose out.new.items ≡ map (sent_for self.old.sending octets) (take most_packets (client_of self.old).queue))) }
        ensures octets { HaveOctets out.new.items }
        ensures before { OnErr result (self.new ≡ self.old) }
        ensures nothing { OnErr result (out.new.items ≡ []) }
        ensures same { IsSame (I.image image.old) (I.image image.new) }
        ensures fails { OnErr result (IsTrue (I.image image.old).can_fail) }
        ensures cause { HasCause (I.image image.old).faults (I.image image.new).faults result }
        ensures stays { I.stays image.old image.new }
    {
        match self.left {
            Some(left) => self.send_chunks(image, left, out),
            None => {
                self.send_messages_left(out);
                Ok(())
            }
        }
    }

    /// A time event at this moment, in milliseconds: at most 16 packets are sent. Where a read of the image fails, the client is
    /// as before and nothing is sent.
    pub fn on_time<I: ImageBytes>(
        &mut self,
        image: &mut I,
        now: u64,
        out: &mut ArrayVec<Sent, MOST_PACKETS>,
    ) -> Result<(), Failed>
        requires shape { HasShape self.old }
        requires size { HasSize self.old.sending (I.image image.old) }
        requires empty { out.old.items ≡ [] }
        ensures next { OnOk result (client_of self.new ≡ (going (client_of self.old) now).next) }
        ensures packets { OnOk result (IfSome (I.image image.old).octets (λ octets. sents_of self.old.sending self.old.purpose out.new.items ≡ (due (client_of self.old) octets now).packets)) }
        ensures octets { HaveOctets out.new.items }
        ensures before { OnErr result (client_of self.new ≡ client_of self.old) }
        ensures sending { self.new.sending ≡ self.old.sending }
        ensures purpose { self.new.purpose ≡ self.old.purpose }
        ensures nothing { OnErr result (out.new.items ≡ []) }
        ensures shape { HasShape self.new }
        ensures same { IsSame (I.image image.old) (I.image image.new) }
        ensures fails { OnErr result (IsTrue (I.image image.old).can_fail) }
        ensures cause { HasCause (I.image image.old).faults (I.image image.new).faults result }
        ensures stays { I.stays image.old image.new }
    {
        let stood = self.stood();
        self.keep();
        self.go_on(now);
        match self.send(image, out) {
            Ok(()) => Ok(()),
            Err(failed) => {
                self.go_back(stood);
                Err(failed)
            }
        }
    }
}
