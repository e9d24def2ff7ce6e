// The first octets of an input, and what is left of it.
ghost use Rattle.std.specs.Prelude.{◌≡◌, ◌+◌, ◌-◌, ◌<◌, ◌≤◌, ◌^◌, ℕ, List, Option, None, length, IfOk, OnErr};
ghost use Rattle.std.specs.Option.{ForSome};
ghost use Rattle.mu_model_flash.specs.Cause.{HasCause};
ghost use Rattle.mu_outside.specs.Stream.{ReadGives, KeepsTold};
ghost use Rattle.mu_outside.specs.Limited.{first_of, KeepsGiving};
ghost use Rattle.mu_updsrv.specs.Opening.{IsRestOf};

use mu_outside::{Failed, Source};
use std::marker::{Brand, PhantomData};

/// What an input told at its start, and how many octets of it may be read. So what is read through the limit is known of the input.
pub(crate) trait Opening {
    ghost start: { Option (List ℕ) };

    ghost most: { ℕ };
}

impl Opening for Brand {
    ghost start = { None };

    ghost most = { 0 };
}

/// An input, and how many octets it has given.
pub(crate) struct Counted<S: Source> {
    pub source: S,
    pub given: u32,
}

impl<S: Source> Counted<S> {
    /// Reads at most so many octets.
    fn read_most(&mut self, room: u32, out: &mut [u8]) -> Result<usize, Failed>
        requires { self.old.given + room < 2 ^ 32 }
        ensures within { IfOk result (λ n. n ≤ length out.old) }
        ensures most { IfOk result (λ n. n ≤ room) }
        ensures gives { IfOk result (λ n. ReadGives (first_of room (S.left self.old.source)) (first_of (room - n) (S.left self.new.source)) out.new n) }
        ensures through { IfOk result (λ n. KeepsGiving (S.left self.old.source) (S.left self.new.source) out.new n) }
        ensures given { IfOk result (λ n. self.new.given ≡ self.old.given + n) }
        ensures same { OnErr result (KeepsTold (S.left self.old.source) (S.left self.new.source)) }
        ensures kept { OnErr result (self.new.given ≡ self.old.given) }
        ensures cause { HasCause (S.faults self.old.source) (S.faults self.new.source) result }
    {
        let most = out.len().min(room as usize);
        if most == 0 {
            return Ok(0);
        }
        let count = match self.source.read(&mut out[..most]) {
            Ok(count) => count,
            Err(failed) => return Err(failed),
        };
        self.given += count as u32;
        Ok(count)
    }
}

/// At most so many octets of an input.
pub(crate) struct FirstOctets<S: Source, N: Opening> {
    counted: Counted<S>,
    most: u32,
    of: PhantomData<N>,
    ghost limit: { most ≡ N.most },
    ghost within: { counted.given ≤ most },
    ghost rest: { ForSome (S.left counted.source) (IsRestOf counted.given N.start) },
}

impl<S: Source, N: Opening> FirstOctets<S, N> {
    ghost use Rattle.std.specs.Prelude.{◌≡◌, ◌≤◌, IfSome};
    ghost use Rattle.mu_updsrv.specs.Opening.{IsRestOf};

    /// Nothing is read yet.
    #[tactic(auto, using(crate::proofs::Openings::nothing_read))]
    pub fn new(source: S, most: u32) -> FirstOctets<S, N>
        requires start { S.left source ≡ N.start }
        requires limit { most ≡ N.most }
        ensures source { result.counted.source ≡ source }
        ensures most { result.most ≡ most }
        ensures given { result.counted.given ≡ 0 }
    {
        FirstOctets {
            counted: Counted { source, given: 0 },
            most,
            of: PhantomData,
        }
    }

    /// Gives the input back.
    pub fn back(self) -> S
        ensures { result ≡ self.counted.source }
    {
        let FirstOctets {
            counted,
            most: _,
            of: _,
        } = self;
        let Counted { source, given: _ } = counted;
        source
    }
}

impl<S: Source, N: Opening> Source for FirstOctets<S, N> {
    ghost use Rattle.std.specs.Prelude.{◌≡◌, ◌-◌, ◌≤◌, length, IfOk, OnErr};
    ghost use Rattle.mu_model_flash.specs.Cause.{HasCause};
    ghost use Rattle.mu_outside.specs.Stream.{ReadGives, KeepsTold};
    ghost use Rattle.mu_outside.specs.Limited.{first_of};

    ghost left = { λ input. first_of (input.most - input.counted.given) (S.left input.counted.source) };

    ghost faults = { λ input. S.faults input.counted.source };

    ghost bounded = { λ input. S.bounded input.counted.source };

    #[tactic(auto, using(crate::proofs::Openings::rest_on, crate::proofs::Openings::rest_kept, crate::proofs::Openings::kept_first))]
    fn read(&mut self, out: &mut [u8]) -> Result<usize, Failed> {
        let room = self.most - self.counted.given;
        self.counted.read_most(room, out)
    }
}
