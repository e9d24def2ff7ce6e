// An input that ends early.
ghost use Rattle.std.specs.Prelude.{◌≡◌, ◌+◌, ◌≤◌, ◌<◌, ◌^◌, length, IfOk, OnErr};
ghost use Rattle.mu_model_flash.specs.Cause.{HasCause};
ghost use Rattle.mu_outside.specs.Stream.{ReadGives, KeepsTold};
ghost use Rattle.mu_outside.specs.Limited.{first_of, KeepsGiving};

use crate::Source;
use mu_model_flash::Failed;

/// An input that gives at most so many octets of another one, whose calls that fail it counts as its own.
#[derive(Drop)]
pub struct Limited<'a, S: Source> {
    pub source: &'a mut S,
    /// How many octets more it gives.
    pub room: u32,
}

impl<'a, S: Source> Limited<'a, S> {
    /// At most `most` octets of this input.
    pub fn new(source: &'a mut S, most: u32) -> Limited<'a, S>
        ensures source { result.source.now ≡ source.old }
        ensures name { result.source.ghost_name ≡ source.entry.ghost_name }
        ensures room { result.room ≡ most }
    {
        Limited { source, room: most }
    }
}

impl<'a, S: Source> Source for Limited<'a, S> {
    ghost left = { λ input. first_of input.room (S.left input.source.now) };

    ghost faults = { λ input. S.faults input.source.now };

    ghost bounded = { λ input. S.bounded input.source.now };

    fn read(&mut self, out: &mut [u8]) -> Result<usize, Failed>
        ensures within { IfOk result (λ n. n ≤ length out.old) }
        ensures gives { IfOk result (λ n. ReadGives (first_of self.old.room (S.left self.old.source.now)) (first_of self.new.room (S.left self.new.source.now)) out.new n) }
        ensures same { OnErr result (KeepsTold (first_of self.old.room (S.left self.old.source.now)) (first_of self.new.room (S.left self.new.source.now))) }
        ensures cause { HasCause (S.faults self.old.source.now) (S.faults self.new.source.now) result }

        // What it gives the other one gives. It has room for so many less.
        ensures through { IfOk result (λ n. KeepsGiving (S.left self.old.source.now) (S.left self.new.source.now) out.new n) }
        ensures room { IfOk result (λ n. self.new.room + n ≡ self.old.room) }
        ensures kept { OnErr result (self.new.room ≡ self.old.room) }
        ensures name { self.new.source.ghost_name ≡ self.old.source.ghost_name }
    {
        let most = out.len().min(self.room as usize);
        if most == 0 {
            return Ok(0);
        }
        let count = match self.source.read(&mut out[..most]) {
            Ok(count) => count,
            Err(failed) => return Err(failed),
        };
        self.room -= count as u32;
        Ok(count)
    }
}
