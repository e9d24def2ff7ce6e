// A flash in memory of which named calls fail.
ghost use Rattle.std.specs.Prelude.{◌≡◌, ℕ, ◌+◌, ◌-◌, ◌*◌, ◌%◌, ◌^◌, ◌<◌, ◌≤◌, ◌↔◌, [], ◌∷◌, min, true, false, None, length, slice_range, IfOk, IsOk, IsErr, OnOk, IsTrue, Contains, MatchOption, Result};
ghost use Rattle.mu_model_flash.specs.Bits.{blank, written};
ghost use Rattle.mu_model_flash.specs.Cause.{HasCause};
ghost use Rattle.mu_model_flash.specs.Flash.{Unchanged, LeftByPattern};
ghost use Rattle.mu_model_flash.specs.Patterns.{IsLeftBy};
ghost use Rattle.mu_model_flash.specs.Run.{exact, Runs};
ghost use Rattle.mu_outside.specs.Memory.{memory_is_sound, never_off, Holds, pattern_named};

use crate::Flash;
use crate::calls::is_named;
use crate::cells::Cells;
use crate::memory::{PAGE, blank_page};
use mu_model_flash::{Failed, Pattern};
use std::alloc::{AllocError, Global};

/// A flash in memory of which named calls fail. It tells its octets, and never has an armed operation or its power off.
/// Programs and erases are numbered together from 1, reads by themselves. A named program or erase leaves its range by its pattern.
#[derive(Drop)]
pub struct FaultyFlash {
    cells: Cells,
    writes: Vec<(u32, Pattern)>,
    reads: Vec<u32>,
    write_calls: u64,
    read_calls: u64,
}

impl FaultyFlash {
    ghost use Rattle.mu_outside.specs.FaultyFlash.{faulty_seen, named_writes, named_reads, write_calls_of, read_calls_of};

    /// A flash of these octets, which are whole pages, at most 1,048,576. Where `writes` names a number more than once, its first entry counts.
    pub fn new(
        alloc: Global,
        octets: &[u8],
        writes: &[(u32, Pattern)],
        reads: &[u32],
    ) -> Result<Self, AllocError>
        requires whole { length octets.now % 4096 ≡ 0 }
        requires few { length octets.now ≤ 4096 * 2 ^ 20 }
        ensures seen { IfOk result (λ flash. Holds octets.now (faulty_seen flash)) }
        ensures writes { IfOk result (λ flash. named_writes flash ≡ writes.now) }
        ensures reads { IfOk result (λ flash. named_reads flash ≡ reads.now) }
        ensures calls { IfOk result (λ flash. (write_calls_of flash ≡ 0) × (read_calls_of flash ≡ 0)) }
    {
        Ok(FaultyFlash {
            cells: Cells::holding(alloc, octets)?,
            writes: Vec::from_slice(alloc, writes)?,
            reads: Vec::from_slice(alloc, reads)?,
            write_calls: 0,
            read_calls: 0,
        })
    }

    /// The octets that it holds.
    pub fn octets(&self) -> &[u8]
        ensures { result.now ≡ (faulty_seen self.now).octets }
    {
        &self.cells.octets
    }

    fn operate(&mut self, at: usize, bytes: &[u8]) -> Result<(), Failed>
        requires { at + length bytes.now ≤ 4096 * (faulty_seen self.old).pages }
        ensures runs { Runs exact (faulty_seen self.old).octets (written (faulty_seen self.old).octets at bytes.now ∷ []) (faulty_seen self.old) (faulty_seen self.new) result }
        ensures by_name { MatchOption (pattern_named (named_writes self.old) (write_calls_of self.new))
            (IsOk result)
            (λ pattern. IsErr result × IsLeftBy pattern (faulty_seen self.old).octets at bytes.now (faulty_seen self.new).octets) }
        ensures begun { (faulty_seen self.new).clock ≡ min ((faulty_seen self.old).clock + 1) (2 ^ 64 - 1) }
        ensures calls { (write_calls_of self.new ≡ min (write_calls_of self.old + 1) (2 ^ 64 - 1)) × (read_calls_of self.new ≡ read_calls_of self.old) }
        ensures keeps { (named_writes self.new ≡ named_writes self.old) × (named_reads self.new ≡ named_reads self.old) }
    {
        self.write_calls = self.write_calls.saturating_add(1);
        match pattern_of(&self.writes, self.write_calls) {
            None => {
                self.cells.write(at, bytes);
                Ok(())
            }
            Some(pattern) => Err(self.cells.leave(at, bytes, pattern)),
        }
    }
}

// The pattern of the first entry with this number.
fn pattern_of(writes: &[(u32, Pattern)], number: u64) -> Option<Pattern>
    ensures { result ≡ pattern_named writes.now number }
{
    for (named, pattern) in writes {
        if u64::from(*named) == number {
            return Some(*pattern);
        }
    }
    None
}

impl Flash for FaultyFlash {
    ghost use Rattle.mu_outside.specs.FaultyFlash.{faulty_seen, named_writes, named_reads, write_calls_of, read_calls_of};

    ghost seen = { faulty_seen };

    ghost sound = { λ flash. memory_is_sound flash.cells None false false tt (never_off None) };

    fn pages(&self) -> u32 {
        self.cells.pages
    }

    fn read(&mut self, at: u32, out: &mut [u8]) -> Result<(), Failed>
        requires { at + length out.old ≤ 4096 * (faulty_seen self.old).pages }
        ensures gives { OnOk result (IsTrue (faulty_seen self.old).told → out.new ≡ slice_range (faulty_seen self.old).octets at (at + length out.old)) }
        ensures same { Unchanged (faulty_seen self.old) (faulty_seen self.new) }
        ensures runs { Runs exact (faulty_seen self.old).octets [] (faulty_seen self.old) (faulty_seen self.new) result }
        ensures cause { HasCause (faulty_seen self.old).faults (faulty_seen self.new).faults result }

        // It fails at the named reads alone.
        ensures by_name { IsErr result ↔ Contains (named_reads self.old) (read_calls_of self.new) }
        ensures calls { (read_calls_of self.new ≡ min (read_calls_of self.old + 1) (2 ^ 64 - 1)) × (write_calls_of self.new ≡ write_calls_of self.old) }
        ensures keeps { (named_writes self.new ≡ named_writes self.old) × (named_reads self.new ≡ named_reads self.old) }
    {
        self.read_calls = self.read_calls.saturating_add(1);
        if is_named(&self.reads, self.read_calls) {
            return Err(self.cells.fail());
        }
        self.cells.read(at, out);
        Ok(())
    }

    fn program(&mut self, at: u32, bytes: &[u8]) -> Result<(), Failed>
        requires some { 0 < length bytes.now }
        requires few { length bytes.now ≤ 4096 }
        requires within { at + length bytes.now ≤ 4096 * (faulty_seen self.old).pages }
        requires is_blank { IsTrue (faulty_seen self.old).told → slice_range (faulty_seen self.old).octets at (at + length bytes.now) ≡ blank (length bytes.now) }
        ensures runs { Runs exact (faulty_seen self.old).octets (written (faulty_seen self.old).octets at bytes.now ∷ []) (faulty_seen self.old) (faulty_seen self.new) result }
        ensures torn { LeftByPattern (faulty_seen self.old) (faulty_seen self.new) at bytes.now }
        ensures cause { HasCause (faulty_seen self.old).faults (faulty_seen self.new).faults result }

        // It fails at the named operations alone, which leave the range by their pattern, and begins the operation in either case.
        ensures by_name { MatchOption (pattern_named (named_writes self.old) (write_calls_of self.new))
            (IsOk result)
            (λ pattern. IsErr result × IsLeftBy pattern (faulty_seen self.old).octets at bytes.now (faulty_seen self.new).octets) }
        ensures begun { (faulty_seen self.new).clock ≡ min ((faulty_seen self.old).clock + 1) (2 ^ 64 - 1) }
        ensures calls { (write_calls_of self.new ≡ min (write_calls_of self.old + 1) (2 ^ 64 - 1)) × (read_calls_of self.new ≡ read_calls_of self.old) }
        ensures keeps { (named_writes self.new ≡ named_writes self.old) × (named_reads self.new ≡ named_reads self.old) }
    {
        self.operate(at as usize, bytes)
    }

    fn erase(&mut self, page: u32) -> Result<(), Failed>
        requires { page < (faulty_seen self.old).pages }
        ensures runs { Runs exact (faulty_seen self.old).octets (written (faulty_seen self.old).octets (4096 * page) (blank 4096) ∷ []) (faulty_seen self.old) (faulty_seen self.new) result }
        ensures torn { LeftByPattern (faulty_seen self.old) (faulty_seen self.new) (4096 * page) (blank 4096) }
        ensures cause { HasCause (faulty_seen self.old).faults (faulty_seen self.new).faults result }

        // As for a program.
        ensures by_name { MatchOption (pattern_named (named_writes self.old) (write_calls_of self.new))
            (IsOk result)
            (λ pattern. IsErr result × IsLeftBy pattern (faulty_seen self.old).octets (4096 * page) (blank 4096) (faulty_seen self.new).octets) }
        ensures begun { (faulty_seen self.new).clock ≡ min ((faulty_seen self.old).clock + 1) (2 ^ 64 - 1) }
        ensures calls { (write_calls_of self.new ≡ min (write_calls_of self.old + 1) (2 ^ 64 - 1)) × (read_calls_of self.new ≡ read_calls_of self.old) }
        ensures keeps { (named_writes self.new ≡ named_writes self.old) × (named_reads self.new ≡ named_reads self.old) }
    {
        self.operate(PAGE * page as usize, &blank_page())
    }
}
