// Standard input and standard output as a source and a sink. They tell nothing of the octets.
ghost use Rattle.std.specs.Prelude.{◌≡◌, ◌^◌, ◌<◌};

use mu_outside::{Failed, Sink, Source};
use std::io::{Read, Write};

/// A reader as a source.
#[derive(Drop)]
pub struct StandardInput<R: Read> {
    reader: R,
    /// How many reads have failed, which stays at 2^64 - 1.
    faults: u64,
    ghost counted: { faults < 2 ^ 64 },
}

impl<R: Read> StandardInput<R> {
    /// No read has failed.
    pub fn new(reader: R) -> StandardInput<R>
        ensures { result.faults ≡ 0 }
    {
        StandardInput { reader, faults: 0 }
    }
}

impl<R: Read> Source for StandardInput<R> {
    ghost use Rattle.std.specs.Prelude.{None};

    ghost left = { λ input. None };

    ghost faults = { λ input. input.faults };

    ghost bounded = { λ input. input.counted };

    fn read(&mut self, out: &mut [u8]) -> Result<usize, Failed> {
        match self.reader.read(out) {
            Ok(n) => Ok(n),
            Err(_) => {
                self.faults = self.faults.saturating_add(1);
                Err(Failed)
            }
        }
    }
}

/// A writer as a sink. One that takes nothing of a piece has failed.
#[derive(Drop)]
pub struct StandardOutput<W: Write> {
    writer: W,
    /// How many writes have failed, which stays at 2^64 - 1.
    faults: u64,
    ghost counted: { faults < 2 ^ 64 },
}

impl<W: Write> StandardOutput<W> {
    /// No write has failed.
    pub fn new(writer: W) -> StandardOutput<W>
        ensures { result.faults ≡ 0 }
    {
        StandardOutput { writer, faults: 0 }
    }
}

impl<W: Write> Sink for StandardOutput<W> {
    ghost use Rattle.std.specs.Prelude.{None};

    ghost written = { λ output. None };

    ghost faults = { λ output. output.faults };

    ghost bounded = { λ output. output.counted };

    fn write(&mut self, bytes: &[u8]) -> Result<usize, Failed> {
        match self.writer.write(bytes) {
            Ok(n) if n > 0 || bytes.is_empty() => Ok(n),
            _ => {
                self.faults = self.faults.saturating_add(1);
                Err(Failed)
            }
        }
    }
}
