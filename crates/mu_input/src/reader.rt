// An input line by line.
ghost use Rattle.std.specs.Prelude.{◌≡◌, ◌≢◌, ◌↔◌, ◌+◌, ◌≤◌, ◌<◌, ◌^◌, IsTrue, MatchBool, IsErrOf, IfOk, IfSome, OnOk, OnErr, [], ◌∷◌, ◌++◌, length, take};
ghost use Rattle.mu_model_flash.specs.Cause.{HasCause, Rose};
ghost use Rattle.mu_input.specs.Reading.{IsAtRest, IsPart, to_come, NextOctet, NextLine, TookPart, WhereTold};

use arrayvec::ArrayVec;
use memchr::memchr;
use mu_outside::{Failed, Source};
use std::marker::Model;

/// The most octets of an input.
const MOST_OCTETS: u32 = 16_777_216;

/// The octets that are read at once.
const PIECE: usize = 8192;

/// The most octets of a line.
const MOST_IN_LINE: usize = 4096;

/// Why no further line came.
#[derive(Clone, Copy, Debug, PartialEq, Eq)]
pub enum ReadStop {
    /// The source failed.
    Source,
    /// There are more octets than an input may have.
    TooLong,
    /// The line has more octets than a line may have.
    LongLine,
}

/// What came next of an input.
#[derive(Clone, Copy, Debug, PartialEq, Eq)]
pub enum Next {
    /// A line that LF ends.
    Line,
    /// The last line, which lacks its LF.
    Last,
    /// No line: the input is at its end.
    End,
}

/// Reads an input in pieces, and gives its lines. It holds one line and a piece, and takes no memory.
#[derive(Drop)]
pub struct LineReader {
    piece: [u8; PIECE],
    at: usize,
    end: usize,
    given: u32,
    line: ArrayVec<u8, 4096>,
}

impl Model for LineReader {
    ghost use Rattle.std.specs.Prelude.{◌≡◌, ◌≤◌, ℕ, length, slice_range};
    ghost use Rattle.mu_input.specs.Reading.{Reader};

    ghost Value = { Reader };

    ghost view = { λ r. record { ahead = slice_range r.piece r.at r.end; given = r.given; line = r.line.items } };

    ghost invariant = { λ r. (r.at ≤ r.end) × (r.end ≤ length r.piece) × (r.given ≤ 16777216) };
}

impl LineReader {
    /// A reader that has read nothing yet.
    pub fn new() -> Self
        ensures { result ≡ record { ahead = []; given = 0; line = [] } }
    {
        LineReader {
            piece: [0; PIECE],
            at: 0,
            end: 0,
            given: 0,
            line: ArrayVec::new(),
        }
    }

    /// The line that came last, without its LF.
    pub fn line(&self) -> &[u8]
        ensures { result.now ≡ self.now.line }
    {
        self.line.as_slice()
    }

    /// Reads on where nothing is ahead.
    fn fill<S: Source>(&mut self, source: &mut S) -> Result<(), Failed>
        ensures rest { WhereTold (S.left source.old) (S.left source.new) (λ before after. IsAtRest self.old self.new before after) }
        ensures given { self.new.given ≡ self.old.given }
        ensures line { self.new.line ≡ self.old.line }
        ensures end { OnOk result (WhereTold (S.left source.old) (S.left source.new) (λ before after. self.new.ahead ≡ [] → after ≡ [])) }
        ensures empty { OnErr result (self.new.ahead ≡ []) }
        ensures cause { HasCause (S.faults source.old) (S.faults source.new) result }
    {
        if self.at == self.end {
            self.at = 0;
            self.end = 0;
            self.end = source.read(&mut self.piece)?;
        }
        Ok(())
    }

    /// Whether an octet is ahead.
    fn has_next(&self) -> bool
        ensures { IsTrue result ↔ (0 < length self.now.ahead) }
    {
        self.at < self.end
    }

    /// Whether a whole line is ahead, so that the next one is there without a read.
    pub fn has_line(&self) -> bool {
        memchr(b'\n', self.ahead()).is_some()
    }

    fn ahead(&self) -> &[u8]
        ensures { result.now ≡ self.now.ahead }
    {
        match self.piece.get(self.at..self.end) {
            Some(ahead) => ahead,
            None => &[],
        }
    }

    /// The next of the octets ahead.
    fn take(&mut self) -> u8
        requires ahead { 0 < length self.old.ahead }
        requires within { self.old.given < 16777216 }
        ensures first { self.old.ahead ≡ result ∷ self.new.ahead }
        ensures given { self.new.given ≡ self.old.given + 1 }
        ensures line { self.new.line ≡ self.old.line }
    {
        let octet = self.piece[self.at];
        self.at += 1;
        self.given += 1;
        octet
    }

    /// The next octet, or none at the end of the input.
    fn octet<S: Source>(&mut self, source: &mut S) -> Result<Option<u8>, ReadStop>
        ensures given { IfOk result (λ next. IfSome next (λ _. (self.new.given ≡ self.old.given + 1) × (self.new.given ≤ 16777216))) }
        ensures line { self.new.line ≡ self.old.line }
        ensures next { WhereTold (S.left source.old) (S.left source.new) (λ before after. NextOctet self.old self.new before after result) }
        ensures cause { IsErrOf result ReadStop.Source → Rose (S.faults source.old) (S.faults source.new) }
        ensures later { S.faults source.old ≤ S.faults source.new }
    {
        if self.fill(source).is_err() {
            return Err(ReadStop::Source);
        }
        if !self.has_next() {
            return Ok(None);
        }
        if self.given == MOST_OCTETS {
            return Err(ReadStop::TooLong);
        }
        Ok(Some(self.take()))
    }

    /// Forgets the line.
    fn clear(&mut self)
        ensures cleared { self.new ≡ record self.old { line = [] } }
        ensures within { self.new.given ≤ 16777216 }
    {
        self.line.clear();
    }

    /// How many of the octets ahead go to the line at once: those before the next LF, where the line and the input have room for them.
    fn part_ahead(&self) -> usize
        requires { length self.now.line ≤ 4096 }
        ensures part { IsPart (take result self.now.ahead) }
        ensures within { result ≤ length self.now.ahead }
        ensures short { length self.now.line + result ≤ 4096 }
        ensures given { self.now.given + result ≤ 16777216 }
    {
        let room = (MOST_IN_LINE - self.line.len()).min((MOST_OCTETS - self.given) as usize);
        let ahead = self.ahead();
        let ahead = &ahead[..ahead.len().min(room)];
        match memchr(b'\n', ahead) {
            Some(count) => count,
            None => ahead.len(),
        }
    }

    /// Adds to the line the octets ahead that stand before the next LF, where there is room for them.
    fn take_part(&mut self)
        requires { length self.old.line ≤ 4096 }
        ensures { TookPart self.old self.new }
    {
        for _ in 0..self.part_ahead() {
            let octet = self.take();
            self.push(octet);
        }
    }

    /// Whether the line has as many octets as a line may have.
    fn is_full(&self) -> bool
        ensures { IsTrue result ↔ (length self.now.line ≡ 4096) }
    {
        self.line.len() == MOST_IN_LINE
    }

    /// Adds an octet to the line.
    fn push(&mut self, octet: u8)
        requires { length self.old.line < 4096 }
        ensures { self.new ≡ record self.old { line = self.old.line ++ octet ∷ [] } }
    {
        self.line.push(octet);
    }

    /// What comes at the end of the input.
    fn last(&self) -> Next
        ensures last { self.now.line ≢ [] → result ≡ Next.Last }
        ensures end { self.now.line ≡ [] → result ≡ Next.End }
    {
        if self.line.is_empty() {
            Next::End
        } else {
            Next::Last
        }
    }

    /// Whether the source has another octet.
    pub fn has_more<S: Source>(&mut self, source: &mut S) -> Result<bool, Failed>
        ensures rest { WhereTold (S.left source.old) (S.left source.new) (λ before after. IsAtRest self.old self.new before after) }
        ensures more { IfOk result (λ more. MatchBool more (0 < length self.new.ahead) (WhereTold (S.left source.old) (S.left source.new) (λ before after. to_come self.new after ≡ []))) }
        ensures empty { OnErr result (self.new.ahead ≡ []) }
        ensures cause { HasCause (S.faults source.old) (S.faults source.new) result }
    {
        self.fill(source)?;
        Ok(self.has_next())
    }

    /// Reads the next line.
    pub fn next<S: Source>(&mut self, source: &mut S) -> Result<Next, ReadStop>
        ensures short { length self.new.line ≤ 4096 }
        ensures next { WhereTold (S.left source.old) (S.left source.new) (λ before after. NextLine self.old self.new before after result) }
        ensures cause { IsErrOf result ReadStop.Source → Rose (S.faults source.old) (S.faults source.new) }
        ensures later { S.faults source.old ≤ S.faults source.new }
    {
        self.clear();
        loop {
            self.take_part();
            let octet = match self.octet(source) {
                Ok(Some(octet)) => octet,
                Ok(None) => return Ok(self.last()),
                Err(stop) => return Err(stop),
            };
            if octet == b'\n' {
                return Ok(Next::Line);
            }
            if self.is_full() {
                return Err(ReadStop::LongLine);
            }
            self.push(octet);
        }
    }
}
