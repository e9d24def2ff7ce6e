// Doing an input line by line.
ghost use Rattle.std.specs.Prelude.{◌≡◌, ◌≢◌, ◌≤◌, ◌<◌, ◌+◌, ◌⊎◌, ℕ, List, length, codes, OnOk, IfErr};
ghost use Rattle.mu_model_flash.specs.Cause.{HasCause, Rose};
ghost use Rattle.mu_model_script.specs.Texts.{refused_text};
ghost use Rattle.mu_outside.specs.Stream.{KeepsTold};
ghost use Rattle.mu_top.specs.Ends.{Ends, EndsInPart, Told};
ghost use Rattle.mu_top.specs.LineDone.{DidLine, StopsLine, EndsAt};

use mu_command_line::{Status, write_refusal};
use mu_input::{LineReader, Next, ReadStop};
use mu_outside::{Failed, Gather, Gathered, Lent, Loan, Sink, Source};
use std::marker::Brand;

/// Why a line wasn't done.
#[derive(Clone, Copy)]
pub(crate) enum LineStop {
    /// Want of memory.
    Memory,
    /// The flash of a node is worn out.
    Worn,
    /// The sink failed.
    Sink,
    /// The line is refused at a place, with a word for why.
    Refused { place: u16, word: &'static [u8] },
}

/// What a command does with each line of its input.
pub(crate) trait LineWork {
    /// A line is done with this text, and leads to the next state.
    ghost does: { Self → List ℕ → List ℕ → Self → Type 0 };

    /// A line is refused at a place, with a word for why.
    ghost bars: { Self → List ℕ → ℕ → List ℕ → Type 0 };

    /// A line would wear out a flash.
    ghost wears: { Self → List ℕ → Type 0 };

    /// Memory is taken on the way.
    ghost grows: { Self → Type 0 };

    /// The most lines of an input.
    ghost most: { ℕ };

    /// It has done so many lines, and may do the next.
    ghost goes_on: { Self → ℕ → Type 0 };

    /// A line that is too long is refused at its limit, whatever it holds.
    ghost too_long: { (state : Self) (line : List ℕ) → 4096 < length line → bars state line 4096 (codes "long") };

    /// Does one line and writes what it prints. Nothing is written of a refused line.
    fn do_line<K: Sink>(&mut self, line: &[u8], sink: &mut K) -> Result<(), LineStop>
        requires short { length line.now ≤ 4096 }
        requires goes_on { (count : ℕ) × (count < most) × goes_on self.old count }
        ensures goes_on { OnOk result ((count : ℕ) → goes_on self.old count → goes_on self.new (count + 1)) }
        ensures did { OnOk result (DidLine does self.old line.now self.new (K.written sink.old) (K.written sink.new)) }
        ensures stops { IfErr result (StopsLine does bars wears self.old line.now (K.written sink.old) (K.written sink.new)) }
        ensures grows { IfErr result (λ stop. stop ≡ LineStop.Memory → grows self.old) }
        ensures failed { IfErr result (λ stop. stop ≡ LineStop.Sink → Rose (K.faults sink.old) (K.faults sink.new)) }
        ensures later { K.faults sink.old ≤ K.faults sink.new };
}

/// Prints the line of a refusal.
fn refuse<K: Sink>(sink: &mut K, number: u32, place: u16, word: &[u8]) -> Status
    ensures told { Told (K.written sink.old) (K.written sink.new) (refused_text number place word.now) result }
    ensures sink { result ≡ Status.SinkFault → Rose (K.faults sink.old) (K.faults sink.new) }
    ensures later { K.faults sink.old ≤ K.faults sink.new }
    ensures is { (result ≡ Status.Refused) ⊎ (result ≡ Status.SinkFault) }
{
    match write_refusal(sink, number, u32::from(place), word) {
        Ok(()) => Status::Refused,
        Err(_) => Status::SinkFault,
    }
}

/// How the command ends at a line that wasn't done.
fn end_at<K: Sink>(stop: LineStop, sink: &mut K, number: u32) -> Status
    ensures told { EndsAt (K.written sink.old) (K.written sink.new) number stop result }
    ensures sink { result ≡ Status.SinkFault → (stop ≡ LineStop.Sink) ⊎ Rose (K.faults sink.old) (K.faults sink.new) }
    ensures memory { result ≡ Status.NoMemory → stop ≡ LineStop.Memory }
    ensures later { K.faults sink.old ≤ K.faults sink.new }
    ensures command { result ≢ Status.Usage }
    ensures source { result ≢ Status.SourceFault }
{
    match stop {
        LineStop::Memory => Status::NoMemory,
        LineStop::Worn => Status::Worn,
        LineStop::Sink => Status::SinkFault,
        LineStop::Refused { place, word } => refuse(sink, number, place, word),
    }
}

/// Hands on what was printed where the source has to be read for the next line.
fn hand_on<K: Gather>(reader: &LineReader, sink: &mut K) -> Result<(), Failed>
    ensures same { KeepsTold (K.written sink.old) (K.written sink.new) }
    ensures cause { HasCause (K.faults sink.old) (K.faults sink.new) result }
{
    if reader.has_line() {
        return Ok(());
    }
    sink.flush()
}

/// Does all lines of an input, each before the next is read.
fn run_lines<W: LineWork, S: Source, K: Gather>(
    work: &mut W,
    most_lines: u32,
    source: &mut S,
    sink: &mut K,
) -> Status
    requires most { most_lines ≡ W.most }
    requires begins { W.goes_on work.old 0 }
    ensures ends { Ends W.does W.bars W.wears work.old most_lines (S.left source.old) (S.left source.new) (K.written sink.old) (K.written sink.new) result }
    ensures part { result ≡ Status.SourceFault → EndsInPart W.does work.old most_lines (S.left source.old) (S.left source.new) (K.written sink.old) (K.written sink.new) }
    ensures source { result ≡ Status.SourceFault → Rose (S.faults source.old) (S.faults source.new) }
    ensures sink { result ≡ Status.SinkFault → Rose (K.faults sink.old) (K.faults sink.new) }
    ensures later { K.faults sink.old ≤ K.faults sink.new }
    ensures memory { result ≡ Status.NoMemory → (state : W) × W.grows state }
    ensures command { result ≢ Status.Usage }
{
    let mut reader = LineReader::new();
    let mut count = 0;
    'lines: loop {
        if hand_on(&reader, sink).is_err() {
            return Status::SinkFault;
        }
        if count == most_lines {
            match reader.has_more(source) {
                Ok(true) => return Status::TooLong,
                Ok(false) => return Status::Done,
                Err(_) => return Status::SourceFault,
            }
        }
        let next = match reader.next(source) {
            Ok(next) => next,
            Err(ReadStop::Source) => return Status::SourceFault,
            Err(ReadStop::TooLong) => return Status::TooLong,
            Err(ReadStop::LongLine) => return refuse(sink, count + 1, 4096, b"long"),
        };
        if let Next::End = next {
            return Status::Done;
        }
        count += 1;
        match work.do_line(reader.line(), sink) {
            Ok(()) => {}
            Err(stop) => return end_at(stop, sink, count),
        }
        if let Next::Last = next {
            return Status::Done;
        }
    }
}

/// The same over an output that is lent. What was printed is handed on before it ends, but for an output that has failed.
fn run_gathered<'k, W: LineWork, S: Source, K: Sink, N: Loan>(
    work: &mut W,
    most_lines: u32,
    source: &mut S,
    lent: Lent<'k, K>,
) -> (Lent<'k, K>, Status)
    requires name { lent.output.ghost_name ≡ N.name }
    requires start { K.written lent.output.now ≡ N.start }
    requires most { most_lines ≡ W.most }
    requires begins { W.goes_on work.old 0 }
    ensures name { result.0.output.ghost_name ≡ lent.entry.output.ghost_name }
    ensures ends { Ends W.does W.bars W.wears work.old most_lines (S.left source.old) (S.left source.new) (K.written lent.entry.output.now) (K.written result.0.output.now) result.1 }
    ensures source { result.1 ≡ Status.SourceFault → Rose (S.faults source.old) (S.faults source.new) }
    ensures sink { result.1 ≡ Status.SinkFault → Rose (K.faults lent.entry.output.now) (K.faults result.0.output.now) }
    ensures memory { result.1 ≡ Status.NoMemory → (state : W) × W.grows state }
    ensures command { result.1 ≢ Status.Usage }
{
    let mut gathered: Gathered<'k, K, N> = Gathered::new(lent);
    let status = run_lines(work, most_lines, source, &mut gathered);
    if let Status::SinkFault = status {
        return (gathered.back(), status);
    }
    match gathered.flush() {
        Ok(()) => (gathered.back(), status),
        Err(_) => (gathered.back(), Status::SinkFault),
    }
}

/// Does all lines of an input of at most so many lines, each before the next is read. What they print is handed on in large pieces,
/// before the source is read again and before it ends.
pub(crate) fn run<W: LineWork, S: Source, K: Sink>(
    work: &mut W,
    most_lines: u32,
    source: &mut S,
    sink: &mut K,
) -> Status
    requires most { most_lines ≡ W.most }
    requires begins { W.goes_on work.old 0 }
    ensures ends { Ends W.does W.bars W.wears work.old most_lines (S.left source.old) (S.left source.new) (K.written sink.old) (K.written sink.new) result }
    ensures source { result ≡ Status.SourceFault → Rose (S.faults source.old) (S.faults source.new) }
    ensures sink { result ≡ Status.SinkFault → Rose (K.faults sink.old) (K.faults sink.new) }
    ensures memory { result ≡ Status.NoMemory → (state : W) × W.grows state }
    ensures command { result ≢ Status.Usage }
{
    let lent = Lent::new(sink);
    let done = run_gathered::<W, S, K, Brand>(work, most_lines, source, lent);
    done.1
}
