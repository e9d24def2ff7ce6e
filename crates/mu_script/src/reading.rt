ghost use Rattle.std.specs.Prelude.{◌≡◌, IfOk, IfSome};
ghost use Rattle.std.specs.Option.{option_map};
ghost use Rattle.mu_model_script.specs.Lines.{row_of, line_rows, node_row, pair_row, old_row, say_row, deliver_row, time_row, cut_row, tear_row, active_row, phase_row, event_by, line_event};
ghost use Rattle.mu_model_script.specs.Ranges.{IsInRange};
ghost use Rattle.mu_script.specs.Cursor.{Gives, GivesEvent};
ghost use Rattle.mu_script.specs.View.{event};
ghost use Rattle.mu_script.specs.Words.{row};

use crate::cursor::Tokens;
use crate::events::Event;
use mu_model_script::{LineFault, LineWhy, event_is_in_range};

/// The first token of a line.
enum Word {
    Node,
    Pair,
    Old,
    Say,
    Deliver,
    Time,
    Cut,
    Tear,
    Active,
    Phase,
}

fn known_word(octets: &[u8]) -> Option<Word>
    ensures { option_map row result ≡ row_of line_rows octets.now }
{
    if octets == b"node".as_slice() {
        Some(Word::Node)
    } else if octets == b"pair".as_slice() {
        Some(Word::Pair)
    } else if octets == b"old".as_slice() {
        Some(Word::Old)
    } else if octets == b"say".as_slice() {
        Some(Word::Say)
    } else if octets == b"deliver".as_slice() {
        Some(Word::Deliver)
    } else if octets == b"time".as_slice() {
        Some(Word::Time)
    } else if octets == b"cut".as_slice() {
        Some(Word::Cut)
    } else if octets == b"tear".as_slice() {
        Some(Word::Tear)
    } else if octets == b"active".as_slice() {
        Some(Word::Active)
    } else if octets == b"phase".as_slice() {
        Some(Word::Phase)
    } else {
        None
    }
}

fn node(mut tokens: Tokens) -> Result<Option<Event>, LineFault>
    ensures { GivesEvent result (event_by node_row tokens.entry) }
{
    let addr = tokens.unicast()?;
    let group = tokens.group_or_none()?;
    let pages = tokens.pages()?;
    let version = tokens.version()?;
    let content = tokens.image()?;
    tokens.end()?;
    Ok(Some(Event::Node {
        addr,
        group,
        pages,
        version,
        content,
    }))
}

fn pair(mut tokens: Tokens) -> Result<Option<Event>, LineFault>
    ensures { GivesEvent result (event_by pair_row tokens.entry) }
{
    let addr = tokens.unicast()?;
    let group = tokens.group_or_none()?;
    let pages = tokens.pages()?;
    let version = tokens.version()?;
    let content = tokens.image()?;
    let second_version = tokens.version()?;
    let second_content = tokens.image()?;
    tokens.end()?;
    Ok(Some(Event::Pair {
        addr,
        group,
        pages,
        version,
        content,
        second_version,
        second_content,
    }))
}

fn old(mut tokens: Tokens) -> Result<Option<Event>, LineFault>
    ensures { GivesEvent result (event_by old_row tokens.entry) }
{
    let addr = tokens.unicast()?;
    let group = tokens.group_or_none()?;
    let pages = tokens.pages()?;
    let version = tokens.version()?;
    let content = tokens.image()?;
    tokens.end()?;
    Ok(Some(Event::Old {
        addr,
        group,
        pages,
        version,
        content,
    }))
}

fn say(mut tokens: Tokens) -> Result<Option<Event>, LineFault>
    ensures { GivesEvent result (event_by say_row tokens.entry) }
{
    let from = tokens.unicast()?;
    let to = tokens.destination()?;
    let payload = tokens.octets_up_to()?;
    tokens.end()?;
    Ok(Some(Event::Say { from, to, payload }))
}

fn deliver(mut tokens: Tokens) -> Result<Option<Event>, LineFault>
    ensures { GivesEvent result (event_by deliver_row tokens.entry) }
{
    let packet = tokens.number(0, u32::MAX as u64)? as u32;
    let addr = tokens.unicast()?;
    tokens.end()?;
    Ok(Some(Event::Deliver { packet, addr }))
}

fn time(mut tokens: Tokens) -> Result<Option<Event>, LineFault>
    ensures { GivesEvent result (event_by time_row tokens.entry) }
{
    let addr = tokens.unicast()?;
    let ms = tokens.number(0, 9_223_372_036_854_775_807)?;
    tokens.end()?;
    Ok(Some(Event::Time { addr, ms }))
}

fn cut(mut tokens: Tokens) -> Result<Option<Event>, LineFault>
    ensures { GivesEvent result (event_by cut_row tokens.entry) }
{
    let addr = tokens.unicast()?;
    tokens.end()?;
    Ok(Some(Event::Cut { addr }))
}

fn tear(mut tokens: Tokens) -> Result<Option<Event>, LineFault>
    ensures { GivesEvent result (event_by tear_row tokens.entry) }
{
    let addr = tokens.unicast()?;
    let n = tokens.number(1, 1000)? as u16;
    let pattern = tokens.pattern()?;
    tokens.end()?;
    Ok(Some(Event::Tear { addr, n, pattern }))
}

fn active(mut tokens: Tokens) -> Result<Option<Event>, LineFault>
    ensures { GivesEvent result (event_by active_row tokens.entry) }
{
    let addr = tokens.unicast()?;
    tokens.end()?;
    Ok(Some(Event::Active { addr }))
}

fn phase(mut tokens: Tokens) -> Result<Option<Event>, LineFault>
    ensures { GivesEvent result (event_by phase_row tokens.entry) }
{
    let addr = tokens.unicast()?;
    tokens.end()?;
    Ok(Some(Event::Phase { addr }))
}

fn event_read(line: &[u8]) -> Result<Option<Event>, LineFault>
    ensures { Gives (λ e. option_map event e) result (line_event line.now) }
{
    if line.len() > 4096 {
        return Err(LineFault {
            at: 4096,
            why: LineWhy::Long,
        });
    }
    if line.is_empty() || line[0] == b'#' {
        return Ok(None);
    }
    let mut tokens = Tokens::new(line);
    let first = tokens.next()?;
    match known_word(first.octets) {
        None => Err(first.fault()),
        Some(Word::Node) => node(tokens),
        Some(Word::Pair) => pair(tokens),
        Some(Word::Old) => old(tokens),
        Some(Word::Say) => say(tokens),
        Some(Word::Deliver) => deliver(tokens),
        Some(Word::Time) => time(tokens),
        Some(Word::Cut) => cut(tokens),
        Some(Word::Tear) => tear(tokens),
        Some(Word::Active) => active(tokens),
        Some(Word::Phase) => phase(tokens),
    }
}

/// What a line of a script makes happen, without its LF: nothing where it is empty or a comment. Refused are, at the
/// first place that shows it, a line that is longer than 4,096 octets, one that isn't of a form of the script's lines,
/// and a number that is out of its range.
pub fn read_line(line: &[u8]) -> Result<Option<Event>, LineFault>
    ensures reads { Gives (λ e. option_map event e) result (line_event line.now) }
    ensures in_range { IfOk result (λ read. IfSome read (λ e. IsInRange (event e))) }
{
    event_is_in_range();
    event_read(line)
}
