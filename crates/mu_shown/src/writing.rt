ghost use Rattle.std.specs.Prelude.{◌≡◌, ◌<◌, ◌≤◌, ◌∷◌, [], ◌++◌, OnOk, OnErr, length, map, drop, slice_index_or};
ghost use Rattle.std.specs.Fmt.{decimal};
ghost use Rattle.std.specs.List.{flat_map};
ghost use Rattle.hex.specs.Hex.{encode_lower};
ghost use Rattle.mu_model_flash.specs.Cause.{HasCause};
ghost use Rattle.mu_shown.specs.Written.{Wrote, WroteSome, Adds, Writes};
ghost use Rattle.mu_shown.specs.Lines.{entry_text, entries_text, named, shown_line};
ghost use Rattle.mu_shown.specs.Seen.{seen, value_seen, field_seen, list_shown, list_seen, Shows};
ghost use Rattle.mu_model_wire.specs.Fields.{Message};

use crate::fields::Field;
use crate::lines::Line;
use crate::lists::List;
use crate::names::text;
use itoa::Buffer;
use mu_outside::{Failed, Sink};

/// Writes all of a piece. Where the sink fails, a beginning of it was written.
pub(crate) fn write_all<K: Sink>(sink: &mut K, bytes: &[u8]) -> Result<(), Failed>
    ensures ok { OnOk result (Wrote (K.written sink.old) (K.written sink.new) bytes.now) }
    ensures err { OnErr result (WroteSome (K.written sink.old) (K.written sink.new) bytes.now) }
    ensures cause { HasCause (K.faults sink.old) (K.faults sink.new) result }
{
    let mut done = 0;
    while done < bytes.len() {
        done += sink.write(&bytes[done..])?;
    }
    Ok(())
}

/// Writes a text behind others, and nothing where one of these failed.
pub(crate) fn put<K: Sink>(
    sink: &mut K,
    so_far: Result<(), Failed>,
    bytes: &[u8],
) -> Result<(), Failed>
    ensures { Adds (K.written sink.old) (K.written sink.new) (K.faults sink.old) (K.faults sink.new) so_far result bytes.now }
{
    match so_far {
        Ok(()) => write_all(sink, bytes),
        Err(failed) => Err(failed),
    }
}

pub(crate) fn put_number<K: Sink>(
    sink: &mut K,
    so_far: Result<(), Failed>,
    number: u64,
) -> Result<(), Failed>
    ensures { Adds (K.written sink.old) (K.written sink.new) (K.faults sink.old) (K.faults sink.new) so_far result (decimal number) }
{
    let mut buffer = Buffer::new();
    put(sink, so_far, buffer.format(number).as_bytes())
}

// The hexadecimal text of at most 32 octets.
fn digits<'a>(octets: &[u8], room: &'a mut [u8; 64]) -> &'a [u8]
    requires { length octets.now ≤ 32 }
    ensures { result.now ≡ encode_lower octets.now }
{
    let digits = &mut room[..2 * octets.len()];
    if hex::encode_to_slice(octets, digits).is_err() {
        prove!(false);
    }
    digits
}

pub(crate) fn put_hex<K: Sink>(
    sink: &mut K,
    so_far: Result<(), Failed>,
    octets: &[u8],
) -> Result<(), Failed>
    ensures { Adds (K.written sink.old) (K.written sink.new) (K.faults sink.old) (K.faults sink.new) so_far result (encode_lower octets.now) }
{
    let mut room = [0; 64];
    let mut done = so_far;
    let mut left = octets;
    while !left.is_empty() {
        let (part, behind) = left.split_at(left.len().min(32));
        done = put(sink, done, digits(part, &mut room));
        left = behind;
    }
    done
}

pub(crate) fn put_value<K: Sink>(
    sink: &mut K,
    so_far: Result<(), Failed>,
    field: &Field,
) -> Result<(), Failed>
    ensures { Adds (K.written sink.old) (K.written sink.new) (K.faults sink.old) (K.faults sink.new) so_far result (value_seen field.now) }
{
    match field {
        Field::Number(_, number) => put_number(sink, so_far, *number),
        Field::Octets(_, octets) => put_hex(sink, so_far, octets),
    }
}

// A blank, the name, an equals sign.
fn put_name<K: Sink>(sink: &mut K, so_far: Result<(), Failed>, name: &[u8]) -> Result<(), Failed>
    ensures { Adds (K.written sink.old) (K.written sink.new) (K.faults sink.old) (K.faults sink.new) so_far result (32 ∷ name.now ++ 61 ∷ []) }
{
    let blank = put(sink, so_far, b" ");
    let named = put(sink, blank, name);
    put(sink, named, b"=")
}

fn put_field<K: Sink>(sink: &mut K, so_far: Result<(), Failed>, field: &Field) -> Result<(), Failed>
    ensures { Adds (K.written sink.old) (K.written sink.new) (K.faults sink.old) (K.faults sink.new) so_far result (field_seen field.now) }
{
    let named = put_name(sink, so_far, text(field.name()));
    put_value(sink, named, field)
}

pub(crate) fn put_fields<K: Sink>(
    sink: &mut K,
    so_far: Result<(), Failed>,
    fields: &[Field],
) -> Result<(), Failed>
    ensures { Adds (K.written sink.old) (K.written sink.new) (K.faults sink.old) (K.faults sink.new) so_far result (flat_map field_seen fields.now) }
{
    let mut done = so_far;
    for field in fields {
        done = put_field(sink, done, field);
    }
    done
}

fn put_other<K: Sink>(sink: &mut K, so_far: Result<(), Failed>, field: &Field) -> Result<(), Failed>
    ensures { Adds (K.written sink.old) (K.written sink.new) (K.faults sink.old) (K.faults sink.new) so_far result (58 ∷ value_seen field.now) }
{
    let colon = put(sink, so_far, b":");
    put_value(sink, colon, field)
}

fn put_others<K: Sink>(
    sink: &mut K,
    so_far: Result<(), Failed>,
    fields: &[Field],
) -> Result<(), Failed>
    ensures { Adds (K.written sink.old) (K.written sink.new) (K.faults sink.old) (K.faults sink.new) so_far result (flat_map (λ f. 58 ∷ value_seen f) fields.now) }
{
    let mut done = so_far;
    for field in fields {
        done = put_other(sink, done, field);
    }
    done
}

fn put_entry<K: Sink>(
    sink: &mut K,
    so_far: Result<(), Failed>,
    fields: &[Field],
) -> Result<(), Failed>
    ensures { Adds (K.written sink.old) (K.written sink.new) (K.faults sink.old) (K.faults sink.new) so_far result (entry_text (map seen fields.now)) }
{
    if fields.is_empty() {
        return so_far;
    }
    let first = put_value(sink, so_far, &fields[0]);
    put_others(sink, first, &fields[1..])
}

fn put_next<K: Sink>(
    sink: &mut K,
    so_far: Result<(), Failed>,
    list: &List,
    place: usize,
) -> Result<(), Failed>
    requires { place < length (list_shown list.now) }
    ensures { Adds (K.written sink.old) (K.written sink.new) (K.faults sink.old) (K.faults sink.new) so_far result (44 ∷ entry_text (slice_index_or (list_shown list.now) place [])) }
{
    let comma = put(sink, so_far, b",");
    put_entry(sink, comma, list.entry(place).as_slice())
}

fn put_more<K: Sink>(sink: &mut K, so_far: Result<(), Failed>, list: &List) -> Result<(), Failed>
    requires { 0 < length (list_shown list.now) }
    ensures { Adds (K.written sink.old) (K.written sink.new) (K.faults sink.old) (K.faults sink.new) so_far result (flat_map (λ e. 44 ∷ entry_text e) (drop 1 (list_shown list.now))) }
{
    let mut done = so_far;
    for place in 1..list.len() {
        done = put_next(sink, done, list, place);
    }
    done
}

fn put_entries<K: Sink>(sink: &mut K, so_far: Result<(), Failed>, list: &List) -> Result<(), Failed>
    ensures { Adds (K.written sink.old) (K.written sink.new) (K.faults sink.old) (K.faults sink.new) so_far result (entries_text (list_shown list.now)) }
{
    if list.len() == 0 {
        return so_far;
    }
    let first = put_entry(sink, so_far, list.entry(0).as_slice());
    put_more(sink, first, list)
}

fn put_named<K: Sink>(
    sink: &mut K,
    so_far: Result<(), Failed>,
    name: &[u8],
    list: &List,
) -> Result<(), Failed>
    ensures { Adds (K.written sink.old) (K.written sink.new) (K.faults sink.old) (K.faults sink.new) so_far result (named name.now (entries_text (list_shown list.now))) }
{
    let started = put_name(sink, so_far, name);
    put_entries(sink, started, list)
}

fn put_list<K: Sink>(sink: &mut K, so_far: Result<(), Failed>, list: &List) -> Result<(), Failed>
    ensures { Adds (K.written sink.old) (K.written sink.new) (K.faults sink.old) (K.faults sink.new) so_far result (list_seen list.now) }
{
    match list {
        List::Nothing => so_far,
        List::Numbers(_) => put_named(sink, so_far, b"missing", list),
        List::Images(_) => put_named(sink, so_far, b"entries", list),
        List::Receivers(_) => put_named(sink, so_far, b"entries", list),
        List::Rows(_) => put_named(sink, so_far, b"entries", list),
    }
}

/// Writes the line of the message that it shows, with its end.
pub(crate) fn put_line<K: Sink>(sink: &mut K, line: &Line) -> Result<(), Failed>
    ensures { (m : Message) → Shows line.now m → Writes (K.written sink.old) (K.written sink.new) (K.faults sink.old) (K.faults sink.new) result (shown_line m) }
{
    let named = put(sink, Ok(()), line.name);
    let shown = put_fields(sink, named, line.fields.as_slice());
    let listed = put_list(sink, shown, &line.list);
    put(sink, listed, b"\n")
}

/// Writes a line that has nothing but a name.
pub(crate) fn put_bare<K: Sink>(sink: &mut K, name: &[u8]) -> Result<(), Failed>
    ensures { Writes (K.written sink.old) (K.written sink.new) (K.faults sink.old) (K.faults sink.new) result (name.now ++ 10 ∷ []) }
{
    let named = put(sink, Ok(()), name);
    put(sink, named, b"\n")
}
