ghost use Rattle.std.specs.Prelude.{◌≡◌, ◌≤◌, ◌+◌, [], ◌∷◌, map, length, OnOk, IfOk, Some};
ghost use Rattle.mu_model_wire.specs.Reading.{Gives, ReadsBy, entry_at, entries_at, message_at, row_at};
ghost use Rattle.mu_model_wire.specs.Spelling.{Fits};
ghost use Rattle.mu_model_wire.specs.Update.{update_rows, information_get, information_status, entry_fields, metadata_check, metadata_status, update_get, update_start, update_cancel, update_apply, update_status};
ghost use Rattle.mu_updmsg.specs.View.{view, entry_shown};

use crate::message::{Entry, UpdMsg};
use arrayvec::ArrayVec;
use mu_codec::{Cursor, Refusal, Why};
use mu_model_wire::laws::{entries_are_read_in_turn, reads_what_is_spelled};

// A message takes 3,000 octets for its list. Whoever takes it apart at once never makes it, where its reading is inlined.

/// The message that the octets spell, or the first place where they spell none.
#[inline(always)]
pub fn read<'a>(bytes: &'a [u8]) -> Result<UpdMsg<'a>, Refusal>
    // What the octets are by the rows of the grammar: this message, or this refusal.
    ensures exact { Gives view result (message_at update_rows bytes.now) }
    // What is read can be written.
    ensures fits { IfOk result (λ m. Fits update_rows (view m)) }
{
    reads_what_is_spelled();
    decoded(bytes)
}

#[inline(always)]
fn decoded<'a>(bytes: &'a [u8]) -> Result<UpdMsg<'a>, Refusal>
    ensures { Gives view result (message_at update_rows bytes.now) }
{
    if bytes.len() > 380 {
        return Err(Refusal {
            at: 380,
            why: Why::Long,
        });
    }
    let mut cursor = Cursor::new(bytes);
    let opcode = cursor.opcode()?;
    match opcode {
        0x8308 => information_get(cursor),
        0x8309 => information_status(cursor),
        0x830A => metadata_check(cursor),
        0x830B => metadata_status(cursor),
        0x830C => update_get(cursor),
        0x830D => update_start(cursor),
        0x830E => update_cancel(cursor),
        0x830F => update_apply(cursor),
        0x8310 => update_status(cursor),
        _ => Err(Refusal {
            at: 0,
            why: Why::Opcode,
        }),
    }
}

#[inline(always)]
fn information_get<'a>(mut cursor: Cursor<'a>) -> Result<UpdMsg<'a>, Refusal>
    ensures { Gives view result (row_at (Some information_get) 0x8308 cursor.entry) }
{
    let first = cursor.u8()?;
    let limit = cursor.u8()?;
    cursor.end()?;
    Ok(UpdMsg::InformationGet { first, limit })
}

fn entry<'a>(cursor: &mut Cursor<'a>) -> Result<Entry<'a>, Refusal>
    ensures reads { ReadsBy entry_shown result (entry_at entry_fields cursor.old) cursor.new }
    ensures taken { OnOk result (length cursor.new.octets + 4 ≤ length cursor.old.octets) }
{
    let id = cursor.counted(2, 108)?;
    let uri = cursor.counted(0, u8::MAX)?;
    Ok(Entry { id, uri })
}

#[inline(always)]
fn entries<'a>(cursor: &mut Cursor<'a>) -> Result<ArrayVec<Entry<'a>, 94>, Refusal>
    requires { length cursor.old.octets ≤ 378 }
    ensures { Gives (λ v. map entry_shown v.items) result (entries_at (length cursor.old.octets) entry_fields cursor.old) }
{
    entries_are_read_in_turn();
    let mut entries = ArrayVec::new();
    while cursor.left() > 0 {
        let entry = entry(cursor)?;
        entries.push(entry);
    }
    Ok(entries)
}

#[inline(always)]
fn information_status<'a>(mut cursor: Cursor<'a>) -> Result<UpdMsg<'a>, Refusal>
    requires { length cursor.octets ≤ 378 }
    ensures { Gives view result (row_at (Some information_status) 0x8309 cursor.entry) }
{
    let count = cursor.u8()?;
    let first = cursor.u8()?;
    let entries = entries(&mut cursor)?;
    Ok(UpdMsg::InformationStatus {
        count,
        first,
        entries,
    })
}

#[inline(always)]
fn metadata_check<'a>(mut cursor: Cursor<'a>) -> Result<UpdMsg<'a>, Refusal>
    ensures { Gives view result (row_at (Some metadata_check) 0x830A cursor.entry) }
{
    let index = cursor.u8()?;
    let metadata = cursor.rest(0, 255)?;
    Ok(UpdMsg::MetadataCheck { index, metadata })
}

#[inline(always)]
fn metadata_status<'a>(mut cursor: Cursor<'a>) -> Result<UpdMsg<'a>, Refusal>
    ensures { Gives view result (row_at (Some metadata_status) 0x830B cursor.entry) }
{
    let split = cursor.u8()?;
    let index = cursor.u8()?;
    cursor.end()?;
    Ok(UpdMsg::MetadataStatus {
        status: split & 0x07,
        additional: split >> 3,
        index,
    })
}

#[inline(always)]
fn update_get<'a>(cursor: Cursor<'a>) -> Result<UpdMsg<'a>, Refusal>
    ensures { Gives view result (row_at (Some update_get) 0x830C cursor.entry) }
{
    cursor.end()?;
    Ok(UpdMsg::UpdateGet)
}

#[inline(always)]
fn update_start<'a>(mut cursor: Cursor<'a>) -> Result<UpdMsg<'a>, Refusal>
    ensures { Gives view result (row_at (Some update_start) 0x830D cursor.entry) }
{
    let ttl = cursor.u8()?;
    let base = cursor.u16()?;
    let id = cursor.u64()?;
    let index = cursor.u8()?;
    let metadata = cursor.rest(0, 255)?;
    Ok(UpdMsg::UpdateStart {
        ttl,
        base,
        id,
        index,
        metadata,
    })
}

#[inline(always)]
fn update_cancel<'a>(cursor: Cursor<'a>) -> Result<UpdMsg<'a>, Refusal>
    ensures { Gives view result (row_at (Some update_cancel) 0x830E cursor.entry) }
{
    cursor.end()?;
    Ok(UpdMsg::UpdateCancel)
}

#[inline(always)]
fn update_apply<'a>(cursor: Cursor<'a>) -> Result<UpdMsg<'a>, Refusal>
    ensures { Gives view result (row_at (Some update_apply) 0x830F cursor.entry) }
{
    cursor.end()?;
    Ok(UpdMsg::UpdateApply)
}

#[inline(always)]
fn update_status<'a>(mut cursor: Cursor<'a>) -> Result<UpdMsg<'a>, Refusal>
    ensures { Gives view result (row_at (Some update_status) 0x8310 cursor.entry) }
{
    let wrong = cursor.refuse(Why::Value);
    let split = cursor.u8()?;
    let status = split & 0x07;
    let phase = split >> 5;
    if phase > 6 {
        return Err(wrong);
    }
    if phase == 0 {
        cursor.end()?;
        return Ok(UpdMsg::UpdateStatus {
            status,
            phase,
            ttl: None,
            additional: None,
            base: None,
            id: None,
            index: None,
        });
    }
    let ttl = cursor.u8()?;
    let additional = cursor.u8()? & 0x1F;
    let base = cursor.u16()?;
    let id = cursor.u64()?;
    let index = cursor.u8()?;
    cursor.end()?;
    Ok(UpdMsg::UpdateStatus {
        status,
        phase,
        ttl: Some(ttl),
        additional: Some(additional),
        base: Some(base),
        id: Some(id),
        index: Some(index),
    })
}
