ghost use Rattle.std.specs.Prelude.{◌≡◌, ◌≤◌, ◌+◌, map, length, OnOk, IfOk, Some};
ghost use Rattle.std.specs.List.{All};
ghost use Rattle.mu_model_wire.specs.Reading.{Gives, ReadsBy, entry_at, entries_at, message_at, row_at};
ghost use Rattle.mu_model_wire.specs.Distribution.{distribution_rows, receiver_fields, row_fields, receivers_add, receivers_delete_all, receivers_status, receivers_get, receivers_list, capabilities_get, capabilities_status, distribution_get, distribution_start, distribution_suspend, distribution_cancel, distribution_apply, distribution_status, upload_get, upload_start, upload_start_oob, upload_cancel, upload_status, firmware_get, firmware_get_by_index, firmware_delete, firmware_delete_all, firmware_status};
ghost use Rattle.mu_distmsg.specs.View.{view, pair_shown, row_shown, RowIsEven, IsEven, InRange};

use crate::message::{DistMsg, ReceiverRow};
use arrayvec::ArrayVec;
use mu_codec::{Cursor, Refusal, Why};
use mu_model_wire::laws::{entries_are_read_in_turn, reads_what_is_spelled};

/// The message that the octets spell, or the first place where they spell none.
pub fn read<'a>(bytes: &'a [u8]) -> Result<DistMsg<'a>, Refusal>
    // What the octets are by the rows of the grammar: this message, or this refusal.
    ensures exact { Gives view result (message_at distribution_rows bytes.now) }
    // What is read can be written.
    ensures fits { IfOk result (λ m. InRange m) }
{
    reads_what_is_spelled();
    decoded(bytes)
}

fn decoded<'a>(bytes: &'a [u8]) -> Result<DistMsg<'a>, Refusal>
    ensures exact { Gives view result (message_at distribution_rows bytes.now) }
    ensures even { IfOk result (λ m. IsEven m) }
{
    if bytes.len() > 380 {
        return Err(Refusal {
            at: 380,
            why: Why::Long,
        });
    }
    let mut cursor = Cursor::new(bytes);
    let opcode = cursor.opcode()?;
    match opcode {
        0x8311 => receivers_add(cursor),
        0x8312 => receivers_delete_all(cursor),
        0x8313 => receivers_status(cursor),
        0x8314 => receivers_get(cursor),
        0x8315 => receivers_list(cursor),
        0x8316 => capabilities_get(cursor),
        0x8317 => capabilities_status(cursor),
        0x8318 => distribution_get(cursor),
        0x8319 => distribution_start(cursor),
        0x831A => distribution_suspend(cursor),
        0x831B => distribution_cancel(cursor),
        0x831C => distribution_apply(cursor),
        0x831D => distribution_status(cursor),
        0x831E => upload_get(cursor),
        0x831F => upload_start(cursor),
        0x8320 => upload_start_oob(cursor),
        0x8321 => upload_cancel(cursor),
        0x8322 => upload_status(cursor),
        0x8323 => firmware_get(cursor),
        0x8324 => firmware_get_by_index(cursor),
        0x8325 => firmware_delete(cursor),
        0x8326 => firmware_delete_all(cursor),
        0x8327 => firmware_status(cursor),
        _ => Err(Refusal {
            at: 0,
            why: Why::Opcode,
        }),
    }
}

fn receiver(cursor: &mut Cursor) -> Result<(u16, u8), Refusal>
    ensures reads { ReadsBy pair_shown result (entry_at receiver_fields cursor.old) cursor.new }
    ensures taken { OnOk result (length cursor.new.octets + 3 ≡ length cursor.old.octets) }
{
    let address = cursor.u16_in(1, 0x7FFF)?;
    let index = cursor.u8()?;
    Ok((address, index))
}

fn receivers(cursor: &mut Cursor) -> Result<ArrayVec<(u16, u8), 126>, Refusal>
    requires { length cursor.old.octets ≤ 378 }
    ensures { Gives (λ v. map pair_shown v.items) result (entries_at (length cursor.old.octets) receiver_fields cursor.old) }
{
    entries_are_read_in_turn();
    let mut receivers = ArrayVec::new();
    while cursor.left() > 0 {
        let receiver = receiver(cursor)?;
        receivers.push(receiver);
    }
    Ok(receivers)
}

fn receivers_add<'a>(mut cursor: Cursor<'a>) -> Result<DistMsg<'a>, Refusal>
    requires { length cursor.octets ≤ 378 }
    ensures exact { Gives view result (row_at (Some receivers_add) 0x8311 cursor.entry) }
    ensures even { IfOk result (λ m. IsEven m) }
{
    if cursor.left() < 1 {
        return Err(cursor.refuse(Why::Short));
    }
    let entries = receivers(&mut cursor)?;
    Ok(DistMsg::ReceiversAdd { entries })
}

fn receivers_delete_all<'a>(cursor: Cursor<'a>) -> Result<DistMsg<'a>, Refusal>
    ensures exact { Gives view result (row_at (Some receivers_delete_all) 0x8312 cursor.entry) }
    ensures even { IfOk result (λ m. IsEven m) }
{
    cursor.end()?;
    Ok(DistMsg::ReceiversDeleteAll)
}

fn receivers_status<'a>(mut cursor: Cursor<'a>) -> Result<DistMsg<'a>, Refusal>
    ensures exact { Gives view result (row_at (Some receivers_status) 0x8313 cursor.entry) }
    ensures even { IfOk result (λ m. IsEven m) }
{
    let status = cursor.u8_in(0, 13)?;
    let count = cursor.u16()?;
    cursor.end()?;
    Ok(DistMsg::ReceiversStatus { status, count })
}

fn receivers_get<'a>(mut cursor: Cursor<'a>) -> Result<DistMsg<'a>, Refusal>
    ensures exact { Gives view result (row_at (Some receivers_get) 0x8314 cursor.entry) }
    ensures even { IfOk result (λ m. IsEven m) }
{
    let first = cursor.u16()?;
    let limit = cursor.u16()?;
    cursor.end()?;
    Ok(DistMsg::ReceiversGet { first, limit })
}

fn row(cursor: &mut Cursor) -> Result<ReceiverRow, Refusal>
    ensures reads { ReadsBy row_shown result (entry_at row_fields cursor.old) cursor.new }
    ensures taken { OnOk result (length cursor.new.octets + 5 ≡ length cursor.old.octets) }
    ensures even { IfOk result (λ row. RowIsEven row) }
{
    let wrong = cursor.refuse(Why::Value);
    let split = cursor.u40()?;
    let address = (split & 0x7FFF) as u16;
    let phase = (split >> 15 & 0x0F) as u8;
    let update_status = (split >> 19 & 0x07) as u8;
    let transfer_status = (split >> 22 & 0x0F) as u8;
    let progress = (split >> 26 & 0x3F) as u8;
    let image_index = (split >> 32) as u8;
    if address < 1 || phase > 10 || transfer_status > 10 || progress > 50 {
        return Err(wrong);
    }
    Ok(ReceiverRow {
        address,
        phase,
        update_status,
        transfer_status,
        progress: progress * 2,
        image_index,
    })
}

fn rows(cursor: &mut Cursor) -> Result<ArrayVec<ReceiverRow, 74>, Refusal>
    requires { length cursor.old.octets ≤ 374 }
    ensures reads { Gives (λ v. map row_shown v.items) result (entries_at (length cursor.old.octets) row_fields cursor.old) }
    ensures even { IfOk result (λ v. All RowIsEven v.items) }
{
    entries_are_read_in_turn();
    let mut rows = ArrayVec::new();
    while cursor.left() > 0 {
        let row = row(cursor)?;
        rows.push(row);
    }
    Ok(rows)
}

fn receivers_list<'a>(mut cursor: Cursor<'a>) -> Result<DistMsg<'a>, Refusal>
    requires { length cursor.octets ≤ 378 }
    ensures exact { Gives view result (row_at (Some receivers_list) 0x8315 cursor.entry) }
    ensures even { IfOk result (λ m. IsEven m) }
{
    let count = cursor.u16()?;
    let first = cursor.u16()?;
    let entries = rows(&mut cursor)?;
    Ok(DistMsg::ReceiversList {
        count,
        first,
        entries,
    })
}

fn capabilities_get<'a>(cursor: Cursor<'a>) -> Result<DistMsg<'a>, Refusal>
    ensures exact { Gives view result (row_at (Some capabilities_get) 0x8316 cursor.entry) }
    ensures even { IfOk result (λ m. IsEven m) }
{
    cursor.end()?;
    Ok(DistMsg::CapabilitiesGet)
}

fn capabilities_status<'a>(mut cursor: Cursor<'a>) -> Result<DistMsg<'a>, Refusal>
    ensures exact { Gives view result (row_at (Some capabilities_status) 0x8317 cursor.entry) }
    ensures even { IfOk result (λ m. IsEven m) }
{
    let receivers = cursor.u16()?;
    let images = cursor.u16()?;
    let max_size = cursor.u32()?;
    let space = cursor.u32()?;
    let remaining = cursor.u32()?;
    let oob = cursor.u8_in(0, 1)?;
    let schemes = cursor.rest(0, 361)?;
    Ok(DistMsg::CapabilitiesStatus {
        receivers,
        images,
        max_size,
        space,
        remaining,
        oob,
        schemes,
    })
}

fn distribution_get<'a>(cursor: Cursor<'a>) -> Result<DistMsg<'a>, Refusal>
    ensures exact { Gives view result (row_at (Some distribution_get) 0x8318 cursor.entry) }
    ensures even { IfOk result (λ m. IsEven m) }
{
    cursor.end()?;
    Ok(DistMsg::DistributionGet)
}

fn distribution_start<'a>(mut cursor: Cursor<'a>) -> Result<DistMsg<'a>, Refusal>
    ensures exact { Gives view result (row_at (Some distribution_start) 0x8319 cursor.entry) }
    ensures even { IfOk result (λ m. IsEven m) }
{
    let appkey = cursor.u16_in(0, 4095)?;
    let ttl = cursor.u8()?;
    let base = cursor.u16()?;
    let wrong = cursor.refuse(Why::Value);
    let split = cursor.u8()?;
    let mode = split & 0x03;
    let policy = split >> 2 & 0x01;
    if mode < 1 || mode > 2 {
        return Err(wrong);
    }
    let image = cursor.u16()?;
    let mut label = None;
    let mut group = None;
    if cursor.left() >= 16 {
        label = Some(cursor.sixteen()?);
    } else {
        group = Some(cursor.u16_zero_or(0xC000, 0xFFFF)?);
    }
    cursor.end()?;
    Ok(DistMsg::DistributionStart {
        appkey,
        ttl,
        base,
        mode,
        policy,
        image,
        label,
        group,
    })
}

fn distribution_suspend<'a>(cursor: Cursor<'a>) -> Result<DistMsg<'a>, Refusal>
    ensures exact { Gives view result (row_at (Some distribution_suspend) 0x831A cursor.entry) }
    ensures even { IfOk result (λ m. IsEven m) }
{
    cursor.end()?;
    Ok(DistMsg::DistributionSuspend)
}

fn distribution_cancel<'a>(cursor: Cursor<'a>) -> Result<DistMsg<'a>, Refusal>
    ensures exact { Gives view result (row_at (Some distribution_cancel) 0x831B cursor.entry) }
    ensures even { IfOk result (λ m. IsEven m) }
{
    cursor.end()?;
    Ok(DistMsg::DistributionCancel)
}

fn distribution_apply<'a>(cursor: Cursor<'a>) -> Result<DistMsg<'a>, Refusal>
    ensures exact { Gives view result (row_at (Some distribution_apply) 0x831C cursor.entry) }
    ensures even { IfOk result (λ m. IsEven m) }
{
    cursor.end()?;
    Ok(DistMsg::DistributionApply)
}

fn distribution_status<'a>(mut cursor: Cursor<'a>) -> Result<DistMsg<'a>, Refusal>
    ensures exact { Gives view result (row_at (Some distribution_status) 0x831D cursor.entry) }
    ensures even { IfOk result (λ m. IsEven m) }
{
    let status = cursor.u8_in(0, 13)?;
    let phase = cursor.u8_in(0, 7)?;
    if phase == 0 {
        cursor.end()?;
        return Ok(DistMsg::DistributionStatus {
            status,
            phase,
            group: None,
            appkey: None,
            ttl: None,
            base: None,
            mode: None,
            policy: None,
            image: None,
        });
    }
    let group = cursor.u16_zero_or(0x8000, 0xFFFF)?;
    let appkey = cursor.u16_in(0, 4095)?;
    let ttl = cursor.u8()?;
    let base = cursor.u16()?;
    let wrong = cursor.refuse(Why::Value);
    let split = cursor.u8()?;
    let mode = split & 0x03;
    let policy = split >> 2 & 0x01;
    if mode < 1 || mode > 2 {
        return Err(wrong);
    }
    let image = cursor.u16()?;
    cursor.end()?;
    Ok(DistMsg::DistributionStatus {
        status,
        phase,
        group: Some(group),
        appkey: Some(appkey),
        ttl: Some(ttl),
        base: Some(base),
        mode: Some(mode),
        policy: Some(policy),
        image: Some(image),
    })
}

fn upload_get<'a>(cursor: Cursor<'a>) -> Result<DistMsg<'a>, Refusal>
    ensures exact { Gives view result (row_at (Some upload_get) 0x831E cursor.entry) }
    ensures even { IfOk result (λ m. IsEven m) }
{
    cursor.end()?;
    Ok(DistMsg::UploadGet)
}

fn upload_start<'a>(mut cursor: Cursor<'a>) -> Result<DistMsg<'a>, Refusal>
    ensures exact { Gives view result (row_at (Some upload_start) 0x831F cursor.entry) }
    ensures even { IfOk result (λ m. IsEven m) }
{
    let ttl = cursor.u8()?;
    let base = cursor.u16()?;
    let id = cursor.u64()?;
    let size = cursor.u32_in(1, u32::MAX)?;
    let metadata = cursor.counted(0, u8::MAX)?;
    let fwid = cursor.rest(2, 108)?;
    Ok(DistMsg::UploadStart {
        ttl,
        base,
        id,
        size,
        metadata,
        fwid,
    })
}

fn upload_start_oob<'a>(mut cursor: Cursor<'a>) -> Result<DistMsg<'a>, Refusal>
    ensures exact { Gives view result (row_at (Some upload_start_oob) 0x8320 cursor.entry) }
    ensures even { IfOk result (λ m. IsEven m) }
{
    let uri = cursor.counted(0, u8::MAX)?;
    let fwid = cursor.rest(2, 108)?;
    Ok(DistMsg::UploadStartOob { uri, fwid })
}

fn upload_cancel<'a>(cursor: Cursor<'a>) -> Result<DistMsg<'a>, Refusal>
    ensures exact { Gives view result (row_at (Some upload_cancel) 0x8321 cursor.entry) }
    ensures even { IfOk result (λ m. IsEven m) }
{
    cursor.end()?;
    Ok(DistMsg::UploadCancel)
}

fn upload_status<'a>(mut cursor: Cursor<'a>) -> Result<DistMsg<'a>, Refusal>
    ensures exact { Gives view result (row_at (Some upload_status) 0x8322 cursor.entry) }
    ensures even { IfOk result (λ m. IsEven m) }
{
    let status = cursor.u8_in(0, 13)?;
    let phase = cursor.u8_in(0, 3)?;
    if phase == 0 {
        cursor.end()?;
        return Ok(DistMsg::UploadStatus {
            status,
            phase,
            progress: None,
            kind: None,
            fwid: None,
        });
    }
    let wrong = cursor.refuse(Why::Value);
    let split = cursor.u8()?;
    let progress = split & 0x7F;
    let kind = split >> 7;
    if progress > 100 {
        return Err(wrong);
    }
    let fwid = cursor.rest(2, 108)?;
    Ok(DistMsg::UploadStatus {
        status,
        phase,
        progress: Some(progress),
        kind: Some(kind),
        fwid: Some(fwid),
    })
}

fn firmware_get<'a>(mut cursor: Cursor<'a>) -> Result<DistMsg<'a>, Refusal>
    ensures exact { Gives view result (row_at (Some firmware_get) 0x8323 cursor.entry) }
    ensures even { IfOk result (λ m. IsEven m) }
{
    let fwid = cursor.rest(2, 108)?;
    Ok(DistMsg::FirmwareGet { fwid })
}

fn firmware_get_by_index<'a>(mut cursor: Cursor<'a>) -> Result<DistMsg<'a>, Refusal>
    ensures exact { Gives view result (row_at (Some firmware_get_by_index) 0x8324 cursor.entry) }
    ensures even { IfOk result (λ m. IsEven m) }
{
    let index = cursor.u16()?;
    cursor.end()?;
    Ok(DistMsg::FirmwareGetByIndex { index })
}

fn firmware_delete<'a>(mut cursor: Cursor<'a>) -> Result<DistMsg<'a>, Refusal>
    ensures exact { Gives view result (row_at (Some firmware_delete) 0x8325 cursor.entry) }
    ensures even { IfOk result (λ m. IsEven m) }
{
    let fwid = cursor.rest(2, 108)?;
    Ok(DistMsg::FirmwareDelete { fwid })
}

fn firmware_delete_all<'a>(cursor: Cursor<'a>) -> Result<DistMsg<'a>, Refusal>
    ensures exact { Gives view result (row_at (Some firmware_delete_all) 0x8326 cursor.entry) }
    ensures even { IfOk result (λ m. IsEven m) }
{
    cursor.end()?;
    Ok(DistMsg::FirmwareDeleteAll)
}

fn firmware_status<'a>(mut cursor: Cursor<'a>) -> Result<DistMsg<'a>, Refusal>
    ensures exact { Gives view result (row_at (Some firmware_status) 0x8327 cursor.entry) }
    ensures even { IfOk result (λ m. IsEven m) }
{
    let status = cursor.u8_in(0, 13)?;
    let count = cursor.u16()?;
    let index = cursor.u16()?;
    let mut fwid = None;
    if cursor.left() >= 1 {
        fwid = Some(cursor.rest(2, 108)?);
    }
    Ok(DistMsg::FirmwareStatus {
        status,
        count,
        index,
        fwid,
    })
}
