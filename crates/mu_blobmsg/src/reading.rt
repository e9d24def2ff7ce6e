ghost use Rattle.std.specs.Prelude.{◌≡◌, ◌≤◌, ◌+◌, [], ◌∷◌, length, IfOk, Some};
ghost use Rattle.arrayvec.specs.ArrayVec.{array_vec_len};
ghost use Rattle.mu_model_wire.specs.Reading.{Gives, entries_at, message_at, row_at};
ghost use Rattle.mu_model_wire.specs.Fields.{pattern};
ghost use Rattle.mu_model_wire.specs.Names.{missing};
ghost use Rattle.mu_model_wire.specs.Reports.{shown_numbers};
ghost use Rattle.mu_model_wire.specs.Spelling.{Fits};
ghost use Rattle.mu_model_wire.specs.Blob.{blob_rows, transfer_get, transfer_start, transfer_cancel, transfer_status, block_start, block_get, blob_information_get, blob_information_status, chunk_transfer, block_status, partial_block_report};
ghost use Rattle.mu_blobmsg.specs.View.{view};

use crate::message::BlobMsg;
use arrayvec::ArrayVec;
use mu_codec::{Cursor, Refusal, Why};
use mu_model_wire::laws::reads_what_is_spelled;
use mu_model_wire::reports::lists;
use mu_report::{Report, decode_list};

// A message takes 800 octets for its list. Whoever takes it apart at once never makes it, where its reading is inlined.

/// The message that the octets spell, or the first place where they spell none.
#[inline(always)]
pub fn read<'a>(bytes: &'a [u8]) -> Result<BlobMsg<'a>, Refusal>
    // What the octets are by the rows of the grammar: this message, or this refusal.
    ensures exact { Gives view result (message_at blob_rows bytes.now) }
    // What is read can be written.
    ensures fits { IfOk result (λ m. Fits blob_rows (view m)) }
{
    reads_what_is_spelled();
    decoded(bytes)
}

#[inline(always)]
fn decoded<'a>(bytes: &'a [u8]) -> Result<BlobMsg<'a>, Refusal>
    ensures { Gives view result (message_at blob_rows bytes.now) }
{
    if bytes.len() > 380 {
        return Err(Refusal {
            at: 380,
            why: Why::Long,
        });
    }
    let mut cursor = Cursor::new(bytes);
    let opcode = cursor.opcode()?;
    match opcode {
        0x8300 => transfer_get(cursor),
        0x8301 => transfer_start(cursor),
        0x8302 => transfer_cancel(cursor),
        0x8303 => transfer_status(cursor),
        0x8304 => block_start(cursor),
        0x8305 => block_get(cursor),
        0x8306 => blob_information_get(cursor),
        0x8307 => blob_information_status(cursor),
        0x66 => chunk_transfer(cursor),
        0x67 => block_status(cursor),
        0x68 => partial_block_report(cursor),
        _ => Err(Refusal {
            at: 0,
            why: Why::Opcode,
        }),
    }
}

#[inline(always)]
fn transfer_get<'a>(cursor: Cursor<'a>) -> Result<BlobMsg<'a>, Refusal>
    ensures { Gives view result (row_at (Some transfer_get) 0x8300 cursor.entry) }
{
    cursor.end()?;
    Ok(BlobMsg::TransferGet)
}

#[inline(always)]
fn transfer_start<'a>(mut cursor: Cursor<'a>) -> Result<BlobMsg<'a>, Refusal>
    ensures { Gives view result (row_at (Some transfer_start) 0x8301 cursor.entry) }
{
    let wrong = cursor.refuse(Why::Value);
    let split = cursor.u8()?;
    let mode = split >> 6;
    if mode < 1 || mode > 2 {
        return Err(wrong);
    }
    let id = cursor.u64()?;
    let size = cursor.u32_in(1, u32::MAX)?;
    let log = cursor.u8_in(6, 32)?;
    let mtu = cursor.u16_in(20, u16::MAX)?;
    cursor.end()?;
    Ok(BlobMsg::TransferStart {
        mode,
        id,
        size,
        log,
        mtu,
    })
}

#[inline(always)]
fn transfer_cancel<'a>(mut cursor: Cursor<'a>) -> Result<BlobMsg<'a>, Refusal>
    ensures { Gives view result (row_at (Some transfer_cancel) 0x8302 cursor.entry) }
{
    let id = cursor.u64()?;
    cursor.end()?;
    Ok(BlobMsg::TransferCancel { id })
}

#[inline(always)]
fn transfer_status<'a>(mut cursor: Cursor<'a>) -> Result<BlobMsg<'a>, Refusal>
    ensures { Gives view result (row_at (Some transfer_status) 0x8303 cursor.entry) }
{
    let wrong = cursor.refuse(Why::Value);
    let split = cursor.u8()?;
    let status = split & 0x0F;
    let mode = split >> 6;
    if status > 10 || mode > 2 {
        return Err(wrong);
    }
    let phase = cursor.u8_in(0, 5)?;
    if phase == 0 {
        cursor.end()?;
        return Ok(BlobMsg::TransferStatus {
            status,
            mode,
            phase,
            id: None,
            size: None,
            log: None,
            mtu: None,
            blocks: None,
        });
    }
    let id = cursor.u64()?;
    if phase == 1 {
        cursor.end()?;
        return Ok(BlobMsg::TransferStatus {
            status,
            mode,
            phase,
            id: Some(id),
            size: None,
            log: None,
            mtu: None,
            blocks: None,
        });
    }
    let size = cursor.u32_in(1, u32::MAX)?;
    let log = cursor.u8_in(6, 32)?;
    let mtu = cursor.u16_in(20, u16::MAX)?;
    let blocks = cursor.rest(0, 361)?;
    Ok(BlobMsg::TransferStatus {
        status,
        mode,
        phase,
        id: Some(id),
        size: Some(size),
        log: Some(log),
        mtu: Some(mtu),
        blocks: Some(blocks),
    })
}

#[inline(always)]
fn block_start<'a>(mut cursor: Cursor<'a>) -> Result<BlobMsg<'a>, Refusal>
    ensures { Gives view result (row_at (Some block_start) 0x8304 cursor.entry) }
{
    let block = cursor.u16()?;
    let chunk_size = cursor.u16()?;
    cursor.end()?;
    Ok(BlobMsg::BlockStart { block, chunk_size })
}

#[inline(always)]
fn block_get<'a>(cursor: Cursor<'a>) -> Result<BlobMsg<'a>, Refusal>
    ensures { Gives view result (row_at (Some block_get) 0x8305 cursor.entry) }
{
    cursor.end()?;
    Ok(BlobMsg::BlockGet)
}

#[inline(always)]
fn blob_information_get<'a>(cursor: Cursor<'a>) -> Result<BlobMsg<'a>, Refusal>
    ensures { Gives view result (row_at (Some blob_information_get) 0x8306 cursor.entry) }
{
    cursor.end()?;
    Ok(BlobMsg::BlobInformationGet)
}

#[inline(always)]
fn blob_information_status<'a>(mut cursor: Cursor<'a>) -> Result<BlobMsg<'a>, Refusal>
    ensures { Gives view result (row_at (Some blob_information_status) 0x8307 cursor.entry) }
{
    let min_log = cursor.u8_in(6, 32)?;
    let max_log = cursor.u8_in(6, 32)?;
    let max_chunks = cursor.u16()?;
    let max_chunk_size = cursor.u16()?;
    let max_size = cursor.u32()?;
    let mtu = cursor.u16()?;
    let split = cursor.u8()?;
    cursor.end()?;
    Ok(BlobMsg::BlobInformationStatus {
        min_log,
        max_log,
        max_chunks,
        max_chunk_size,
        max_size,
        mtu,
        push: split & 0x01,
        pull: split >> 1 & 0x01,
    })
}

#[inline(always)]
fn chunk_transfer<'a>(mut cursor: Cursor<'a>) -> Result<BlobMsg<'a>, Refusal>
    ensures { Gives view result (row_at (Some chunk_transfer) 0x66 cursor.entry) }
{
    let chunk = cursor.u16()?;
    let octets = cursor.rest(1, 377)?;
    Ok(BlobMsg::ChunkTransfer { chunk, octets })
}

#[inline(always)]
fn block_status<'a>(mut cursor: Cursor<'a>) -> Result<BlobMsg<'a>, Refusal>
    requires { length cursor.octets ≤ 379 }
    ensures { Gives view result (row_at (Some block_status) 0x67 cursor.entry) }
{
    let wrong = cursor.refuse(Why::Value);
    let split = cursor.u8()?;
    let status = split & 0x0F;
    let format = split >> 6;
    if status > 10 {
        return Err(wrong);
    }
    let block = cursor.u16()?;
    let chunk_size = cursor.u16()?;
    let report = match format {
        0 => {
            cursor.end()?;
            Report::All
        }
        1 => {
            cursor.end()?;
            Report::Nothing
        }
        2 => Report::Bits(bit_field(cursor.rest(0, 374)?)),
        _ => Report::List(short_list(&mut cursor)?),
    };
    Ok(BlobMsg::BlockStatus {
        status,
        block,
        chunk_size,
        report,
    })
}

fn bit_field(octets: &[u8]) -> ArrayVec<u8, 374>
    requires { length octets.now ≤ 374 }
    ensures { result.items ≡ octets.now }
{
    let mut bits = ArrayVec::new();
    if bits.try_extend_from_slice(octets).is_err() {
        prove!(false);
    }
    bits
}

#[inline(always)]
fn partial_block_report<'a>(mut cursor: Cursor<'a>) -> Result<BlobMsg<'a>, Refusal>
    requires { length cursor.octets ≤ 379 }
    ensures { Gives view result (row_at (Some partial_block_report) 0x68 cursor.entry) }
{
    let missing = list(&mut cursor)?;
    Ok(BlobMsg::PartialBlockReport { missing })
}

// The number patterns to the end.
fn list(cursor: &mut Cursor) -> Result<ArrayVec<u16, 379>, Refusal>
    requires { length cursor.old.octets ≤ 379 }
    ensures reads { Gives (λ v. shown_numbers missing v.items) result (entries_at (length cursor.old.octets) (pattern missing ∷ []) cursor.old) }
    ensures most { IfOk result (λ v. array_vec_len v ≤ length cursor.old.octets) }
{
    let place = cursor.place();
    let octets = cursor.rest(0, 379)?;
    list_at(place, octets)
}

fn list_at(place: u16, octets: &[u8]) -> Result<ArrayVec<u16, 379>, Refusal>
    requires place { place + length octets.now ≤ 380 }
    requires most { length octets.now ≤ 379 }
    ensures reads { Gives (λ v. shown_numbers missing v.items) result (entries_at (length octets.now) (pattern missing ∷ []) (record { at = place; octets = octets.now })) }
    ensures most { IfOk result (λ v. array_vec_len v ≤ length octets.now) }
{
    lists();
    match decode_list(octets) {
        Ok(numbers) => Ok(numbers),
        Err(fault) => Err(Refusal {
            at: place + fault.at,
            why: if fault.cut { Why::Short } else { Why::Value },
        }),
    }
}

// The same in a message that has room for so many.
fn short_list(cursor: &mut Cursor) -> Result<ArrayVec<u16, 374>, Refusal>
    requires { length cursor.old.octets ≤ 374 }
    ensures { Gives (λ v. shown_numbers missing v.items) result (entries_at (length cursor.old.octets) (pattern missing ∷ []) cursor.old) }
{
    let all = list(cursor)?;
    let mut numbers = ArrayVec::new();
    if numbers.try_extend_from_slice(all.as_slice()).is_err() {
        prove!(false);
    }
    Ok(numbers)
}
