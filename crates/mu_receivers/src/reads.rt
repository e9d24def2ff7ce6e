// The octets of a chunk.
ghost use Rattle.std.specs.Prelude.{◌≡◌, ◌+◌, ◌≤◌, List, IsTrue, IfSome, IfOk, OnErr, length};
ghost use Rattle.mu_model_flash.specs.Cause.{HasCause};
ghost use Rattle.mu_model_wire.specs.Limits.{most_chunk};
ghost use Rattle.mu_model_client.specs.Lists.{chunk_octets};
ghost use Rattle.mu_receivers.specs.Image.{Image, Gives, IsSame};
ghost use Rattle.mu_receivers.specs.Reads.{CanRead, Within};

use crate::image::ImageBytes;
use arrayvec::ArrayVec;
use mu_model_client::Sending;
use mu_model_flash::Failed;

/// Octets of a chunk at most (this profile).
pub const MOST_CHUNK: usize = 376;

/// Reads chunk `k` of block `b`.
pub fn read_chunk<I: ImageBytes>(
    image: &mut I,
    sending: &Sending,
    b: u16,
    k: u16,
) -> Result<ArrayVec<u8, MOST_CHUNK>, Failed>
    requires can { CanRead sending.now (I.image image.old) }
    requires within { Within sending.now b k }
    ensures gives { IfOk result (λ octets. IfSome (I.image image.old).octets (λ whole. octets.items ≡ chunk_octets sending.now whole b k)) }
    ensures some { IfOk result (λ octets. 1 ≤ length octets.items) }
    ensures same { IsSame (I.image image.old) (I.image image.new) }
    ensures fails { OnErr result (IsTrue (I.image image.old).can_fail) }
    ensures cause { HasCause (I.image image.old).faults (I.image image.new).faults result }
    ensures stays { I.stays image.old image.new }
{
    let block = 2u32.pow(sending.log as u32);
    let begin = b as u32 * block;
    let end = sending.size.min(begin + block);
    let at = begin + k as u32 * sending.chunk as u32;
    let count = end.min(at + sending.chunk as u32) - at;
    let octets = read_part(image, at, count)?;
    Ok(octets)
}

fn read_part<I: ImageBytes>(
    image: &mut I,
    at: u32,
    count: u32,
) -> Result<ArrayVec<u8, MOST_CHUNK>, Failed>
    requires few { count ≤ most_chunk }
    requires within { at + count ≤ (I.image image.old).size }
    ensures long { IfOk result (λ octets. length octets.items ≡ count) }
    ensures gives { IfOk result (λ octets. Gives (I.image image.old) at octets.items) }
    ensures same { IsSame (I.image image.old) (I.image image.new) }
    ensures fails { OnErr result (IsTrue (I.image image.old).can_fail) }
    ensures cause { HasCause (I.image image.old).faults (I.image image.new).faults result }
    ensures stays { I.stays image.old image.new }
{
    let mut part = [0; MOST_CHUNK];
    let (used, _) = part.split_at_mut(count as usize);
    image.read(at, used)?;
    Ok(held(used))
}

fn held(part: &[u8]) -> ArrayVec<u8, MOST_CHUNK>
    requires { length part.now ≤ most_chunk }
    ensures { result.items ≡ part.now }
{
    let mut octets = ArrayVec::new();
    if octets.try_extend_from_slice(part).is_err() {
        prove!(false);
    }
    octets
}
