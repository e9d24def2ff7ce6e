// The chunks of a list, read before anything is written.
ghost use Rattle.std.specs.Prelude.{◌≡◌, ◌≤◌, IsTrue, IfSome, IfOk, OnErr, All, length, map};
ghost use Rattle.mu_model_flash.specs.Cause.{HasCause};
ghost use Rattle.mu_model_client.specs.Going.{most_packets};
ghost use Rattle.mu_model_client.specs.Lists.{sent_for};
ghost use Rattle.mu_receivers.specs.Image.{Image, IsSame};
ghost use Rattle.mu_receivers.specs.Reads.{CanRead, Within};
ghost use Rattle.mu_receivers.specs.Chunks.{item_of, items_of};
ghost use Rattle.mu_receivers.specs.declared.lists.Spot.{Spot};
ghost use Rattle.mu_rounds.specs.Sents.{sent_of, sents_of, HasOctets, HaveOctets};

use crate::rounds::Rounds;
use crate::said::{Said, Sent};
use arrayvec::ArrayVec;
use mu_model_flash::Failed;
use mu_receivers::{ImageBytes, MOST_PACKETS, Spot, read_chunk};

fn read_spot<I: ImageBytes>(
    image: &mut I,
    client: &Rounds,
    b: u16,
    spot: Spot,
) -> Result<Sent, Failed>
    requires can { CanRead client.now.sending (I.image image.old) }
    requires within { Within client.now.sending b spot.chunk }
    ensures gives { IfOk result (λ sent. IfSome (I.image image.old).octets (λ octets. sent_of client.now.sending client.now.purpose sent ≡ sent_for client.now.sending octets (item_of b spot))) }
    ensures octets { IfOk result HasOctets }
    ensures same { IsSame (I.image image.old) (I.image image.new) }
    ensures fails { OnErr result (IsTrue (I.image image.old).can_fail) }
    ensures cause { HasCause (I.image image.old).faults (I.image image.new).faults result }
    ensures stays { I.stays image.old image.new }
{
    let octets = read_chunk(image, &client.sending, b, spot.chunk)?;
    Ok(Sent {
        to: spot.to,
        said: Said::ChunkTransfer {
            chunk: spot.chunk,
            octets,
        },
    })
}

/// The packets with the chunks at these places of block `b`.
pub fn read_spots<I: ImageBytes>(
    image: &mut I,
    client: &Rounds,
    b: u16,
    spots: &[Spot],
) -> Result<ArrayVec<Sent, MOST_PACKETS>, Failed>
    requires few { length spots.now ≤ most_packets }
    requires can { CanRead client.now.sending (I.image image.old) }
    requires within { All (λ (spot : Spot). Within client.now.sending b spot.chunk) spots.now }
    ensures gives { IfOk result (λ sents. IfSome (I.image image.old).octets (λ octets. sents_of client.now.sending client.now.purpose sents.items ≡ map (sent_for client.now.sending octets) (items_of b spots.now))) }
    ensures octets { IfOk result (λ sents. HaveOctets sents.items) }
    ensures same { IsSame (I.image image.old) (I.image image.new) }
    ensures fails { OnErr result (IsTrue (I.image image.old).can_fail) }
    ensures cause { HasCause (I.image image.old).faults (I.image image.new).faults result }
    ensures stays { I.stays image.old image.new }
{
    let mut sents = ArrayVec::new();
    for spot in spots {
        sents.push(read_spot(image, client, b, *spot)?);
    }
    Ok(sents)
}
