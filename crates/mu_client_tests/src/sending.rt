// A BLOB that is sent, with the image that its chunks are read from.
ghost use Rattle.std.specs.Prelude.{◌≡◌, ◌≤◌, ◌^◌, length};
ghost use Rattle.mu_told.specs.Told.{IsSendable};
ghost use Rattle.mu_client_messages.specs.Messages.{HasMode};

use crate::answers::{Shown, shown};
use arrayvec::ArrayVec;
use mu_blobcli::{BlobClient, FaultyImage, Sending};
use mu_blobmsg::{BlobMsg, in_range};
use mu_codec::Outbox;
use std::process::Abort;

/// A client, and the octets that it sends.
#[derive(Drop)]
pub(crate) struct Push<'a> {
    pub(crate) client: BlobClient,
    octets: &'a [u8],
    ghost sized: { client.sending.size ≡ length octets.now },
    ghost few: { length octets.now ≤ 2 ^ 20 },
}

impl<'a> Push<'a> {
    pub(crate) fn new(what: Sending, to: &[u16], octets: &'a [u8]) -> Push<'a>
        requires size { what.size ≡ length octets.now }
        requires few { length to.now ≤ 128 }
        requires range { IsSendable what }
        requires mode { HasMode what }
    {
        let client = BlobClient::start(what, to);
        Push { client, octets }
    }

    /// What a time event sends over an image whose reads with these numbers fail; none where it fails.
    pub(crate) fn event(&mut self, fails: &[u32], now: u64) -> Option<ArrayVec<Shown, 32>> {
        let mut image = FaultyImage::new(self.octets, fails);
        let mut out = Outbox::new();
        let result = self.client.on_time(&mut image, now, &mut out);
        let mut all = ArrayVec::new();
        for packet in out.iter() {
            if !all.is_full() {
                all.push(shown(packet.to, packet.payload.as_slice()));
            }
        }
        match result {
            Ok(()) => Some(all),
            Err(_) => None,
        }
    }

    /// What a time event sends.
    pub(crate) fn sent(&mut self, rt: &impl Abort, now: u64) -> ArrayVec<Shown, 32> {
        match self.event(&[], now) {
            Some(all) => all,
            None => {
                assert!(rt; false);
                ArrayVec::new()
            }
        }
    }

    pub(crate) fn tell(&mut self, rt: &impl Abort, from: u16, message: &BlobMsg, now: u64) {
        assert!(rt; in_range(message));
        self.client.on_blob(from, message, now);
    }
}
