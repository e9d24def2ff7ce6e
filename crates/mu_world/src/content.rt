// The images of a script's nodes.
ghost use Rattle.std.specs.Prelude.{◌≡◌, ◌≤◌, length, IfOk, IfErr, OnOk, None};
ghost use Rattle.mu_model_world.specs.Judged.{against_content};
ghost use Rattle.mu_model_world.specs.Outcomes.{content_octets};
ghost use Rattle.mu_script.specs.View.{content};
ghost use Rattle.mu_world.specs.Outcome.{Objects};

use crate::fault::WorldFault;
use arrayvec::ArrayVec;
use mu_image::make_image;
use mu_model_image::laws;
use mu_model_script::BadWhy;
use mu_script::Content;
use std::alloc::{AllocError, Global};

/// The octets of a page of flash.
const PAGE_OCTETS: u32 = 4096;

/// An image that a node is made with.
#[derive(Drop)]
pub(crate) struct First {
    pub(crate) version: u32,
    pub(crate) content: Content,
}

/// How many octets a script's image has.
pub(crate) fn image_size(image: &Content) -> u32
    ensures { result ≡ length (content_octets (content image.now)) }
{
    laws::made();
    match image {
        Content::Hex(octets) => octets.len() as u32,
        Content::Made { size, .. } => *size,
    }
}

/// The octets of a script's image.
pub(crate) fn image_octets(alloc: Global, image: &Content) -> Result<Vec<u8>, AllocError>
    ensures { IfOk result (λ octets. octets.items ≡ content_octets (content image.now)) }
{
    match image {
        Content::Hex(octets) => Vec::from_slice(alloc, octets.as_slice()),
        Content::Made { seed, size } => make_image(alloc, *seed, *size),
    }
}

/// The same image once more.
pub(crate) fn image_copy(image: &Content) -> Content
    ensures { content result ≡ content image.now }
{
    match image {
        Content::Hex(octets) => Content::Hex(copied(octets)),
        Content::Made { seed, size } => Content::Made {
            seed: *seed,
            size: *size,
        },
    }
}

fn copied(octets: &ArrayVec<u8, 1024>) -> ArrayVec<u8, 1024>
    ensures { result.items ≡ octets.now.items }
{
    let mut copy = ArrayVec::new();
    if copy.try_extend_from_slice(octets.as_slice()).is_err() {
        prove!(false);
    }
    copy
}

/// That a content isn't past a bank of so many pages. The token of this number gives the content.
pub(crate) fn fits(token: u8, pages: u16, image: &Content) -> Result<(), WorldFault>
    requires { pages ≤ 256 }
    ensures ok { OnOk result (against_content token pages (content image.now) ≡ None) }
    ensures err { IfErr result (Objects (against_content token pages (content image.now))) }
{
    if image_size(image) > PAGE_OCTETS * u32::from(pages) {
        return Err(WorldFault::Bad {
            token,
            why: BadWhy::Token,
        });
    }
    Ok(())
}
