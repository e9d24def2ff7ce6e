// What waits for an address of a link in memory.
ghost use Rattle.std.specs.Prelude.{◌≡◌, ◌<◌, ◌≤◌, ℕ, true, Some, None, IfSome, IfNone, length, drop, slice_index_or};
ghost use Rattle.std.specs.Option.{is_some};
ghost use Rattle.mu_outside.specs.Link.{found_of};
ghost use Rattle.mu_outside.specs.RamLink.{goes_to, passed, is_posted, waiting, IsPost};

use crate::Incoming;
use crate::ram_link::{Datagram, Post};
use arrayvec::ArrayVec;

// Whether the datagram goes to this address.
fn is_for(datagram: &Datagram, addr: u16) -> bool
    ensures { result ≡ goes_to addr datagram.now.from datagram.now.to }
{
    datagram.to == addr || (datagram.to >= 0xc000 && datagram.from != addr)
}

// The place of the first datagram for this address behind so many, or the end.
pub(crate) fn next_for(sent: &[Datagram], addr: u16, passed: usize) -> usize
    requires { passed ≤ length sent.now }
    ensures within { result ≤ length sent.now }
    ensures skips { waiting addr (drop passed sent.now) ≡ waiting addr (drop result sent.now) }
    ensures found { (d : Datagram) → result < length sent.now → goes_to addr (slice_index_or sent.now result d).from (slice_index_or sent.now result d).to ≡ true }
{
    for place in passed..sent.len() {
        if is_for(&sent[place], addr) {
            return place;
        }
    }
    sent.len()
}

// Where the address stands, if it is bound.
pub(crate) fn post_of(posts: &[Post], addr: u16) -> Option<usize>
    ensures bound { is_some result ≡ is_posted (passed posts.now addr) }
    ensures none { IfNone result (passed posts.now addr ≡ None) }
    ensures some { IfSome result (λ k. IsPost posts.now addr k) }
{
    for (place, post) in posts.iter().enumerate() {
        if post.addr == addr {
            return Some(place);
        }
    }
    None
}

// Another of the same.
pub(crate) fn copied(found: &Incoming) -> Incoming
    ensures { found_of result ≡ found_of found.now }
{
    match found {
        Incoming::Datagram(octets) => {
            let mut copy = ArrayVec::new();
            let _fits = copy.try_extend_from_slice(octets.as_slice());
            Incoming::Datagram(copy)
        }
        Incoming::Quiet => Incoming::Quiet,
    }
}

// The datagram as a `receive` answers it.
pub(crate) fn incoming(datagram: &Datagram) -> Incoming
    ensures { found_of result ≡ Some datagram.now.octets.items }
{
    let mut octets = ArrayVec::new();
    let _fits = octets.try_extend_from_slice(datagram.octets.as_slice());
    Incoming::Datagram(octets)
}
