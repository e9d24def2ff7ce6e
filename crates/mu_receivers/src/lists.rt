// A list of chunks, from a place on.
ghost use Rattle.std.specs.Prelude.{[], ◌≡◌, ℕ, ◌≤◌, ◌<◌, ◌++◌, false, length, drop, IfSome};
ghost use Rattle.std.specs.Option.{MatchOption};
ghost use Rattle.arrayvec.specs.ArrayVec.{array_vec_len};
ghost use Rattle.mu_model_wire.specs.Reports.{has};
ghost use Rattle.mu_model_client.specs.Going.{is_empty, most_packets};
ghost use Rattle.mu_receivers.specs.Chunks.{AreBelow, asking, line, items_of, rest};

use crate::slot::Slot;
use arrayvec::ArrayVec;

/// Packets that a time event of a client sends at most (this profile).
pub const MOST_PACKETS: usize = 16;

/// A chunk and where it goes.
#[derive(Clone, Copy, Debug, Default, PartialEq, Eq)]
pub struct Spot {
    pub to: u16,
    pub chunk: u16,
}

// Goes along the receivers for chunk `k` of block `b` from `from` on until the list is full, and answers where it stopped.
fn go_along(
    slots: &[Slot],
    group: u16,
    b: u16,
    k: u16,
    from: usize,
    spots: &mut ArrayVec<Spot, MOST_PACKETS>,
) -> usize
    requires within { from ≤ length slots.now }
    requires few { length spots.old.items ≤ most_packets }
    ensures few { length spots.new.items ≤ most_packets }
    ensures below { (m : ℕ) → k < m → AreBelow m spots.old.items → AreBelow m spots.new.items }
    ensures most { result ≤ length slots.now }
    ensures line { items_of b spots.new.items ++ line group b k (drop result slots.now) ≡ items_of b spots.old.items ++ line group b k (drop from slots.now) }
    ensures full { result < length slots.now → array_vec_len spots.new ≡ most_packets }
    ensures some { result < length slots.now → is_empty (line group b k (drop result slots.now)) ≡ false }
{
    let mut i = from;
    while i < slots.len() {
        let slot = &slots[i];
        if slot.asked.contains(k) {
            if spots.is_full() {
                return i;
            }
            if group == 0 {
                spots.push(Spot {
                    to: slot.address,
                    chunk: k,
                });
                i += 1;
            } else {
                spots.push(Spot {
                    to: group,
                    chunk: k,
                });
                i = slots.len();
            }
        } else {
            i += 1;
        }
    }
    i
}

// The least chunk from `k` on that the list has, or `n`.
fn next_asked(slots: &[Slot], n: u16, k: u16) -> u16
    requires { k ≤ n }
    ensures from { k ≤ result }
    ensures most { result ≤ n }
    ensures none { (m : ℕ) → k ≤ m → m < result → asking slots.now m ≡ [] }
{
    let mut least = n;
    for slot in slots {
        least = least_of(slot, k, least);
    }
    least
}

// The least chunk from `k` on that the list has for the receiver, or `least` where that is less.
fn least_of(slot: &Slot, k: u16, least: u16) -> u16
    requires { k ≤ least }
    ensures from { k ≤ result }
    ensures most { result ≤ least }
    ensures none { (m : ℕ) → k ≤ m → m < result → has slot.now.asked m ≡ false }
{
    match slot.asked.first_from(k) {
        Some(number) if number < least => number,
        _ => least,
    }
}

/// Where a list goes on: at this receiver of this chunk.
#[derive(Clone, Copy, Debug, PartialEq, Eq)]
pub struct Cursor {
    pub chunk: u16,
    pub receiver: u8,
}

/// Chunks that are to be sent now, and where the list goes on, if it does.
#[derive(Drop)]
pub struct Spots {
    pub spots: ArrayVec<Spot, MOST_PACKETS>,
    pub next: Option<Cursor>,
}

/// The next chunks of a list, as many as a time event sends, from a place on, or all, and the place behind them where more are left.
pub fn spots_from(slots: &[Slot], group: u16, b: u16, n: u16, from: Cursor) -> Spots
    requires few { length slots.now ≤ 128 }
    requires within { from.receiver ≤ length slots.now }
    ensures all { MatchOption result.next (items_of b result.spots.items ≡ rest group b n slots.now from.chunk from.receiver) (λ next. items_of b result.spots.items ++ rest group b n slots.now next.chunk next.receiver ≡ rest group b n slots.now from.chunk from.receiver) }
    ensures more { IfSome result.next (λ next. is_empty (rest group b n slots.now next.chunk next.receiver) ≡ false) }
    ensures full { IfSome result.next (λ next. length result.spots.items ≡ most_packets) }
    ensures few { length result.spots.items ≤ most_packets }
    ensures below { AreBelow n result.spots.items }
    ensures within { IfSome result.next (λ next. next.receiver ≤ length slots.now) }
{
    let mut spots = ArrayVec::new();
    let mut k = from.chunk;
    let mut i = from.receiver as usize;
    while k < n {
        i = go_along(slots, group, b, k, i, &mut spots);
        if i < slots.len() {
            return Spots {
                spots,
                next: Some(Cursor {
                    chunk: k,
                    receiver: i as u8,
                }),
            };
        }
        i = 0;
        k = next_asked(slots, n, k + 1);
    }
    Spots { spots, next: None }
}

/// Where the list of the chunks of block `b` begins, if it has a chunk.
pub fn first_cursor(slots: &[Slot], group: u16, b: u16, n: u16) -> Option<Cursor>
    requires few { length slots.now ≤ 128 }
    ensures list { MatchOption result (rest group b n slots.now 0 0 ≡ []) (λ at. rest group b n slots.now at.chunk at.receiver ≡ rest group b n slots.now 0 0) }
    ensures some { IfSome result (λ at. is_empty (rest group b n slots.now at.chunk at.receiver) ≡ false) }
    ensures within { IfSome result (λ at. at.receiver ≤ length slots.now) }
{
    let start = Cursor {
        chunk: 0,
        receiver: 0,
    };
    let found = spots_from(slots, group, b, n, start);
    if found.spots.is_empty() {
        None
    } else {
        Some(start)
    }
}
