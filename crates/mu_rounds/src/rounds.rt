// The machine.
use crate::left::Left;
use arrayvec::ArrayVec;
use mu_model_client::{Place, Purpose, Sending};
use mu_receivers::Slot;

/// A client: what it sends and what for, its receivers, and where it is in its steps.
#[derive(Drop)]
pub struct Rounds {
    pub sending: Sending,
    pub purpose: Purpose,
    pub slots: ArrayVec<Slot, 128>,
    pub place: Place,
    /// The chunks of the present list that are still to be sent; none where messages are, or nothing.
    pub left: Option<Left>,
    /// When the round began, and the greatest moment that was handed in, in milliseconds.
    pub began: u64,
    pub moment: u64,
}
