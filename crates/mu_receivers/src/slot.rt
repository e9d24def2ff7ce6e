// A receiver as a client keeps it.
use mu_model_client::Standing;
use mu_report::NumberSet;

/// How a receiver stood before a time event.
#[derive(Clone, Copy, Debug, PartialEq, Eq)]
pub struct Was {
    pub phase: u8,
    pub standing: Standing,
    pub pending: bool,
    pub heard: bool,
    pub silent: u8,
    pub wants: bool,
    pub listed: bool,
}

/// A receiver: its row, how it stands, what it misses as the client knows, and what is still to be sent to it.
#[derive(Drop)]
pub struct Slot {
    pub address: u16,
    /// The index of the image.
    pub index: u8,
    /// An update phase, 0..10.
    pub phase: u8,
    pub update_status: u8,
    pub transfer_status: u8,
    /// The per cent of blocks held.
    pub progress: u8,
    pub standing: Standing,
    /// It hasn't answered the step.
    pub pending: bool,
    /// It was heard in this round, in pull.
    pub heard: bool,
    /// Silent rounds of the step.
    pub silent: u8,
    /// Fruitless answers to Block Get, in a row.
    pub barren: u8,
    /// The blocks that it misses.
    pub blocks: NumberSet,
    /// The chunks of the block that it misses.
    pub chunks: NumberSet,
    /// Whether it asked for chunks, in pull, and for which.
    pub wants: bool,
    pub wanted: NumberSet,
    /// Its message of the round's list is still to go.
    pub listed: bool,
    /// The chunks that the present list has for it.
    pub asked: NumberSet,
    pub was: Was,
}

impl Default for Slot {
    fn default() -> Slot {
        Slot {
            address: 0,
            index: 0,
            phase: 10,
            update_status: 0,
            transfer_status: 0,
            progress: 0,
            standing: Standing::Idle,
            pending: false,
            heard: false,
            silent: 0,
            barren: 0,
            blocks: NumberSet::new(0),
            chunks: NumberSet::new(0),
            wants: false,
            wanted: NumberSet::new(0),
            listed: false,
            asked: NumberSet::new(0),
            was: Was {
                phase: 10,
                standing: Standing::Idle,
                pending: false,
                heard: false,
                silent: 0,
                wants: false,
                listed: false,
            },
        }
    }
}
