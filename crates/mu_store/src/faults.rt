// What ends a call on a store.

/// Why a call stopped: a call of the flash failed, or a record is due and the count stands at 4,294,967,295.
#[derive(Clone, Copy, Debug, PartialEq, Eq)]
pub enum StoreFault {
    Flash,
    Worn,
}

/// A call that stopped, with the flash. The way on is `boot`.
#[derive(Drop)]
pub struct Stopped<F> {
    pub why: StoreFault,
    pub flash: F,
}
