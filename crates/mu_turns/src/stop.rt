// Why turns ended early.

/// Why a member failed.
#[derive(Clone, Copy, Debug, PartialEq, Eq)]
pub enum Fault {
    /// A call of its flash failed.
    Flash,
    /// A record was due at the last count of its flash.
    Worn,
}

/// A call of the link failed, or the member did.
#[derive(Clone, Copy, Debug, PartialEq, Eq)]
pub enum Stop {
    Link,
    Member(Fault),
}
