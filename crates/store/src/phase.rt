// Where a store stands, and what a call asks of that.
use map::Identifier;

/// Where a store stands.
#[derive(Clone, Copy, PartialEq, Eq, Debug)]
pub enum Phase {
    /// No call but format is taken.
    Down,
    /// Up, with no transaction.
    Idle,
    /// A transaction on this object is open.
    Open(Identifier),
    /// A transaction on this object is committed, and waits to be settled.
    Waiting(Identifier),
}

/// What a call asks of the phase; a ticket names the transaction that is asked for.
#[derive(Clone, Copy, PartialEq, Eq, Debug)]
pub enum Asked {
    /// That the store is up.
    Up,
    /// That it is up, with no transaction.
    Idle,
    /// That a transaction on this object is open.
    Open(Identifier),
    /// That a transaction on this object waits.
    Waiting(Identifier),
}
