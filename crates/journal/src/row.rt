// The rows of a transaction.

/// What a transaction is to do with one position.
#[derive(Clone, Copy, PartialEq, Eq, Debug)]
pub enum Row {
    /// The position stays as it is.
    Untouched,
    /// It is to have this new block.
    New(u16),
    /// It is to have no block.
    Cleared,
}
