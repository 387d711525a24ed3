// What the rows of a transaction say.
ghost use Rattle.std.specs.Prelude.{◌≡◌};
ghost use Rattle.journal.specs.Rows.{is_touched, is_new, cleared_row, row_of, position_of, new_address, new_addresses};
ghost use Rattle.journal.specs.declared.row.Row.TheVariants.{New};

use crate::row::Row;
use std::array;

impl Row {
    /// Whether the position is to change.
    pub fn is_touched(self) -> bool
        ensures { result ≡ is_touched self }
    {
        self != Row::Untouched
    }

    /// The position is to have this new block.
    pub fn renew(&mut self, block: u16)
        ensures { self.new ≡ New block }
    {
        *self = Row::New(block);
    }

    /// The position is to have no block; if it has none now, it is untouched.
    pub fn clear(&mut self, has_block: bool)
        ensures { self.new ≡ cleared_row has_block }
    {
        *self = if has_block {
            Row::Cleared
        } else {
            Row::Untouched
        };
    }

    /// The address that the position is to have, where it has `old`.
    pub fn address(self, old: u16) -> u16
        ensures { result ≡ new_address self old }
    {
        match self {
            Row::Untouched => old,
            Row::New(block) => block,
            Row::Cleared => 0,
        }
    }

    // Whether the row holds this new block.
    fn is_new(self, a: u16) -> bool
        ensures { result ≡ is_new a self }
    {
        self == Row::New(a)
    }
}

/// The row of a position; past the last one there is none.
pub fn row_of(rows: &[Row; 64], position: u8) -> Row
    ensures { result ≡ row_of rows.now position }
{
    rows.get(usize::from(position))
        .copied()
        .unwrap_or(Row::Untouched)
}

/// The position whose row holds this new block.
pub fn position_of(rows: &[Row; 64], a: u16) -> Option<u8>
    ensures { result ≡ position_of rows.now a }
{
    rows.iter().position(|row| row.is_new(a)).map(|p| p as u8)
}

/// The addresses that the positions are to have.
pub fn new_addresses(rows: &[Row; 64], old: &[u16; 64]) -> [u16; 64]
    ensures { result ≡ new_addresses rows.now old.now }
{
    array::from_fn(|p| rows[p].address(old[p]))
}
