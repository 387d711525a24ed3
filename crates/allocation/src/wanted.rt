// What is looked for: a free data block, or a free root place.
ghost use Rattle.std.specs.Prelude.{◌≡◌, ℕ, Bool};
ghost use Rattle.allocation.specs.Choosing.{free_block, free_root};
ghost use Rattle.map.specs.declared.entry.Entry.{Entry as MapEntry};

use journal::{Row, position_of};
use map::{Entry, is_data_block, is_root_place};

/// A test of an address and its entry.
pub trait Wanted {
    // The addresses and entries that pass.
    ghost passes: { Self → ℕ → MapEntry → Bool };

    /// Whether this address, with this entry, will do.
    fn fits(&self, a: u16, entry: Entry) -> bool
        ensures { result ≡ passes self.now a entry };
}

/// A free data block that no row holds.
#[derive(Clone, Copy)]
pub struct FreeBlock {
    pub rows: [Row; 64],
}

impl Wanted for FreeBlock {
    ghost passes = { λ s. free_block s.rows };

    fn fits(&self, a: u16, entry: Entry) -> bool {
        is_data_block(u32::from(a)) && entry == Entry::Free && position_of(&self.rows, a).is_none()
    }
}

/// A free root place.
#[derive(Clone, Copy)]
pub struct FreeRoot;

impl Wanted for FreeRoot {
    ghost passes = { λ s. free_root };

    fn fits(&self, a: u16, entry: Entry) -> bool {
        is_root_place(u32::from(a)) && entry == Entry::Free
    }
}
