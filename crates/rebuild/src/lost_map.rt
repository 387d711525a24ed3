// The lost map of one cylinder, taken from root blocks, and its commit bits, noted from other maps.
ghost use Rattle.std.specs.Prelude.{◌≡◌, ◌-◌, ◌*◌, if◌then◌else◌, slice_index, Some, None};
ghost use Rattle.map.specs.Addresses.{sector_of};
ghost use Rattle.rebuild.specs.Noting.{no_places, in_lost, place_kept, shown_by, owner_root, bit_noted, bits_noted};
ghost use Rattle.rebuild.specs.Taking.{empty_map, none_twice, held_in, twice_in, held_from, twice_from, root_in_map, root_taken, root_twice, lowest_twice};

use map::{DataState, Entry, Identifier, is_data_block, is_root_place, join, split};
use object::{Root, RootBlock};
use volume::with_commit_bit;

/// The lost map of a cylinder as far as it is rebuilt.
#[derive(Drop)]
pub struct LostMap {
    /// The cylinder.
    pub cylinder: u8,
    /// The entries so far.
    // Apart from `twice`: they are stored as a whole map.
    pub entries: [Entry; 32],
    /// Which sectors more than one root place and position hold.
    pub twice: [bool; 32],
    /// The root blocks of the cylinder, by sector, as far as they were kept.
    pub places: [RootBlock; 4],
}

impl LostMap {
    /// The map of a cylinder that holds nothing, with no root block kept.
    pub fn new(cylinder: u8) -> LostMap
        ensures cylinder { result.cylinder ≡ cylinder }
        ensures entries { result.entries ≡ empty_map }
        ensures twice { result.twice ≡ none_twice }
        ensures places { result.places ≡ no_places }
    {
        let mut entries = [Entry::Free; 32];
        entries[0] = Entry::Map;
        LostMap {
            cylinder,
            entries,
            twice: [false; 32],
            places: [RootBlock::Dead; 4],
        }
    }

    /// Takes what a root block says of the map: its own root entry, and the data blocks that it holds.
    /// Root blocks are handed in by ascending address.
    pub fn take_root(&mut self, r: u32, root: &RootBlock)
        ensures { self.new ≡ record self.old {
          entries = root_taken self.old.cylinder r (Some root.now) self.old.entries;
          twice = root_twice self.old.cylinder r (Some root.now) self.old.entries self.old.twice;
        } }
    {
        let RootBlock::Live(live) = root else {
            return;
        };
        if !is_root_place(r) {
            return;
        }
        self.put_root(r, live);
        self.hold_all(live.id, &live.blocks);
    }

    // The root entry of an object whose root place is in the cylinder.
    fn put_root(&mut self, r: u32, root: &Root)
        ensures { self.new ≡ record self.old { entries = root_in_map self.old.cylinder r root.now.kind root.now.id.tag self.old.entries } }
    {
        let (of, sector) = split(r);
        if of == u32::from(self.cylinder) {
            self.entries[sector as usize] = Entry::of_root(root.kind, root.id.tag());
        }
    }

    // Gives a data block of the cylinder to the first that holds it; any other makes it held twice.
    fn hold(&mut self, id: Identifier, position: u8, a: u16)
        ensures { self.new ≡ record self.old {
          entries = held_in self.old.cylinder id position a self.old.entries;
          twice = twice_in self.old.cylinder a self.old.entries self.old.twice;
        } }
    {
        let (of, sector) = split(u32::from(a));
        if of != u32::from(self.cylinder) || !is_data_block(u32::from(a)) {
            return;
        }
        let s = sector as usize;
        if self.entries[s] == Entry::Free {
            self.entries[s] = Entry::Data {
                state: DataState::Allocated,
                position,
                owner: id,
            };
        } else {
            self.twice[s] = true;
        }
    }

    // The same for the addresses of an object's positions.
    fn hold_all(&mut self, id: Identifier, blocks: &[u16; 64])
        ensures { self.new ≡ record self.old {
          entries = held_from self.old.cylinder id 0 blocks.now self.old.entries;
          twice = twice_from self.old.cylinder id 0 blocks.now self.old.entries self.old.twice;
        } }
    {
        for (p, a) in blocks.iter().enumerate() {
            self.hold(id, p as u8, *a);
        }
    }

    /// The lowest address of the cylinder that is held twice.
    pub fn lowest_twice(&self) -> Option<u16>
        ensures { result ≡ lowest_twice self.now.cylinder self.now.twice }
    {
        self.twice
            .iter()
            .position(|held| *held)
            .map(|s| join(self.cylinder, s as u8))
    }

    // Which of the kept root blocks is that of a root place, if it is one of the cylinder.
    fn place_index(&self, r: u32) -> Option<usize>
        ensures { result ≡ (if in_lost self.now.cylinder r then Some (sector_of r - 1) else None) }
    {
        let (of, sector) = split(r);
        if of == u32::from(self.cylinder) && is_root_place(r) {
            Some(sector as usize - 1)
        } else {
            None
        }
    }

    /// Keeps a root block of the cylinder, by its sector.
    pub fn keep_place(&mut self, r: u32, root: &RootBlock)
        ensures { self.new ≡ record self.old { places = place_kept self.old.cylinder r (Some root.now) self.old.places } }
    {
        if let Some(i) = self.place_index(r) {
            self.places[i] = *root;
        }
    }

    // Sets the commit bit of the root that shows the intention of the entry at b performed, if its root
    // block is one of the cylinder and the entry is not.
    fn note_bit(&mut self, b: u16, entry: Entry)
        ensures { self.new ≡ record self.old { entries = bit_noted self.old.cylinder self.old.places b entry self.old.entries } }
    {
        let Entry::Data { owner, .. } = entry else {
            return;
        };
        let Some(i) = self.place_index(owner.root()) else {
            return;
        };
        if b / 32 != u16::from(self.cylinder) && is_shown(&self.places[i], b, entry) {
            self.entries[i + 1] = with_commit_bit(self.entries[i + 1]);
        }
    }

    /// Notes the commit bits that the entries of another cylinder's map show.
    pub fn note_bits(&mut self, other: u8, map: &[Entry; 32])
        ensures { self.new ≡ record self.old { entries = bits_noted self.old.cylinder self.old.places (32 * other) map.now self.old.entries } }
    {
        for (s, held) in map.iter().enumerate() {
            self.note_bit(join(other, s as u8), *held);
        }
    }
}

// The address of a position, or 0.
fn address_of(blocks: &[u16; 64], position: u8) -> u16
    ensures { result ≡ slice_index blocks.now position }
{
    blocks.get(usize::from(position)).copied().unwrap_or(0)
}

// Whether a root block shows that the intention of an entry at b of its object is performed.
fn is_shown(root: &RootBlock, b: u16, entry: Entry) -> bool
    ensures { result ≡ shown_by root.now (owner_root entry) b entry }
{
    let (
        RootBlock::Live(live),
        Entry::Data {
            state,
            position,
            owner,
        },
    ) = (root, entry)
    else {
        return false;
    };
    let held = address_of(&live.blocks, position) == b;
    let performed = match state {
        DataState::Allocated => false,
        DataState::IntendingToAllocate => held,
        DataState::IntendingToDeallocate => !held,
    };
    performed && live.id.tag() == owner.tag()
}
