// The bytes of one entry, and back.
ghost use Rattle.std.specs.Prelude.{◌≡◌};
ghost use Rattle.std.specs.Str.{bytes_eq};
ghost use Rattle.map.specs.Entries.{sixteen, encoded_entry, fits_entry, read_entry, decoded_entry};

use crate::address::{is_data_block, is_root_place, split};
use crate::entry::{DataState, Entry, RootState};
use crate::identifier::Identifier;
use crate::kind::Kind;

// State, kind, commit bit, position, four zeros, tag and address.
fn sixteen_bytes(state: u8, kind: u8, commit: u8, position: u8, tag: u32, root: u32) -> [u8; 16]
    ensures { result ≡ sixteen state kind commit position tag root }
{
    let t = tag.to_le_bytes();
    let r = root.to_le_bytes();
    [
        state, kind, commit, position, 0, 0, 0, 0, t[0], t[1], t[2], t[3], r[0], r[1], r[2], r[3],
    ]
}

impl Entry {
    /// The bytes of this entry at address `a`.
    pub fn encode(self, a: u32) -> [u8; 16]
        ensures { result ≡ encoded_entry a self }
    {
        match self {
            Entry::Map => sixteen_bytes(1, 0, 0, 0, 0, a / 32),
            Entry::Free => sixteen_bytes(0, 0, 0, 0, 0, 0),
            Entry::Root {
                state,
                kind,
                commit,
                tag,
            } => sixteen_bytes(u8::from(state), u8::from(kind), u8::from(commit), 0, tag, a),
            Entry::Data {
                state,
                position,
                owner,
            } => sixteen_bytes(u8::from(state), 0, 0, position, owner.tag(), owner.root()),
        }
    }

    // Whether address `a` may have this entry, in a volume of so many cylinders.
    fn fits(self, a: u32, cylinders: u32) -> bool
        ensures { result ≡ fits_entry cylinders a self }
    {
        let (_, sector) = split(a);
        match self {
            Entry::Map => sector == 0,
            Entry::Free => sector > 0,
            Entry::Root { tag, .. } => is_root_place(a) && tag > 0,
            Entry::Data {
                position,
                owner,
                ..
            } => is_data_block(a) && position < 64 && owner.root() / 32 < cylinders,
        }
    }

    // The entry that the bytes name. Values that no entry has are left for `decode` to find.
    fn read(part: &[u8; 16], a: u32) -> Option<Entry>
        ensures { result ≡ read_entry a part.now }
    {
        let (_, sector) = split(a);
        // two patterns: one of all these names is laid out a name to a line
        let [state, kind, commit, position, ..] = *part;
        let [.., t0, t1, t2, t3, r0, r1, r2, r3] = *part;
        let tag = u32::from_le_bytes([t0, t1, t2, t3]);
        let root = u32::from_le_bytes([r0, r1, r2, r3]);
        if sector == 0 {
            return Some(Entry::Map);
        }
        if state == 0 {
            return Some(Entry::Free);
        }
        if sector < 5 {
            return Some(Entry::Root {
                state: RootState::try_from(state).ok()?,
                kind: Kind::try_from(kind).ok()?,
                commit: commit == 1,
                tag,
            });
        }
        Some(Entry::Data {
            state: DataState::try_from(state).ok()?,
            position,
            owner: Identifier::new(tag, root)?,
        })
    }

    /// The entry whose bytes at address `a` are exactly these, if it is one that the address may
    /// have in a volume of so many cylinders.
    pub fn decode(part: &[u8], a: u32, cylinders: u32) -> Option<Entry>
        ensures { result ≡ decoded_entry cylinders a part.now }
    {
        let entry = Entry::read(part.as_array()?, a)?;
        (entry.fits(a, cylinders) && entry.is_written(a, part)).then_some(entry)
    }

    // Whether these are the bytes of this entry at address `a`.
    fn is_written(self, a: u32, part: &[u8]) -> bool
        ensures { result ≡ bytes_eq (encoded_entry a self) part.now }
    {
        self.encode(a).as_slice() == part
    }
}
