// Finding an object by its identifier.
ghost use Rattle.std.specs.Prelude.{◌≡◌};
ghost use Rattle.journal.specs.Carried.{TellsAll};
ghost use Rattle.lookup.specs.Finding.{found_root, found_by, found, no_blocks, held};
ghost use Rattle.volume.specs.Volume.{entry_at, root_at};

use device::{Device, PowerCut};
use journal::{cylinders, load_map, load_root};
use map::{Entry, Identifier, Kind, RootState, is_root_place, split};
use object::{Root, RootBlock};

// The object that a root block says, if it is live with this identifier.
fn object_in(id: Identifier, kind: Kind, root: Option<RootBlock>) -> Option<Root>
    ensures { result ≡ found_root id kind root }
{
    match root {
        Some(RootBlock::Live(root)) if root.id == id => { Some(Root { kind, ..root }) }
        _ => None,
    }
}

// The entry of an address; free where its map cannot be used.
fn entry_of<D: Device>(device: &D, a: u32) -> Result<Entry, PowerCut>
    ensures { TellsAll D.Device device.now (λ all. entry_at all a) result }
{
    let (cylinder, sector) = split(a);
    let Ok(cylinder) = u8::try_from(cylinder) else {
        return Ok(Entry::Free);
    };
    let entries = load_map(device, cylinder, cylinders(device))?;
    let entry = entries
        .as_ref()
        .map_or(Entry::Free, |entries| entries[sector as usize]);
    Ok(entry)
}

// The root block of an address; none where it cannot be used or is no root place.
fn root_of<D: Device>(device: &D, a: u32) -> Result<Option<RootBlock>, PowerCut>
    ensures { TellsAll D.Device device.now (λ all. root_at all a) result }
{
    if is_root_place(a) {
        load_root(device, a, cylinders(device))
    } else {
        Ok(None)
    }
}

// The object that a root entry and a root block say.
fn object_by(id: Identifier, entry: Entry, root: Option<RootBlock>) -> Option<Root>
    ensures { result ≡ found_by id entry root }
{
    match entry {
        Entry::Root {
            state: RootState::Allocated,
            kind,
            tag,
            ..
        } if tag == id.tag() => object_in(id, kind, root),
        _ => None,
    }
}

/// The object of this identifier, if it exists.
pub fn find<D: Device>(device: &D, id: Identifier) -> Result<Option<Root>, PowerCut>
    ensures { TellsAll D.Device device.now (λ all. found all id) result }
{
    let entry = entry_of(device, id.root())?;
    let root = root_of(device, id.root())?;
    Ok(object_by(id, entry, root))
}

/// No position has a block.
pub fn no_blocks() -> [u16; 64]
    ensures { result ≡ no_blocks }
{
    [0; 64]
}

/// The object of this identifier; one without blocks if it does not exist.
pub fn held<D: Device>(device: &D, id: Identifier) -> Result<Root, PowerCut>
    ensures { TellsAll D.Device device.now (λ all. held all id) result }
{
    let blank = Root {
        id,
        kind: Kind::Special,
        blocks: no_blocks(),
    };
    Ok(find(device, id)?.unwrap_or(blank))
}
