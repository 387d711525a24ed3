// The laws that make a cut harmless, each named by a function's contract.
ghost use Rattle.volume.specs.Changing.{BitStoreLaw, RemovalStoreLaw, CreateStoreLaw, InPlaceLaw, CompleteKept, AgreeKept};
ghost use Rattle.volume.specs.Committing.{CommitLaw, RemovalLaw, CreateLaw};
ghost use Rattle.volume.specs.Laws.{SettlingLaw, ClearingLaw, IntentionLaw};
ghost use Rattle.volume.specs.MapStores.{TornMapLaw, MapStoreLaw};
ghost use Rattle.volume.specs.Meeting.{MeetingLaw};
ghost use Rattle.volume.specs.Preparing.{WrittenMapLaw, NoPositionLaw, LeftAlone, RootStoreLaw};
ghost use Rattle.volume.specs.Rebuilding.{LostMapLaw};
ghost use Rattle.volume.specs.Recoverable.{KeptByStores};
ghost use Rattle.volume.specs.Repeating.{Once, LostAccepted};
ghost use Rattle.volume.specs.Stores.{DataBlockLaw, FreeBlockLaw, RootBlockLaw};

/// Settling any of the maps, in any order, changes nothing that a restart would show.
pub fn settling_keeps_what_counts()
    ensures { SettlingLaw }
{}

/// With no intention left, clearing commit bits changes nothing that a restart would show.
pub fn clearing_keeps_what_counts()
    ensures { ClearingLaw }
{}

/// Intentions of objects whose commit bit is not set change nothing that a restart would show.
pub fn intentions_keep_what_counts()
    ensures { IntentionLaw }
{}

/// Setting the commit bit of an object gives each of its positions the block that its intentions
/// say, and changes no other object.
pub fn commit_changes_one_object()
    ensures { CommitLaw }
{}

/// Setting the commit bit of a root place that is to be deallocated removes its object, and
/// changes no other.
pub fn removal_removes_one_object()
    ensures { RemovalLaw }
{}

/// While root blocks agree with the maps, losing any one map changes nothing that a restart would
/// show: the map that root blocks give back counts the same.
pub fn lost_map_is_given_back()
    ensures { LostMapLaw }
{}

/// A store at a data block, however it ends, changes what the positions show that the block counts
/// for, and nothing else; at a block that counts for none it changes nothing.
pub fn data_store_changes_one_block()
    ensures counts { DataBlockLaw }
    ensures free { FreeBlockLaw }
{}

/// While every map can be read, a store at a root place, however it ends, changes nothing that a
/// restart would show.
pub fn root_store_changes_nothing()
    ensures { RootBlockLaw }
{}

/// On a volume at rest, what a store reads through root blocks is what a restart would show, and a
/// data block is allocated exactly when one root block holds it, at one position.
pub fn volume_at_rest_shows_what_counts()
    ensures { MeetingLaw }
{}

/// A root entry at a free root place makes an empty object and changes no other.
pub fn create_adds_one_object()
    ensures { CreateLaw }
{}

/// A map that is stored whole changes its own cylinder's entries; one that is torn from a sound
/// volume changes nothing that a restart would show.
pub fn map_store_is_whole_or_harmless()
    ensures whole { MapStoreLaw }
    ensures torn { TornMapLaw }
{}

/// Settling, clearing or rebuilding a second time changes nothing.
pub fn twice_is_once()
    ensures { Once }
{}

/// Of a sound volume every root block can be used and no address is held twice, so whichever map is
/// lost can be rebuilt.
pub fn sound_volume_can_be_rebuilt()
    ensures { LostAccepted }
{}

/// Tearing a map, any store at a root place or at a data block that counts for nothing, and storing
/// a map by which the entries count the same keep a volume recoverable, with the same objects.
pub fn stores_keep_a_volume_recoverable()
    ensures { KeptByStores }
{}

/// The map stores of a commit, a removal and a create change one object of a complete volume and
/// leave it complete. Cut, they leave the objects as they were or with that one change; where the map
/// is torn, with the change, if root blocks already agree with the entries to come. A store in place
/// at a block of an object that is no index changes what that block's position shows, and nothing else.
pub fn stores_that_change_objects()
    ensures commit { BitStoreLaw }
    ensures removal { RemovalStoreLaw }
    ensures create { CreateStoreLaw }
    ensures written { InPlaceLaw }
{}

/// Stores at root places, at data blocks that count for nothing, and of maps by which the entries
/// count the same leave a volume complete; stores at data blocks and of such maps leave root blocks in
/// agreement. So the laws apply to the store that follows.
pub fn stores_that_follow_one_another()
    ensures complete { CompleteKept }
    ensures agree { AgreeKept }
{}

/// What the map stores that change an object ask for: a map with one entry changed says that change,
/// no position past the last has a block, stores elsewhere leave entries and root blocks alone, and
/// the root store that goes before makes root blocks agree with the entries to come.
pub fn what_goes_before_a_changing_store()
    ensures map { WrittenMapLaw }
    ensures positions { NoPositionLaw }
    ensures alone { LeftAlone }
    ensures root { RootStoreLaw }
{}
