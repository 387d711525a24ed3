// What formatting leaves, named by functions' contracts.
ghost use Rattle.formatting.specs.EmptyVolume.{FormatLaw};
ghost use Rattle.formatting.specs.Formatting.{FormatOrder};

/// Formatting two cylinders stores at blocks 1, 2, 3, 4 and 0, then at 33, 34, 35, 36 and 32.
pub fn format_stores_maps_last()
    ensures { FormatOrder }
{}

/// Whatever a device of whole cylinders held, its blocks after every store of formatting are a
/// complete volume at rest: its root index, at block 1, has the tag and reads as zeros, and there is
/// no other object.
pub fn format_makes_an_empty_volume()
    ensures { FormatLaw }
{}
