// What the rebuilt map is, each law named by a function's contract.
ghost use Rattle.rebuild.specs.Laws.{RebuildLaw, VolumeLaw, TwiceLaw, LowestLaw, PassLaw};
ghost use Rattle.rebuild.specs.Worked.{RebuildingWorked};

/// With every root block taken and every other map noted, the lost map is the one that the root
/// blocks give back.
pub fn rebuilt_map_is_given_back()
    ensures { RebuildLaw }
{}

/// Of a volume whose lowest lost map is this one, it is the map that a restart goes by.
pub fn restart_goes_by_the_rebuilt_map()
    ensures { VolumeLaw }
{}

/// A data block is held twice exactly if two root places and positions hold it, and the lowest such
/// block is named.
pub fn block_held_twice_is_found()
    ensures twice { TwiceLaw }
    ensures lowest { LowestLaw }
{}

/// One pass over the root places takes every root block, and one over the other maps notes every
/// commit bit.
pub fn one_pass_takes_all()
    ensures { PassLaw }
{}

/// A save whose commit bit is found again, and a block held twice.
pub fn rebuilding_examples_hold()
    ensures { RebuildingWorked }
{}
