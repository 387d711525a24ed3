// The laws about lists of stores, each named by a function's contract.
ghost use Rattle.recovery.specs.Committing.{CommitPlanLaw};
ghost use Rattle.recovery.specs.Creating.{CreatePlanLaw};
ghost use Rattle.recovery.specs.Finishing.{FinishLaw};
ghost use Rattle.recovery.specs.Staging.{StageLaw};

/// The stores of a commit change one object of a volume at rest to what the transaction asked for, and
/// nothing else. Power that fails anywhere among them leaves all of that change or none of it.
pub fn commit_is_all_or_nothing()
    ensures { CommitPlanLaw }
{}

/// The stores of a create add an empty object to a volume at rest, change no other, and leave the
/// volume at rest. Power that fails anywhere among them leaves the new object there or not.
pub fn create_is_all_or_nothing()
    ensures { CreatePlanLaw }
{}

/// A store at a free data block of a volume at rest, done or cut in any manner, leaves it at rest with
/// the same entries, root blocks and objects.
pub fn staging_changes_nothing()
    ensures { StageLaw }
{}

/// Settling every map that needs it and then clearing every commit bit brings a complete volume
/// whose root blocks agree to rest, with the same objects; power that fails anywhere in between
/// leaves a volume that means the same.
pub fn finish_keeps_what_counts()
    ensures { FinishLaw }
{}
