// Examples, computed from the definitions.
ghost use Rattle.volume.specs.Counterexamples.{PremisesNeeded};
ghost use Rattle.volume.specs.Worked.{SaveWorked, PremisesHold, ShortcutsFail};
ghost use Rattle.volume.specs.WorkedVolume.{EntryPremises, BlockPremises};

/// A save across two cylinders: what counts at each step, and with either map lost. The
/// premises of the lost-map law hold of it. And three shortcuts that would mix two saves.
pub fn worked_save_holds()
    ensures save { SaveWorked }
    ensures premises { PremisesHold }
    ensures shortcuts { ShortcutsFail }
{}

/// The premises of the other laws hold of example volumes, so each law is about something.
pub fn premises_can_be_met()
    ensures entries { EntryPremises }
    ensures blocks { BlockPremises }
{}

/// Without any one of its premises the lost-map law is false: single claims, entries that fit,
/// root blocks that agree.
pub fn premises_are_needed()
    ensures { PremisesNeeded }
{}
