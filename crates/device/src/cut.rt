// A cut of a trial drive's power.
use crate::answers::Manner;

/// Power fails during one store. A drive counts the stores that pass its tests from 1 on since it
/// was last lit; number 0 never comes, so such a cut never happens.
#[derive(Clone, Copy, PartialEq, Eq, Debug)]
pub struct Cut {
    /// The number of the store that is cut.
    // 0 and no Option for none: a drive has eight places for cuts, and numbers count from 1
    pub at: u32,
    /// How that store leaves its block.
    pub manner: Manner,
}

impl Cut {
    /// The cut that never happens.
    pub const NEVER: Cut = Cut {
        at: 0,
        manner: Manner::Old,
    };
}
