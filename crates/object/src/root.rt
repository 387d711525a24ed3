// Root blocks.
use map::{Identifier, Kind};

/// What the root block of an object says: its identifier, its kind, and for each position the
/// address of its block, or 0.
#[derive(Clone, Copy, PartialEq, Eq, Debug)]
pub struct Root {
    pub id: Identifier,
    pub kind: Kind,
    // 0 for none, as in the bytes, and as the definitions and laws of volumes say it
    pub blocks: [u16; 64],
}

/// A root block.
// no Option<Root>: what is decoded would be an Option of one, None if ill formed, Some(None) if dead
#[derive(Clone, Copy, PartialEq, Eq, Debug)]
pub enum RootBlock {
    /// 512 zeros.
    Dead,
    /// The root block of an object.
    Live(Root),
}
