// The names of objects.
ghost use Rattle.std.specs.Prelude.{◌≡◌};
ghost use Rattle.map.specs.Identifiers.{identified};

use crate::address::is_root_place;

/// The name of an object: a tag that is not 0, and the address of a root place in cylinders 0
/// to 63.
#[derive(Clone, Copy, PartialEq, Eq, Debug)]
pub struct Identifier {
    tag: u32,
    root: u32,
}

impl Identifier {
    /// The two numbers as an identifier, if they are one. Nothing else makes one.
    pub fn new(tag: u32, root: u32) -> Option<Identifier>
        ensures { result ≡ identified tag root }
    {
        let named = tag > 0 && is_root_place(root) && root / 32 < 64;
        named.then_some(Identifier { tag, root })
    }

    /// The tag.
    pub fn tag(self) -> u32
        ensures { result ≡ self.tag }
    {
        self.tag
    }

    /// The address of the root place.
    pub fn root(self) -> u32
        ensures { result ≡ self.root }
    {
        self.root
    }
}
