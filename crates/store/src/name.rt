// Objects as callers name them.

/// Two numbers that a caller offers as an identifier. They need not be one.
#[derive(Clone, Copy, PartialEq, Eq, Debug)]
pub struct Name {
    pub tag: u64,
    pub root: u64,
}
