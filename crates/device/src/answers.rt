// Why a device refuses a read or a store, and in which ways a cut store can leave its block.
use std::error::Error;
use std::fmt;

/// Why a read is not done. The tests are made in this order, and the first that applies decides.
/// The buffer is as it was.
#[derive(Clone, Copy, PartialEq, Eq, Debug)]
pub enum ReadError {
    /// The address is not below the size.
    Outside,
    /// The device is dark.
    Dark,
    /// The block cannot be read.
    Unreadable,
}

impl fmt::Display for ReadError {
    fn fmt<W: fmt::Write>(&self, f: &mut fmt::Formatter<W>) -> fmt::Result {
        f.pad(match self {
            ReadError::Outside => "no block has this address",
            ReadError::Dark => "the device is dark",
            ReadError::Unreadable => "the block cannot be read",
        })
    }
}

impl Error for ReadError {}

/// Why a store is not done. The tests are made in this order.
#[derive(Clone, Copy, PartialEq, Eq, Debug)]
pub enum StoreError {
    /// The address is not below the size. Nothing has changed.
    Outside,
    /// The device is dark. If it was dark before, nothing has changed. If it went dark now, the
    /// block is left in one of the three manners of `Manner`.
    Dark,
}

impl fmt::Display for StoreError {
    fn fmt<W: fmt::Write>(&self, f: &mut fmt::Formatter<W>) -> fmt::Result {
        f.pad(match self {
            StoreError::Outside => "no block has this address",
            StoreError::Dark => "the device is dark",
        })
    }
}

impl Error for StoreError {}

/// How a store during which power fails leaves its block.
#[derive(Clone, Copy, PartialEq, Eq, Debug)]
pub enum Manner {
    /// The block is as it was before the store.
    Old,
    /// The block holds the new bytes.
    New,
    /// The block cannot be read until it is stored again.
    Unreadable,
}

impl fmt::Display for Manner {
    fn fmt<W: fmt::Write>(&self, f: &mut fmt::Formatter<W>) -> fmt::Result {
        f.pad(match self {
            Manner::Old => "old",
            Manner::New => "new",
            Manner::Unreadable => "unreadable",
        })
    }
}
