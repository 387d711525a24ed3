// The calls on an index.
ghost use Rattle.std.specs.Prelude.{◌≡◌, ◌≤◌, IfOk, Ok};
ghost use Rattle.store.specs.Transactions.{rows_plan};
ghost use Rattle.journal.specs.Carried.{CarriesAll, CompletesAll};
ghost use Rattle.store.specs.Decisions.{Obeys, StoresAll};
ghost use Rattle.store.specs.Indexing.{indexed, entry_held, free_for, entry_rows, entry_block_plan, change_plan, retrieve_rule, preserve_rule, delete_rule};
ghost use Rattle.store.specs.Model.{Looks};

use crate::attachment::no_rows;
use crate::entries::EntryNumber;
use crate::name::Name;
use crate::phase::Asked;
use crate::refusals::Refusal;
use crate::staging::start_of;
use crate::stores::{Store, Table, or_down};
use crate::transactions::commit_rows;
use allocation::{FreeBlock, choose};
use device::{Device, PowerCut, put};
use journal::finish;
use lookup::{entered_block, position_bytes};
use map::{Identifier, Kind};
use object::{Root, index_entry};

// What a transaction does that sets an entry: the entry holds the identifier from then on, or none,
// and its position has the new block.
#[derive(Clone, Copy)]
pub(crate) struct EntryChange {
    pub index: Root,
    pub entry: EntryNumber,
    pub id: Option<Identifier>,
    pub block: u16,
}

impl EntryChange {
    // The block of the entry's position with the entry set, at its new place.
    fn store_block<D: Device>(&self, device: &mut D) -> Result<u32, PowerCut>
        ensures few { IfOk result (λ n. n ≤ 1) }
        ensures stores { CarriesAll D.Device device.old (entry_block_plan self.now.index self.now.entry self.now.id self.now.block) result device.new }
    {
        let old = self.index.blocks[self.entry.position()];
        let bytes = position_bytes(device, old)?;
        let bytes = entered_block(&bytes, self.entry.number(), self.id);
        put(device, usize::from(self.block), &bytes)?;
        Ok(1)
    }

    // The rows of the transaction.
    fn table(&self) -> Table
        ensures { result.rows ≡ entry_rows self.now.entry self.now.block }
    {
        let mut table = no_rows();
        table.rows[self.entry.position()].renew(self.block);
        table
    }

    // The commit of the transaction.
    fn commit<D: Device>(&self, device: &mut D) -> Result<u32, PowerCut>
        ensures { CarriesAll D.Device device.old (rows_plan self.now.index (entry_rows self.now.entry self.now.block)) result device.new }
    {
        commit_rows(device, &self.index, &self.table().rows)
    }

    // The whole transaction: the block, the commit and the tail.
    pub(crate) fn store<D: Device>(&self, device: &mut D) -> Result<(), PowerCut>
        ensures { CompletesAll D.Device device.old (change_plan self.now) result device.new }
    {
        self.store_block(device)?;
        self.commit(device)?;
        finish(device)?;
        Ok(())
    }
}

impl<D: Device> Store<D> {
    // The index that a name names.
    pub(crate) fn index(&mut self, name: Name) -> Result<Root, Refusal>
        ensures { Looks D.Device (λ all. indexed all name) self.old result self.new }
    {
        let object = self.object(name)?;
        if object.kind == Kind::Index {
            Ok(object)
        } else {
            Err(Refusal::WrongKind)
        }
    }

    // The identifier that an entry holds.
    fn entry(&mut self, object: &Root, e: EntryNumber) -> Result<Option<Identifier>, Refusal>
        ensures { Looks D.Device (λ all. Ok (entry_held all object.now e)) self.old result self.new }
    {
        let bytes = position_bytes(&self.device, object.blocks[e.position()]);
        Ok(index_entry(&or_down(&mut self.phase, bytes)?, e.number()))
    }

    /// The identifier that entry `e` of an index holds, or none.
    pub fn retrieve(&mut self, index: Name, e: u64) -> Result<Option<Identifier>, Refusal>
        ensures { Obeys D.Device (retrieve_rule index e) self.old result self.new }
    {
        self.phase.admit(Asked::Up)?;
        let object = self.index(index)?;
        let e = EntryNumber::try_from(e)?;
        self.entry(&object, e)
    }

    // A free block for an entry's position.
    pub(crate) fn free_for(&mut self, object: &Root, e: EntryNumber) -> Result<u16, Refusal>
        ensures { Looks D.Device (λ all. free_for all object.now e) self.old result self.new }
    {
        let wanted = FreeBlock {
            rows: no_rows().rows,
        };
        let chosen = choose(
            &self.device,
            &wanted,
            start_of(object, object.blocks[e.position()]),
        );
        or_down(&mut self.phase, chosen)?.ok_or(Refusal::Full)
    }

    // The transaction that sets an entry. Where power fails, the store is down.
    fn set_entry(&mut self, change: &EntryChange) -> Result<(), Refusal>
        ensures { StoresAll D.Device (change_plan change.now) tt self.old result self.new }
    {
        let stored = change.store(&mut self.device);
        or_down(&mut self.phase, stored)
    }

    /// Sets entry `e` of an index to the identifier of an object.
    pub fn preserve(&mut self, index: Name, e: u64, name: Name) -> Result<(), Refusal>
        ensures { Obeys D.Device (preserve_rule index e name) self.old result self.new }
    {
        self.phase.admit(Asked::Idle)?;
        let index = self.index(index)?;
        let entry = EntryNumber::try_from(e)?;
        let kept = self.object(name)?;
        let block = self.free_for(&index, entry)?;
        self.set_entry(&EntryChange {
            index,
            entry,
            id: Some(kept.id),
            block,
        })
    }

    /// Empties entry `e` of an index. An entry that is empty already is left as it is.
    pub fn delete(&mut self, index: Name, e: u64) -> Result<(), Refusal>
        ensures { Obeys D.Device (delete_rule index e) self.old result self.new }
    {
        self.phase.admit(Asked::Idle)?;
        let index = self.index(index)?;
        let entry = EntryNumber::try_from(e)?;
        let held = self.entry(&index, entry)?;
        if held.is_none() {
            return Ok(());
        }
        let block = self.free_for(&index, entry)?;
        self.set_entry(&EntryChange {
            index,
            entry,
            id: None,
            block,
        })
    }
}
