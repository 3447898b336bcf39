//! The store of a sink: its rows in memory, and the disk that keeps them.
ghost use Rattle.std.specs.Prelude.{◌≡◌, ◌-◌, ◌<◌, ◌≤◌, false, true, IfOk, IfErr, Some, None};
ghost use Rattle.gp_disk.specs.Disk.{IsQuiet};
ghost use Rattle.gp_rows.specs.Rows.{IsBelow, IsPair, IsNewPair, IsTable, AreWithin};
ghost use Rattle.gp_rows.specs.Changes.{Pairs, Raises, Retires, place};
ghost use Rattle.gp_store.specs.Commit.{Commits, Stands, ordered, plain};
ghost use Rattle.gp_store.specs.Kept.{IsTold};
ghost use Rattle.gp_store.specs.Reading.{FoundOf};
ghost use Rattle.gp_store.specs.Recovery.{Told, Recovered, RefusedToRecover};
ghost use Rattle.gp_store.specs.Image.{IMAGE_SIZE};

use crate::commit::Marks;
use crate::fault::{CommitFault, Refused, StoreFault};
use crate::found::Found;
use crate::keeper::Keeper;
use crate::layout::SIZE;
use crate::reading::put_row;
use crate::recovery::{read_disk, room};
use gp_base::NoMemory;
use gp_disk::{Disk, MemoryDisk};
use gp_rows::{ROWS, Row, Table};
use std::alloc::Global;
use std::marker::Model;

/// The pairings and counter floors of one sink, over a disk that keeps them through a power cut.
#[derive(Drop)]
pub struct Store<D: Disk> {
    table: Table,
    keeper: Keeper<D>,
}

impl<D: Disk> Model for Store<D> {
    ghost use Rattle.std.specs.Prelude.{vec_capacity};
    ghost use Rattle.gp_store.specs.State.{State};

    ghost Value = { State D };

    ghost use Rattle.gp_store.specs.Kept.{IsKept, state_of};

    ghost view = { λ s. state_of s.keeper.disk s.table s.keeper.marks };

    ghost invariant = { λ s. IsKept (D.tally s.keeper.disk) (D.image s.keeper.disk) (D.may_leave s.keeper.disk) s.table s.keeper.stale.items (vec_capacity s.keeper.stale) s.keeper.marks };
}

// The store of what was read from a disk.
fn stored<D: Disk>(disk: D, found: Found) -> Store<D>
    requires found { FoundOf found }
    requires size { IMAGE_SIZE ≤ (D.tally disk).size }
    requires quiet { IsQuiet (D.tally disk) (D.image disk) (D.may_leave disk) }
    requires told { Told (D.image disk) (λ d. IsTold d found.table found.stale.items found.last) }
    ensures { result ≡ record { disk = disk; rows = found.table; last = found.last; halted = false; undecided = None } }
{
    let Found {
        table,
        stale,
        older: _,
        last,
    } = found;
    let marks = Marks {
        last,
        halted: false,
        undecided: None,
    };
    Store {
        table,
        keeper: Keeper { disk, stale, marks },
    }
}

impl<D: Disk> Store<D> {
    /// Reads the rows of a disk after a restart: the one list of rows that what a read gives holds. It needs memory for
    /// 1,024 rows, and writes nothing.
    ///
    /// NoMemory comes first, where there isn't that memory. A disk of fewer than 204,800 octets is DiskShort, one whose
    /// header isn't that of a formatted disk NotFormatted, and SlotForm names the smallest open slot that breaks a rule.
    /// DiskFault comes behind DiskShort, where the disk has failed. A refusal hands the disk back.
    #[tactic(auto, unfolding(crate::specs::Recovery::recovery_calls))]
    pub fn recover(alloc: Global, disk: D) -> Result<Store<D>, Refused<D>>
        ensures recovered { IfOk result (λ store. Recovered D.Disk disk store) }
        ensures refused { IfErr result (λ refused. RefusedToRecover D.Disk disk refused) }
    {
        let mut found = match room(alloc) {
            Ok(found) => found,
            Err(NoMemory) => {
                return Err(Refused {
                    fault: StoreFault::NoMemory,
                    disk,
                });
            }
        };
        if disk.size() < SIZE {
            return Err(Refused {
                fault: StoreFault::DiskShort,
                disk,
            });
        }
        let mut disk = disk;
        match read_disk(&mut disk, &mut found) {
            Ok(()) => Ok(stored(disk, found)),
            Err(fault) => Err(Refused { fault, disk }),
        }
    }

    /// The rows. While the store isn't halted, every image that a crash now may leave holds exactly these.
    pub fn rows(&self) -> &Table
        ensures rows { result.now ≡ self.now.rows }
        ensures table { IsTable self.now.rows }
        ensures orders { AreWithin self.now.last self.now.rows }
        ensures stands { self.now.halted ≡ false → Stands (D.may_leave self.now.disk) self.now.rows self.now.last }
    {
        // each call of a table tells that it is one
        let _count = self.table.count();
        &self.table
    }

    /// The last generation.
    pub fn generation(&self) -> u64
        ensures { result ≡ self.now.last }
    {
        self.keeper.marks.last
    }

    /// Tells that an earlier commit answered Worn or DiskFault.
    pub fn is_halted(&self) -> bool
        ensures { result ≡ self.now.halted }
    {
        self.keeper.marks.halted
    }

    /// The number of the row whose commit answered DiskFault, and the values, order included, that its change gives it.
    /// There is none exactly where no commit answered DiskFault, and so while the store isn't halted.
    pub fn undecided(&self) -> Option<(u16, Row)>
        ensures undecided { result ≡ self.now.undecided }
        ensures decided { self.now.halted ≡ false → result ≡ None }
    {
        self.keeper.marks.undecided
    }

    /// Adds the pairing of a new pair of SrcID and key, or revives that of a pair that is there, and gives its number. It
    /// sets the order itself, and keeps the greater floor. The SrcID is pairable, and the row is live.
    ///
    /// The answers are tested in this order: Halted after an earlier Worn or DiskFault; TableFull where a new pair meets
    /// 1,024 rows; Worn where the last generation is the greatest there is; DiskFault where the disk has failed. After
    /// Worn and DiskFault the store is halted.
    pub fn commit_row(&mut self, row: Row) -> Result<u16, CommitFault>
        requires above { 1 ≤ row.src.0 }
        requires below { row.src.0 ≤ 0xFFFFFFF8 }
        requires live { row.live ≡ true }
        ensures commits { Commits D.Disk (Pairs (ordered self.old.last row)) self.old self.new (plain result) }
        ensures number { IfOk result (λ at. at ≡ place (Pairs row) self.old.rows) }
        ensures orders { AreWithin self.old.last self.old.rows }
        ensures table { IsTable self.old.rows }
    {
        match self.table.of_pair(row.src, &row.key) {
            Some(at) => match self.revive(at, row) {
                Ok(()) => Ok(at),
                Err(fault) => Err(fault),
            },
            None => self.add(row),
        }
    }

    // Revives the row of a pair that is there.
    fn revive(&mut self, at: u16, row: Row) -> Result<(), CommitFault>
        requires { IsPair self.old.rows row.src.0 row.key.0 at }
        ensures commits { Commits D.Disk (Pairs (ordered self.old.last row)) self.old self.new result }
        ensures number { at ≡ place (Pairs row) self.old.rows }
    {
        let before = *self.table.row(at);
        let row = Row {
            order: self.keeper.marks.last.saturating_add(1),
            floor: before.floor.max(row.floor),
            ..row
        };
        match self.keeper.put(&self.table, at, &row) {
            Ok(()) => {
                self.table.revive(at, row);
                Ok(())
            }
            Err(fault) => Err(fault),
        }
    }

    // Adds the row of a new pair.
    fn add(&mut self, row: Row) -> Result<u16, CommitFault>
        requires new_pair { IsNewPair self.old.rows row }
        requires above { 1 ≤ row.src.0 }
        requires below { row.src.0 ≤ 0xFFFFFFF8 }
        ensures commits { Commits D.Disk (Pairs (ordered self.old.last row)) self.old self.new (plain result) }
        ensures number { IfOk result (λ at. at ≡ place (Pairs row) self.old.rows) }
    {
        if self.keeper.marks.halted {
            return Err(CommitFault::Halted);
        }
        let at = self.table.count();
        if at == ROWS {
            return Err(CommitFault::TableFull);
        }
        let row = Row {
            order: self.keeper.marks.last.saturating_add(1),
            ..row
        };
        match self.keeper.put(&self.table, at, &row) {
            Ok(()) => {
                put_row(&mut self.table, row);
                Ok(at)
            }
            Err(fault) => Err(fault),
        }
    }

    /// Makes this counter, which is above the row's floor, the floor.
    ///
    /// The answers are tested in this order: Halted after an earlier Worn or DiskFault; Worn where the last generation is
    /// the greatest there is; DiskFault where the disk has failed. After Worn and DiskFault the store is halted.
    pub fn commit_floor(&mut self, at: u16, counter: u32) -> Result<(), CommitFault>
        requires { IsBelow self.old.rows at counter }
        ensures commits { Commits D.Disk (Raises at counter) self.old self.new result }
    {
        let row = Row {
            floor: counter,
            ..*self.table.row(at)
        };
        match self.keeper.put(&self.table, at, &row) {
            Ok(()) => {
                self.table.raise(at, counter);
                Ok(())
            }
            Err(fault) => Err(fault),
        }
    }

    /// Unpairs the row by a frame with this counter, which is above the row's floor and becomes the floor.
    ///
    /// The answers are tested in this order: Halted after an earlier Worn or DiskFault; Worn where the last generation is
    /// the greatest there is; DiskFault where the disk has failed. After Worn and DiskFault the store is halted.
    pub fn retire(&mut self, at: u16, counter: u32) -> Result<(), CommitFault>
        requires { IsBelow self.old.rows at counter }
        ensures commits { Commits D.Disk (Retires at counter) self.old self.new result }
    {
        let row = Row {
            live: false,
            floor: counter,
            ..*self.table.row(at)
        };
        match self.keeper.put(&self.table, at, &row) {
            Ok(()) => {
                self.table.retire(at, counter);
                Ok(())
            }
            Err(fault) => Err(fault),
        }
    }

    /// The disk.
    pub fn into_disk(self) -> D
        ensures { result ≡ self.disk }
    {
        let Store { table: _, keeper } = self;
        let Keeper {
            disk,
            stale: _,
            marks: _,
        } = keeper;
        disk
    }
}

impl Store<MemoryDisk> {
    ghost use Rattle.gp_disk.specs.Memory.{memory_fuse, SameButFuse};
    ghost use Rattle.gp_disk.specs.Fuse.{Waits, Stop, Fault, rearmed, is_due, has_stopped};
    ghost use Rattle.gp_store.specs.State.{SameButDisk};

    /// Arms a stop of the disk, which is due from the `begin` of this number on and falls once so many device calls have
    /// gone through.
    pub fn arm_cut(&mut self, begins: u64, calls: u64)
        requires { 1 ≤ begins }
        ensures fuse { memory_fuse self.new.disk ≡ rearmed (Waits begins calls Stop) (memory_fuse self.old.disk) }
        ensures disk { SameButFuse self.old.disk self.new.disk }
        ensures same { SameButDisk self.old self.new }
    {
        self.keeper.disk.arm_cut(begins, calls);
    }

    /// Arms a fault of the disk, which falls as a stop does, and fails that call alone.
    pub fn arm_fault(&mut self, begins: u64, calls: u64)
        requires { 1 ≤ begins }
        ensures fuse { memory_fuse self.new.disk ≡ rearmed (Waits begins calls Fault) (memory_fuse self.old.disk) }
        ensures disk { SameButFuse self.old.disk self.new.disk }
        ensures same { SameButDisk self.old self.new }
    {
        self.keeper.disk.arm_fault(begins, calls);
    }

    /// Tells that an arming is due.
    pub fn due(&self) -> bool
        ensures { result ≡ is_due (memory_fuse self.now.disk) }
    {
        self.keeper.disk.due()
    }

    /// Tells that a stop has come.
    pub fn stopped(&self) -> bool
        ensures { result ≡ has_stopped (memory_fuse self.now.disk) }
    {
        self.keeper.disk.stopped()
    }
}
