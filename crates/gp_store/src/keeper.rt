//! What a store knows of its disk, and how a row is put at its number: into its stale slot, which then is the newest one.
ghost use Rattle.std.specs.Prelude.{◌≡◌, ◌+◌, ◌-◌, ◌^◌, ◌<◌, ◌≤◌, ℕ, false, true, length, slice_get, slice_set, Some, [], ◌∷◌, ◌++◌, OnOk, vec_capacity};
ghost use Rattle.gp_rows.specs.Rows.{CAPACITY};
ghost use Rattle.gp_rows.specs.Changes.{Change};
ghost use Rattle.gp_store.specs.Commit.{Commits};
ghost use Rattle.gp_store.specs.declared.commit.Stale.{Stale as StaleSlot};
ghost use Rattle.gp_store.specs.Kept.{IsKept, MayPut, Puts, rows_put, state_of};

use crate::commit::{Marks, Stale, write_row};
use crate::fault::CommitFault;
use gp_base::place::put_last;
use gp_disk::Disk;
use gp_rows::{Row, Table};

/// The disk of a store, and what the store knows beside its rows.
#[derive(Drop)]
pub struct Keeper<D: Disk> {
    /// The disk.
    pub disk: D,
    /// The slot of each row that its next commit writes.
    pub stale: Vec<Stale>,
    /// The last generation, and what earlier commits answered.
    pub marks: Marks,
}

// The stale slot of a row; of one that isn't there yet the even one, which is closed.
fn stale_at(stales: &[Stale], at: u16) -> Stale
    ensures there { (stale : StaleSlot) → slice_get stales.now at ≡ Some stale → result ≡ stale }
    ensures behind { length stales.now ≤ at → result ≡ record { odd = false; is_open = false } }
{
    if (at as usize) < stales.len() {
        stales[at as usize]
    } else {
        Stale {
            odd: false,
            is_open: false,
        }
    }
}

// Makes this slot the stale one of a row. It is open where the row was there before.
fn set_stale(stales: &mut Vec<Stale>, at: u16, odd: bool)
    requires at { at ≤ length stales.old.items }
    requires room { at < vec_capacity stales.old }
    ensures there { at < length stales.old.items → stales.new.items ≡ slice_set stales.old.items at (record { odd = odd; is_open = true }) }
    ensures behind { at ≡ length stales.old.items → stales.new.items ≡ stales.old.items ++ record { odd = odd; is_open = false } ∷ [] }
    ensures room { vec_capacity stales.old ≤ vec_capacity stales.new }
{
    if (at as usize) < stales.len() {
        stales[at as usize] = Stale { odd, is_open: true };
    } else {
        put_last(
            stales,
            Stale {
                odd,
                is_open: false,
            },
        );
    }
}

impl<D: Disk> Keeper<D> {
    /// Puts a row at its number, over the one that is there or behind the last one.
    pub fn put(&mut self, table: &Table, at: u16, row: &Row) -> Result<(), CommitFault>
        requires few { at < CAPACITY }
        requires kept { IsKept (D.tally self.old.disk) (D.image self.old.disk) (D.may_leave self.old.disk) table.now self.old.stale.items (vec_capacity self.old.stale) self.old.marks }
        requires may { at ≤ length table.now }
        requires fits { self.old.marks.last < 2 ^ 64 - 1 → MayPut table.now self.old.marks.last at row.now }
        ensures kept { IsKept (D.tally self.new.disk) (D.image self.new.disk) (D.may_leave self.new.disk) (rows_put result table.now at row.now) self.new.stale.items (vec_capacity self.new.stale) self.new.marks }
        ensures small { OnOk result (self.old.marks.last < 2 ^ 64 - 1) }
        ensures commits { (change : Change) → Puts change table.now self.old.marks.last at row.now
            → Commits D.Disk change (state_of self.old.disk table.now self.old.marks) (state_of self.new.disk (rows_put result table.now at row.now) self.new.marks) result }
    {
        let stale = stale_at(&self.stale, at);
        match write_row(&mut self.disk, &mut self.marks, stale, at, row) {
            Ok(()) => {
                set_stale(&mut self.stale, at, !stale.odd);
                Ok(())
            }
            Err(fault) => Err(fault),
        }
    }
}
