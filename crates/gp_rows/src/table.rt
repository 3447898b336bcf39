// The table of pairings.
ghost use Rattle.std.specs.Prelude.{◌≡◌, ◌⊎◌, ◌↔◌, ◌+◌, ◌<◌, ◌≤◌, ℕ, List, [], ◌∷◌, ◌++◌, length, take, IsTrue, IfOk, OnOk, OnErr, IsErr, IfSome, IfNone, MatchOption, slice_get, slice_set, vec_capacity, ◌-◌, ◌*◌, ◌^◌};
ghost use Rattle.gp_rows.specs.Rows.{IsNewest, IsCurrent, IsPair, IsTable, IsNewPair, IsNewOrder, Revives, IsBelow, CAPACITY};
ghost use Rattle.gp_rows.specs.Changes.{Raises, Retires, applied};
ghost use Rattle.gp_rows.specs.declared.row.Row.{Row};
ghost use Rattle.gp_rows.specs.Index.{IsIndex, IsIndexed, by_order, by_pair};

use crate::Row;
use crate::index::{OfOrder, OfPair, OfSource, enter, locate, pull, search};
use gp_base::place::put_last;
use gp_base::{Key, NoMemory, Src, Steps};
use std::alloc::Global;
use std::marker::{Brand, Model};
use std::sync::ledger::{Blank, Ledger};

/// The most rows that a table holds.
pub const ROWS: u16 = 1024;

/// The table has no room for another row.
#[derive(Clone, Copy, Debug, PartialEq, Eq)]
pub struct TableFull;

/// The pairings of one sink, in the order in which their pairs of SrcID and key were first paired.
#[derive(Debug, Drop)]
pub struct Table {
    rows: Vec<Row>,
    // The numbers of all rows by SrcID and order, and by SrcID and key.
    by_order: Vec<u16>,
    by_pair: Vec<u16>,
}

impl Model for Table {
    ghost use Rattle.std.specs.Prelude.{List, ◌≤◌, vec_capacity};
    ghost use Rattle.gp_rows.specs.declared.row.Row.{Row};

    ghost Value = { List Row };

    ghost use Rattle.gp_rows.specs.Rows.{IsTable, CAPACITY};
    ghost use Rattle.gp_rows.specs.Index.{IsIndexed};

    ghost view = { λ t. t.rows.items };

    ghost invariant = { λ t. IsTable t.rows.items × (CAPACITY ≤ vec_capacity t.rows) × IsIndexed t.rows.items t.by_order.items t.by_pair.items × (CAPACITY ≤ vec_capacity t.by_order) × (CAPACITY ≤ vec_capacity t.by_pair) };
}

impl Table {
    /// An empty table, with memory for 1,024 rows: the other calls take none.
    pub fn new(alloc: Global) -> Result<Table, NoMemory>
        ensures empty { IfOk result (λ table. table ≡ []) }
    {
        let Ok(rows) = Vec::with_capacity(alloc, ROWS as usize) else {
            return Err(NoMemory);
        };
        let Ok(by_order) = Vec::with_capacity(alloc, ROWS as usize) else {
            return Err(NoMemory);
        };
        let Ok(by_pair) = Vec::with_capacity(alloc, ROWS as usize) else {
            return Err(NoMemory);
        };
        Ok(Table {
            rows,
            by_order,
            by_pair,
        })
    }

    /// The number of rows.
    pub fn count(&self) -> u16
        ensures count { result ≡ length self.now }
        ensures table { IsTable self.now }
    {
        self.rows.len() as u16
    }

    /// The row of this number, which is there.
    pub fn row(&self, at: u16) -> &Row
        requires { at < length self.now }
        ensures row { slice_get self.now at ≡ Some result.now }
        ensures table { IsTable self.now }
    {
        &self.rows[at as usize]
    }

    /// The current pairing of a SrcID: its row with the greatest order, where that is live. The search halves a sorted list
    /// of the n rows, and each comparison is one step: of k steps `2^k <= 2n + 1`, so at most 11 among 1,024 rows.
    pub fn find<L: Ledger>(&self, source: Src, steps: &mut Steps<L>) -> Option<u16>
        ensures found { IfSome result (IsCurrent self.now source.0) }
        ensures absent { IfNone result ((at : ℕ) → IsCurrent self.now source.0 at → ⊥) }
        ensures table { IsTable self.now }
        ensures rises { steps.old ≤ steps.new }
        ensures cost { 2 ^ (steps.new - steps.old) ≤ 2 * length self.now + 1 }
        ensures few { steps.new ≤ steps.old + 11 }
    {
        match newest(&self.by_order, &self.rows, source, steps) {
            Some(at) if self.rows[at as usize].live => Some(at),
            _ => None,
        }
    }

    /// The row of a SrcID and key, live or not, by at most as many steps as `find`.
    pub fn same<L: Ledger>(&self, source: Src, key: &Key, steps: &mut Steps<L>) -> Option<u16>
        ensures found { IfSome result (IsPair self.now source.0 key.now.0) }
        ensures absent { IfNone result ((at : ℕ) → IsPair self.now source.0 key.now.0 at → ⊥) }
        ensures table { IsTable self.now }
        ensures rises { steps.old ≤ steps.new }
        ensures cost { 2 ^ (steps.new - steps.old) ≤ 2 * length self.now + 1 }
        ensures few { steps.new ≤ steps.old + 11 }
    {
        pair_at(&self.by_pair, &self.rows, source, key, steps)
    }

    /// The current pairing of a SrcID, as `find` gives it. Its steps aren't told.
    pub fn current(&self, source: Src) -> Option<u16>
        ensures found { IfSome result (IsCurrent self.now source.0) }
        ensures absent { IfNone result ((at : ℕ) → IsCurrent self.now source.0 at → ⊥) }
        ensures table { IsTable self.now }
    {
        find_current::<Brand>(self, source, Blank::new(1))
    }

    /// The row of a SrcID and key, live or not, as `same` gives it. Its steps aren't told.
    pub fn of_pair(&self, source: Src, key: &Key) -> Option<u16>
        ensures found { IfSome result (IsPair self.now source.0 key.now.0) }
        ensures absent { IfNone result ((at : ℕ) → IsPair self.now source.0 key.now.0 at → ⊥) }
        ensures table { IsTable self.now }
    {
        find_pair::<Brand>(self, source, key, Blank::new(1))
    }

    /// Adds a row at the end and gives its number. Its pair is new, and no row of its SrcID has its order. `TableFull`
    /// comes exactly at 1,024 rows.
    pub fn add(&mut self, row: Row) -> Result<u16, TableFull>
        requires pair { IsNewPair self.old row }
        requires order { IsNewOrder self.old row }
        ensures full { IsErr result ↔ (length self.old ≡ CAPACITY) }
        ensures number { IfOk result (λ at. at ≡ length self.old) }
        ensures added { OnOk result (self.new ≡ self.old ++ row ∷ []) }
        ensures same { OnErr result (self.new ≡ self.old) }
    {
        let at = self.count();
        if at >= ROWS {
            return Err(TableFull);
        }
        put_last(&mut self.rows, row);
        let in_order = OfOrder(row.src, row.order);
        enter(&mut self.by_order, &self.rows, &in_order, at);
        let in_pairs = OfPair(row.src, row.key);
        enter(&mut self.by_pair, &self.rows, &in_pairs, at);
        Ok(at)
    }

    /// Replaces the row of a pair by one of the same pair, with a floor that doesn't fall and an order above all others.
    pub fn revive(&mut self, at: u16, row: Row)
        requires { Revives self.old at row }
        ensures { self.new ≡ slice_set self.old at row }
    {
        let before = self.rows[at as usize];
        let was = OfOrder(before.src, before.order);
        let found = locate(&self.by_order, &self.rows, &was);
        pull(&mut self.by_order, found.end - 1);
        self.rows[at as usize] = row;
        let becomes = OfOrder(row.src, row.order);
        enter(&mut self.by_order, &self.rows, &becomes, at);
    }

    /// Makes this counter, which is above the row's floor, the floor.
    pub fn raise(&mut self, at: u16, counter: u32)
        requires { IsBelow self.old at counter }
        ensures { self.new ≡ applied (Raises at counter) self.old }
    {
        self.rows[at as usize].floor = counter;
    }

    /// Unpairs the row by a frame with this counter, which is above the row's floor and becomes the floor.
    pub fn retire(&mut self, at: u16, counter: u32)
        requires { IsBelow self.old at counter }
        ensures { self.new ≡ applied (Retires at counter) self.old }
    {
        let row = &mut self.rows[at as usize];
        row.live = false;
        row.floor = counter;
    }
}

// The current pairing, by steps of its own.
fn find_current<L: Ledger>(table: &Table, source: Src, blank: Blank) -> Option<u16>
    requires name { blank.name ≡ L.name }
    requires parts { blank.parts ≡ L.parts }
    requires some { 0 < L.parts }
    ensures found { IfSome result (IsCurrent table.now source.0) }
    ensures absent { IfNone result ((at : ℕ) → IsCurrent table.now source.0 at → ⊥) }
    ensures table { IsTable table.now }
{
    let mut steps = Steps::<L>::new(blank);
    table.find(source, &mut steps)
}

// The row of a SrcID and key, by steps of its own.
fn find_pair<L: Ledger>(table: &Table, source: Src, key: &Key, blank: Blank) -> Option<u16>
    requires name { blank.name ≡ L.name }
    requires parts { blank.parts ≡ L.parts }
    requires some { 0 < L.parts }
    ensures found { IfSome result (IsPair table.now source.0 key.now.0) }
    ensures absent { IfNone result ((at : ℕ) → IsPair table.now source.0 key.now.0 at → ⊥) }
    ensures table { IsTable table.now }
{
    let mut steps = Steps::<L>::new(blank);
    table.same(source, key, &mut steps)
}

// The row of a SrcID with the greatest order.
fn newest<L: Ledger>(index: &[u16], rows: &[Row], source: Src, steps: &mut Steps<L>) -> Option<u16>
    requires { IsIndex by_order rows.now (length rows.now) index.now }
    ensures newest { MatchOption result ((k : ℕ) (row : Row) → slice_get rows.now k ≡ Some row → row.src.0 ≡ source.0 → ⊥) (λ at. (row : Row) × IsNewest rows.now source.0 at row) }
    ensures rises { steps.old ≤ steps.new }
    ensures cost { 2 ^ (steps.new - steps.old) ≤ 2 * length index.now + 1 }
{
    search(index, rows, &OfSource(source), steps).kept
}

// The row of a SrcID and key.
fn pair_at<L: Ledger>(
    index: &[u16],
    rows: &[Row],
    source: Src,
    key: &Key,
    steps: &mut Steps<L>,
) -> Option<u16>
    requires { IsIndex by_pair rows.now (length rows.now) index.now }
    ensures found { IfSome result (IsPair rows.now source.0 key.now.0) }
    ensures absent { IfNone result ((at : ℕ) → IsPair rows.now source.0 key.now.0 at → ⊥) }
    ensures rises { steps.old ≤ steps.new }
    ensures cost { 2 ^ (steps.new - steps.old) ≤ 2 * length index.now + 1 }
{
    search(index, rows, &OfPair(source, *key), steps).kept
}
