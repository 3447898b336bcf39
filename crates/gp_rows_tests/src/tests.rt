ghost use Rattle.std.specs.Prelude.{◌≡◌, ◌<◌};

use gp_base::{Key, KeyKind, Level, Mode, Src, Steps};
use gp_rows::{Row, Table};
use std::alloc::Global;
use std::marker::Brand;
use std::process::Abort;
use std::sync::ledger::{Blank, Ledger};
use std::test::Fail;

const ROW: Row = Row {
    src: Src(0x8765_4321),
    key: Key([7; 16]),
    kind: KeyKind::OutOfBox,
    level: Level::Two,
    mode: Mode::Derived,
    group: 0x4321,
    device: 2,
    order: 1,
    live: true,
    floor: 1,
};

// A row of another device, paired later.
const LATER: Row = Row {
    src: Src(9),
    key: Key([8; 16]),
    kind: KeyKind::Nwk,
    level: Level::Three,
    mode: Mode::Unicast,
    group: 0,
    device: 7,
    order: 2,
    live: true,
    floor: 3,
};

// A table of these two rows.
fn two_rows(alloc: Global) -> Option<Table> {
    let mut table = Table::new(alloc).ok()?;
    table.add(ROW).ok()?;
    table.add(LATER).ok()?;
    Some(table)
}

// Where the current row of the first SrcID is, and where its row under a key.
fn looked_up<L: Ledger>(
    table: &Table,
    key: &Key,
    steps: &mut Steps<L>,
) -> (Option<u16>, Option<u16>) {
    (table.find(ROW.src, steps), table.same(ROW.src, key, steps))
}

// A table of the first row, which wasn't there before.
fn one_row(rt: &impl Abort, alloc: Global) -> Result<Table, Fail> {
    let mut table = Table::new(alloc).ok().ok_or("no memory")?;
    assert!(rt; table.count() == 0);
    assert_eq!(rt; table.add(ROW), Ok(0));
    assert_eq!(rt; table.count(), 1);
    Ok(table)
}

// The floor of the first row is raised.
fn raise(rt: &impl Abort, table: &mut Table, floor: u32) {
    assert!(rt; table.count() == 1 && table.row(0).floor < floor);
    table.raise(0, floor);
    assert!(rt; table.count() == 1 && table.row(0).floor == floor);
}

// The first row is unpaired.
fn retire(rt: &impl Abort, table: &mut Table, counter: u32) {
    assert!(rt; table.count() == 1 && table.row(0).floor < counter);
    table.retire(0, counter);
}

fn first_row<L: Ledger>(rt: &impl Abort, alloc: Global, blank: Blank) -> Result<(), Fail>
    requires name { blank.name ≡ L.name }
    requires parts { blank.parts ≡ L.parts }
    requires some { 0 < L.parts }
{
    let mut steps = Steps::<L>::new(blank);
    let empty = Table::new(alloc).ok().ok_or("no memory")?;
    assert_eq!(rt; looked_up(&empty, &ROW.key, &mut steps), (None, None));
    let mut table = one_row(rt, alloc)?;
    assert_eq!(rt; looked_up(&table, &ROW.key, &mut steps), (Some(0), Some(0)));
    assert_eq!(rt; looked_up(&table, &LATER.key, &mut steps), (Some(0), None));
    assert_eq!(rt; table.find(LATER.src, &mut steps), None);
    raise(rt, &mut table, 5);
    retire(rt, &mut table, 6);
    assert_eq!(rt; looked_up(&table, &ROW.key, &mut steps), (None, Some(0)));
    Ok(())
}

#[test]
fn a_row_is_that_of_its_number(rt: HostRuntime) -> Result<(), Fail> {
    let table = two_rows(rt.alloc()).ok_or("no memory")?;
    assert_eq!(rt; table.count(), 2);
    for (at, row) in [(0, ROW), (1, LATER)] {
        assert!(rt; at < table.count());
        assert_eq!(rt; *table.row(at), row);
    }
    Ok(())
}

#[test]
fn a_row_is_looked_up_without_steps(rt: HostRuntime) -> Result<(), Fail> {
    let table = two_rows(rt.alloc()).ok_or("no memory")?;
    assert_eq!(rt; table.current(LATER.src), Some(1));
    assert_eq!(rt; table.current(Src(1)), None);
    assert_eq!(rt; table.of_pair(LATER.src, &LATER.key), Some(1));
    assert_eq!(rt; table.of_pair(LATER.src, &ROW.key), None);
    Ok(())
}

#[test]
fn a_row_is_added_found_raised_and_retired(rt: HostRuntime) -> Result<(), Fail> {
    first_row::<Brand>(&rt, rt.alloc(), Blank::new(1))
}
