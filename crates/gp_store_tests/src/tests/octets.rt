// The octets of slots, as commits write them and as a recovery judges them.
use super::{SIZE, pairing, prepared, raise, retire};
use gp_base::Failed;
use gp_disk::{Disk, MemoryDisk};
use gp_store::{Store, StoreFault};
use std::alloc::Global;
use std::process::Abort;
use std::test::Fail;

// Writes octets of a slot.
fn write(disk: &mut MemoryDisk, at: u64, octets: &[u8]) -> Result<(), Failed> {
    if disk.size() < SIZE || at > SIZE - 64 || octets.len() > 64 {
        return Err(Failed);
    }
    disk.begin();
    disk.sync()?;
    disk.write_at(at, octets)?;
    disk.sync()
}

// The octets of a slot, or of the header.
fn read(disk: &mut MemoryDisk, at: u64) -> Result<[u8; 64], Failed> {
    let mut octets = [0; 64];
    if disk.size() < SIZE || at > SIZE - 64 {
        return Err(Failed);
    }
    disk.read(at, &mut octets)?;
    Ok(octets)
}

// The octets of an open slot of a pairing of these tests, with these octets where its generation, its key, its live, its
// order and its floor begin.
fn slot(generation: u8, key: u8, live: u8, order: u8, floor: u8) -> [u8; 64] {
    let mut octets = [0; 64];
    octets[0] = 0xA5;
    octets[1] = generation;
    octets[9..13].copy_from_slice(&[0x21, 0x43, 0x65, 0x87]);
    octets[13..29].copy_from_slice(&[key; 16]);
    octets[29..35].copy_from_slice(&[4, 3, 2, 0x34, 0x12, 2]);
    octets[35] = live;
    octets[36] = order;
    octets[44] = floor;
    octets
}

#[test]
fn a_commit_writes_the_octets_of_its_slot(rt: HostRuntime) -> Result<(), Fail> {
    let alloc = rt.alloc();
    let mut store = prepared(&rt, alloc)?;
    assert_eq!(rt; raise(&rt, &mut store, 0, 9), Ok(()));
    assert_eq!(rt; retire(&rt, &mut store, 1, 10), Ok(()));
    assert_eq!(rt; store.commit_row(pairing(1)), Ok(0));
    let mut disk = store.into_disk();
    let mut header = [0; 64];
    header[..8].copy_from_slice(&[0xA5, b'G', b'P', b'S', b'I', b'N', b'K', 1]);
    let slots = [
        (0, header),
        (4096, slot(4, 1, 1, 1, 9)),
        (4160, slot(6, 1, 1, 6, 9)),
        (4224, slot(2, 2, 1, 2, 7)),
        (4288, slot(5, 2, 0, 2, 10)),
        (4352, [0; 64]),
        (135_168, [0; 64]),
        (SIZE - 64, [0; 64]),
    ];
    for (at, octets) in slots {
        assert_eq!(rt; read(&mut disk, at), Ok(octets));
    }
    Ok(())
}

// What a recovery answers where these octets stand at this place of a disk whose slots 0, 1 and 2 are open.
fn answer(
    rt: &impl Abort,
    alloc: Global,
    at: u64,
    octets: &[u8],
) -> Result<Option<StoreFault>, Fail> {
    let mut disk = prepared(rt, alloc)?.into_disk();
    assert_eq!(rt; write(&mut disk, at, octets), Ok(()));
    match Store::recover(alloc, disk) {
        Ok(_) => Ok(None),
        Err(refused) => Ok(Some(refused.fault)),
    }
}

#[test]
fn the_smallest_ill_slot_is_named(rt: HostRuntime) -> Result<(), Fail> {
    let alloc = rt.alloc();
    let lines: [(u32, u64, &[u8]); 23] = [
        // slot 2 by itself: generation, order, SrcID, kind, level, mode, live, the last octets
        (2, 4224 + 1, &[0]),
        (2, 4224 + 36, &[0]),
        (2, 4224 + 36, &[3]),
        (2, 4224 + 9, &[0, 0, 0, 0]),
        (2, 4224 + 9, &[0xF9, 0xFF, 0xFF, 0xFF]),
        (2, 4224 + 29, &[0]),
        (2, 4224 + 29, &[5]),
        (2, 4224 + 30, &[1]),
        (2, 4224 + 31, &[0]),
        (2, 4224 + 31, &[4]),
        (2, 4224 + 35, &[2]),
        (2, 4224 + 48, &[1]),
        (2, 4224 + 63, &[1]),
        // slots of a row behind one with no open slot
        (6, 4096 + 64 * 6, &slot(9, 3, 1, 9, 7)),
        (2047, 4096 + 64 * 2047, &slot(9, 3, 1, 9, 7)),
        // slot 1 and slot 0: another SrcID, another key, the same generation
        (1, 4160 + 9, &[0x22]),
        (1, 4160 + 28, &[2]),
        (1, 4160 + 1, &[1]),
        // slot 2 and the row before: the same SrcID and key, the same SrcID and order
        (2, 4224 + 13, &[1; 16]),
        (2, 4224 + 36, &[1]),
        // an even slot alone, an odd one alone, and slots 1 and 2, each by an octet of its own
        (0, 4096 + 29, &[0]),
        (3, 4096 + 64 * 3, &slot(9, 3, 1, 9, 7)),
        (1, 4160 + 63, &[1, 0xA5, 0]),
    ];
    for (ill, at, octets) in lines {
        let fault = StoreFault::SlotForm { slot: ill };
        assert_eq!(rt; answer(&rt, alloc, at, octets)?, Some(fault));
    }
    Ok(())
}

#[test]
fn a_disk_with_another_header_is_not_formatted(rt: HostRuntime) -> Result<(), Fail> {
    let alloc = rt.alloc();
    for at in 0..8 {
        assert_eq!(rt;
            answer(&rt, alloc, at, &[0])?,
            Some(StoreFault::NotFormatted)
        );
    }
    assert_eq!(rt; answer(&rt, alloc, 8, &[1])?, None);
    assert_eq!(rt; answer(&rt, alloc, 4096 + 64 * 3, &[0xA4])?, None);
    assert_eq!(rt; answer(&rt, alloc, 135_168, &[0xA5])?, None);
    Ok(())
}
