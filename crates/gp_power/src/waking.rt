//! A sink whose power comes: the rows that its disk holds are recovered.
ghost use Rattle.std.specs.Prelude.{◌≡◌, ◌≢◌, ◌≤◌, IfOk, IfErr, OnOk};
ghost use Rattle.gp_store.specs.Image.{IMAGE_SIZE};
ghost use Rattle.gp_world.specs.World.{ToCut};
ghost use Rattle.gp_power.specs.Inside.{IsArmed, IsBack, IsCutAgain, IsEmptyDisk, IsNewSink, IsUp};

use crate::falling::crash;
use gp_base::NoMemory;
use gp_disk::{Disk, MemoryDisk};
use gp_sink::{Config, Sink};
use gp_store::{Refused, Store, StoreFault, format};
use gp_translate::Rules;
use std::alloc::Global;

/// The size of the disk of a sink, in octets.
const DISK: u64 = 204_800;

// A disk of this size that was formatted.
fn empty_disk(alloc: Global, size: u64) -> Result<MemoryDisk, NoMemory>
    requires { IMAGE_SIZE ≤ size }
    ensures { IfOk result IsEmptyDisk }
{
    let Ok(mut disk) = MemoryDisk::new(alloc, size) else {
        return Err(NoMemory);
    };
    match format(&mut disk) {
        Ok(()) => Ok(disk),
        Err(_) => unreachable!(),
    }
}

// A new sink over a disk that was formatted.
fn started(alloc: Global, config: Config, disk: MemoryDisk) -> Result<Sink<MemoryDisk>, NoMemory>
    requires { IsEmptyDisk disk }
    ensures { IfOk result (IsNewSink config) }
{
    match Sink::start(alloc, config, disk) {
        Ok(sink) => Ok(sink),
        Err(refused) => match refused.fault {
            StoreFault::NoMemory => Err(NoMemory),
            _ => unreachable!(),
        },
    }
}

/// A new sink, over an empty store.
pub fn start(alloc: Global, config: Config) -> Result<Sink<MemoryDisk>, NoMemory>
    ensures { IfOk result (IsNewSink config) }
{
    let Ok(disk) = empty_disk(alloc, DISK) else {
        return Err(NoMemory);
    };
    started(alloc, config, disk)
}

/// Starts a sink over the disk of a dark one. What is armed is spent by commits alone, so it is put off by one `begin`, which the
/// recovery makes, or this function where the recovery wants memory and makes none. A disk that holds rows is refused for nothing
/// else, and is handed back.
pub fn wake(
    alloc: Global,
    config: Config,
    rules: &Rules,
    disk: MemoryDisk,
) -> Result<Sink<MemoryDisk>, MemoryDisk>
    ensures up { IfOk result (IsUp config rules.now disk) }
    ensures back { IfErr result (IsBack disk) }
{
    let mut disk = disk;
    disk.defer();
    match Sink::start_with(alloc, config, rules.copy(), disk) {
        Ok(sink) => Ok(sink),
        Err(refused) => {
            let Refused { fault: _, mut disk } = refused;
            disk.begin();
            Err(disk)
        }
    }
}

/// Starts the recovery of a dark sink's disk, whose power goes once so many of its device calls have gone through: the disk then
/// crashes in this way. Where the recovery wants memory the disk is handed back as an error, with that cut armed.
pub fn flicker(
    alloc: Global,
    disk: MemoryDisk,
    calls: u16,
    way: u8,
) -> Result<MemoryDisk, MemoryDisk>
    requires { way ≤ 4 }
    ensures cut { IfOk result (IsCutAgain disk) }
    ensures armed { IfErr result (IsArmed (ToCut 1 calls) disk) }
{
    let mut disk = disk;
    disk.arm_cut(1, u64::from(calls));
    match Store::recover(alloc, disk) {
        Ok(store) => Ok(crash(store.into_disk(), way)),
        Err(Refused { fault, disk }) => match fault {
            StoreFault::NoMemory => Err(disk),
            _ => Ok(crash(disk, way)),
        },
    }
}
