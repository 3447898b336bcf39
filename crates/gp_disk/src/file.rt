//! A disk over a file.

ghost use Rattle.std.specs.Prelude.{◌≡◌, ◌+◌, ◌≤◌, ◌<◌, false, IfOk, OnOk, OnErr, is_ok};
ghost use Rattle.std.proofs.Common.{lit<};
ghost use Rattle.gp_base.specs.Outside.{one_more};
ghost use Rattle.gp_disk.specs.Counts.{tally_of};
ghost use Rattle.gp_disk.specs.FileDisk.{no_image, no_images, none_told};
ghost use Rattle.gp_disk.specs.Fuse.{Untold};

use crate::Disk;
use crate::counts::Counts;
use gp_base::{Failed, NoMemory};
use std::alloc::Global;
use std::fs::{OpenFile, OpenOptions};
use std::io;
use std::io::{Read, Seek, SeekFrom, Write};
use std::rt::Files;

const SIZE: u64 = 2_097_152;

/// A disk of 2,097,152 octets over a file. It tells nothing of what the file holds: no contract says what a file
/// gives or keeps. Its count of faults rises by one at each error.
///
/// The file is opened, or created, at the first call of `read`, `write_at`, `zero` or `sync`. Octets past its end
/// read as zeros. A read takes no memory, and as much of the stack as its buffer is long.
#[derive(Drop)]
pub struct FileDisk<R: Files + Drop> {
    rt: R,
    path: String,
    file: Option<R::File>,
    counts: Counts,
    faults: u64,
    ghost few_octets: { counts.octets ≤ 262400 },
}

impl<R: Files + Drop> FileDisk<R> {
    /// A disk over the file at this path, which isn't opened yet.
    pub fn at(rt: R, alloc: Global, path: &str) -> Result<FileDisk<R>, NoMemory>
        ensures tally { IfOk result (λ disk. ⟦<FileDisk<R> as Disk>⟧.tally disk ≡ record { size = 2097152; begins = 0; before = 0; calls = 0; writes = 0; octets = 0; pending = false; unsettled = false }) }
        ensures faults { IfOk result (λ disk. ⟦<FileDisk<R> as Disk>⟧.faults disk ≡ 0) }
    {
        let Ok(path) = String::from_str(alloc, path) else {
            return Err(NoMemory);
        };
        Ok(FileDisk {
            rt,
            path,
            file: None,
            counts: Counts::none(),
            faults: 0,
        })
    }
}

impl<R: Files + Drop> Disk for FileDisk<R> {
    ghost image = { λ _. no_image };

    ghost may_leave = { λ _. no_images };

    ghost left = { λ _. no_images };

    ghost tally = { λ disk. tally_of 2097152 disk.counts };

    ghost faults = { λ disk. disk.faults };

    ghost fuse = { λ _. Untold };

    ghost holds = { λ disk c is. none_told c is };

    ghost counts_now = { λ disk c now. now };

    ghost fits = { λ disk c is. absurd (none_told c is) };

    ghost bounded = { λ disk. lit< tt };

    fn size(&self) -> u64 {
        SIZE
    }

    fn begin(&mut self) {
        self.counts.begin();
    }

    fn read(&mut self, at: u64, into: &mut [u8]) -> Result<(), Failed> {
        self.counts.read();
        let answer = read_file(&self.rt, &self.path, &mut self.file, at, into);
        count_fault(&mut self.faults, answer)
    }

    fn write_at(&mut self, at: u64, octets: &[u8]) -> Result<(), Failed> {
        self.counts.write(octets.len() as u64);
        let answer = write_file(&self.rt, &self.path, &mut self.file, at, octets);
        count_fault(&mut self.faults, answer)
    }

    fn zero(&mut self, at: u64, count: u64) -> Result<(), Failed> {
        self.counts.write(0);
        let answer = zero_file(&self.rt, &self.path, &mut self.file, at, count);
        count_fault(&mut self.faults, answer)
    }

    fn sync(&mut self) -> Result<(), Failed> {
        match sync_file(&self.rt, &self.path, &mut self.file) {
            Ok(()) => {
                self.counts.sync();
                Ok(())
            }
            Err(_) => {
                self.counts.failed_sync();
                self.faults = self.faults.saturating_add(1);
                Err(Failed)
            }
        }
    }
}

/// Raises a count of faults where a call failed.
fn count_fault(faults: &mut u64, answer: io::Result<()>) -> Result<(), Failed>
    ensures same { is_ok result ≡ is_ok answer }
    ensures good { OnOk result (faults.new ≡ faults.old) }
    ensures failed { OnErr result (faults.new ≡ one_more faults.old) }
    ensures kept { faults.old ≤ faults.new }
{
    match answer {
        Ok(()) => Ok(()),
        Err(_) => {
            *faults = faults.saturating_add(1);
            Err(Failed)
        }
    }
}

/// The file, which is opened or created where it isn't open yet.
fn opened<'a, R: Files>(
    rt: &R,
    path: &str,
    file: &'a mut Option<R::File>,
) -> io::Result<&'a mut R::File> {
    match file {
        Some(file) => Ok(file),
        None => {
            let mut options = OpenOptions::new();
            options.read(true).write(true).create(true);
            Ok(file.insert(options.open(rt, path)?))
        }
    }
}

/// Reads octets from a place on, all of them or none. Those past the file's end are zeros.
fn read_file<R: Files>(
    rt: &R,
    path: &str,
    file: &mut Option<R::File>,
    at: u64,
    into: &mut [u8],
) -> io::Result<()>
    ensures { OnErr result (into.new ≡ into.old) }
{
    let file = opened(rt, path, file)?;
    file.seek(SeekFrom::Start(at))?;
    read_on(file, into)
}

/// Reads all of a buffer or nothing of it: no piece is put there before those behind it are read.
fn read_on<F: Read>(file: &mut F, into: &mut [u8]) -> io::Result<()>
    ensures { OnErr result (into.new ≡ into.old) }
{
    if into.is_empty() {
        return Ok(());
    }
    let count = into.len().min(4096);
    let mut piece = [0u8; 4096];
    fill(file, &mut piece[..count])?;
    read_on(file, &mut into[count..])?;
    into[..count].copy_from_slice(&piece[..count]);
    Ok(())
}

/// Reads into a buffer of zeros, of which those past the file's end stay.
fn fill<F: Read>(file: &mut F, piece: &mut [u8]) -> io::Result<()> {
    let mut place = 0;
    while place < piece.len() {
        let count = file.read(&mut piece[place..])?;
        if count == 0 {
            return Ok(());
        }
        place += count;
    }
    Ok(())
}

fn write_file<R: Files>(
    rt: &R,
    path: &str,
    file: &mut Option<R::File>,
    at: u64,
    octets: &[u8],
) -> io::Result<()> {
    let file = opened(rt, path, file)?;
    file.seek(SeekFrom::Start(at))?;
    file.write_all(octets)
}

fn zero_file<R: Files>(
    rt: &R,
    path: &str,
    file: &mut Option<R::File>,
    at: u64,
    count: u64,
) -> io::Result<()> {
    let file = opened(rt, path, file)?;
    file.seek(SeekFrom::Start(at))?;
    let zeros = [0u8; 4096];
    let mut left = count;
    while left > 0 {
        let piece = left.min(4096);
        file.write_all(&zeros[..piece as usize])?;
        left -= piece;
    }
    Ok(())
}

fn sync_file<R: Files>(rt: &R, path: &str, file: &mut Option<R::File>) -> io::Result<()> {
    opened(rt, path, file)?.sync_all()
}
