//! What no clause says: the exit statuses, and the texts of standard error.

use super::*;
use std::alloc::Global;
use std::cell::RefCell;
use std::io;
use std::process::Abort;

/// The statuses that name no reason, each with its exit status and its text.
const STATUSES: [(Status, u8, &str); 8] = [
    (Status::Done, 0, ""),
    (Status::Usage, 2, "gp: usage\n"),
    (Status::ReadFault, 3, "gp: read fault\n"),
    (Status::WriteFault, 4, "gp: write fault\n"),
    (Status::DiskFault, 5, "gp: disk fault\n"),
    (Status::NoMemory, 6, "gp: no memory\n"),
    (Status::Worn { generation: 12 }, 8, "gp: worn at 12\n"),
    (Status::TooLong, 9, "gp: too long\n"),
];

const LINE_REASONS: [(LineReason, &str); 5] = [
    (LineReason::Form, "gp: bad line 7: Form\n"),
    (LineReason::Taken, "gp: bad line 7: Taken\n"),
    (LineReason::Many, "gp: bad line 7: Many\n"),
    (LineReason::Absent, "gp: bad line 7: Absent\n"),
    (LineReason::Missing, "gp: bad line 7: Missing\n"),
];

const DISK_REASONS: [(DiskReason, &str); 4] = [
    (DiskReason::DiskShort, "gp: disk refused: DiskShort\n"),
    (DiskReason::NotFormatted, "gp: disk refused: NotFormatted\n"),
    (
        DiskReason::AlreadyFormatted,
        "gp: disk refused: AlreadyFormatted\n",
    ),
    (
        DiskReason::SlotForm { slot: 511 },
        "gp: disk refused: SlotForm 511\n",
    ),
];

const PCAP_REASONS: [(PcapReason, &str); 5] = [
    (PcapReason::Magic, "gp: bad pcap: Magic 70000\n"),
    (PcapReason::Version, "gp: bad pcap: Version 70000\n"),
    (PcapReason::Link, "gp: bad pcap: Link 70000\n"),
    (PcapReason::Length, "gp: bad pcap: Length 70000\n"),
    (PcapReason::Cut, "gp: bad pcap: Cut 70000\n"),
];

/// A standard error that keeps what is said on it.
#[derive(Drop)]
struct Said {
    text: RefCell<String>,
}

impl Eprint for Said {
    fn eprint<D: Display + Drop>(&self, value: D) -> io::Result<()> {
        let mut text = self.text.try_borrow_mut()?;
        write!(text, "{value}")?;
        Ok(())
    }

    fn eprintln<D: Display + Drop>(&self, value: D) -> io::Result<()> {
        let mut text = self.text.try_borrow_mut()?;
        writeln!(text, "{value}")?;
        Ok(())
    }
}

/// The status has this exit status, and this is all that is said of it.
fn check(rt: &impl Abort, alloc: Global, status: Status, number: u8, text: &str) {
    assert_eq!(rt; exit_number(status), number, "{text}");
    let said = Said {
        text: RefCell::new(String::new(alloc)),
    };
    report(&said, status);
    assert_eq!(rt; said.text.into_inner().as_str(), text);
}

#[test]
fn each_status_has_its_number_and_one_line(rt: HostRuntime) {
    let alloc = rt.alloc();
    for (status, number, text) in STATUSES {
        check(&rt, alloc, status, number, text);
    }
    for (reason, text) in LINE_REASONS {
        check(&rt, alloc, Status::BadLine { line: 7, reason }, 1, text);
    }
    for (reason, text) in PCAP_REASONS {
        let status = Status::BadPcap {
            place: 70_000,
            reason,
        };
        check(&rt, alloc, status, 10, text);
    }
    for (reason, text) in DISK_REASONS {
        check(&rt, alloc, Status::DiskRefused(reason), 7, text);
    }
}
