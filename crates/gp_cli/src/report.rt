//! What the program says of its status.

use gp_app::{DiskReason, Status};
use gp_pcap::PcapReason;
use gp_script::LineReason;
use std::fmt;
use std::fmt::{Display, Formatter};

/// The exit status of the process: 0 to 10 in the order of the variants.
pub fn exit_number(status: Status) -> u8 {
    match status {
        Status::Done => 0,
        Status::BadLine { .. } => 1,
        Status::Usage => 2,
        Status::ReadFault => 3,
        Status::WriteFault => 4,
        Status::DiskFault => 5,
        Status::NoMemory => 6,
        Status::DiskRefused(_) => 7,
        Status::Worn { .. } => 8,
        Status::TooLong => 9,
        Status::BadPcap { .. } => 10,
    }
}

/// Says on standard error how the run ended, where it isn't Done: `gp: `, the text of the status and one LF.
pub fn report(rt: &impl Eprint, status: Status) {
    let _ = rt.eprint(Text(status));
}

// What is said of a status, with the LF that ends it. Of Done nothing is said.
#[derive(Clone, Copy)]
struct Text(Status);

impl Display for Text {
    fn fmt<W: fmt::Write>(&self, f: &mut Formatter<W>) -> fmt::Result {
        match self.0 {
            Status::Done => Ok(()),
            Status::BadLine { line, reason } => {
                let name = reason_name(reason);
                writeln!(f, "gp: bad line {line}: {name}")
            }
            Status::Usage => writeln!(f, "gp: usage"),
            Status::ReadFault => writeln!(f, "gp: read fault"),
            Status::WriteFault => writeln!(f, "gp: write fault"),
            Status::DiskFault => writeln!(f, "gp: disk fault"),
            Status::NoMemory => writeln!(f, "gp: no memory"),
            Status::DiskRefused(DiskReason::SlotForm { slot }) => {
                writeln!(f, "gp: disk refused: SlotForm {slot}")
            }
            Status::DiskRefused(reason) => {
                let name = disk_reason_name(reason);
                writeln!(f, "gp: disk refused: {name}")
            }
            Status::Worn { generation } => writeln!(f, "gp: worn at {generation}"),
            Status::TooLong => writeln!(f, "gp: too long"),
            Status::BadPcap { place, reason } => {
                let name = pcap_reason_name(reason);
                writeln!(f, "gp: bad pcap: {name} {place}")
            }
        }
    }
}

fn reason_name(reason: LineReason) -> &'static str {
    match reason {
        LineReason::Form => "Form",
        LineReason::Taken => "Taken",
        LineReason::Many => "Many",
        LineReason::Absent => "Absent",
        LineReason::Missing => "Missing",
    }
}

fn pcap_reason_name(reason: PcapReason) -> &'static str {
    match reason {
        PcapReason::Magic => "Magic",
        PcapReason::Version => "Version",
        PcapReason::Link => "Link",
        PcapReason::Length => "Length",
        PcapReason::Cut => "Cut",
    }
}

fn disk_reason_name(reason: DiskReason) -> &'static str {
    match reason {
        DiskReason::DiskShort => "DiskShort",
        DiskReason::NotFormatted => "NotFormatted",
        DiskReason::AlreadyFormatted => "AlreadyFormatted",
        DiskReason::SlotForm { .. } => "SlotForm",
    }
}

#[cfg(test)]
mod tests;
