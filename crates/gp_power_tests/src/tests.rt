ghost use Rattle.gp_power.specs.Few.{AreFew};

use gp_base::{Key, KeyKind, Level, Mode, Src};
use gp_commission::Offer;
use gp_power::Powered;
use gp_script::Report;
use gp_sink::Config;
use std::alloc::Global;
use std::process::Abort;
use std::test::Fail;

const K: Key = Key([0xC0; 16]);

const CONFIG: Config = Config {
    address: 1,
    ieee: 1,
    mode: Mode::Derived,
    group: 0,
    channel: 11,
    link: K,
    shared: K,
};

const OFFER: Offer = Offer {
    src: Src(0x8765_4321),
    key: K,
    kind: KeyKind::OutOfBox,
    level: Level::Two,
    device: 2,
    counter: 7,
};

// What is armed in the commit of the first pairing, which has four device calls: the octets behind a gate are written, a sync, the
// gate, a sync.
#[derive(Clone, Copy, Debug)]
enum Armed {
    // The power is cut once so many calls have returned, and the disk crashes in this way.
    Cut(u16, u8),
    // The call behind so many fails, or the fourth.
    Fault(u16),
}

fn arm(powered: &mut Powered, armed: Armed)
    requires { AreFew 0 powered.old }
    ensures { AreFew 0 powered.new }
{
    match armed {
        Armed::Cut(calls, way) => powered.arm_cut(1, calls, way.min(4)),
        Armed::Fault(calls) => powered.arm_fault(1, calls),
    }
}

fn pair(powered: &mut Powered) -> Option<bool>
    requires { AreFew 0 powered.old }
{
    let (_answer, bit) = powered.pair(&OFFER);
    bit
}

// A device is paired with a new sink at which this is armed, which then is switched off and on: whether it remembers the device, as
// the bit says and as its rows do.
fn play(rt: &impl Abort, alloc: Global, armed: Armed) -> (Option<bool>, Option<Report>) {
    match Powered::new(alloc, CONFIG) {
        Ok(mut powered) => {
            arm(&mut powered, armed);
            let cut = pair(&mut powered);
            let (_report, off) = powered.switch_off();
            (cut.or(off), powered.switch_on(alloc).ok())
        }
        Err(_) => panic!(rt; "no memory"),
    }
}

#[test]
fn each_call_of_a_commit(rt: HostRuntime) -> Result<(), Fail> {
    let cases = [
        (Armed::Cut(0, 1), false),
        (Armed::Cut(1, 1), false),
        (Armed::Cut(2, 0), false),
        (Armed::Cut(2, 1), true),
        (Armed::Cut(2, 2), false),
        (Armed::Cut(2, 3), true),
        (Armed::Cut(2, 4), false),
        (Armed::Cut(3, 0), false),
        (Armed::Cut(3, 1), true),
        (Armed::Cut(4, 0), true),
        (Armed::Cut(16, 4), true),
        (Armed::Fault(0), false),
        (Armed::Fault(2), false),
        (Armed::Fault(9), false),
    ];
    for (armed, is_remembered) in cases {
        let (bit, report) = play(&rt, rt.alloc(), armed);
        assert_eq!(rt; bit, Some(is_remembered));
        let rows = u16::from(is_remembered);
        assert_eq!(rt; report, Some(Report::Up { rows }));
    }
    Ok(())
}
