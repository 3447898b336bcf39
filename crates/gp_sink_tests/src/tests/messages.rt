// What proxies are told, octet by octet.
use super::{K, fresh, offer};
use gp_cluster::{Sent, Zcl, encode, valid};
use gp_sink::Verdict;
use std::alloc::Global;
use std::process::Abort;
use std::test::Fail;

// The octets of a message with sequence 0, as digits.
pub fn digits(rt: &impl Abort, alloc: Global, message: Sent) -> Result<String, Fail> {
    let Sent { to: _, body } = message;
    let zcl = Zcl {
        quiet: true,
        sequence: 0,
        body,
    };
    if !valid(&zcl) {
        panic!(rt; "no message");
    }
    Ok(hex::encode_upper(alloc, encode(&zcl).as_slice())?)
}

#[test]
fn a_pairing_is_told(rt: HostRuntime) -> Result<(), Fail> {
    let mut sink = fresh(&rt, rt.alloc())?;
    match sink.pair(&offer(K, 1)) {
        Ok(Verdict::Paired { message, .. }) => {
            assert_eq!(rt;
                digits(&rt, rt.alloc(), message)?.as_str(),
                "19000128E4002143658721430201000000C0C1C2C3C4C5C6C7C8C9CACBCCCDCECF"
            )
        }
        other => panic!(rt; "{other:?}"),
    }
    Ok(())
}
