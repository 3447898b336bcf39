//! Sums of octets, and the comparison of tags.
ghost use Rattle.std.specs.Prelude.{◌≡◌, ◌+◌, ◌<◌, ◌≤◌, ◌↔◌, ◌∷◌, ◌++◌, length, IsTrue};
ghost use Rattle.gp_ccm.specs.Blocks.{padded, two_octets, xor_octets};

use gp_base::Octets;

/// A block of one octet, a nonce and a number, most significant octet first.
pub fn around(first: u8, nonce: &[u8; 13], last: u16) -> [u8; 16]
    ensures { result ≡ first ∷ nonce.now ++ two_octets last }
{
    [
        first,
        nonce[0],
        nonce[1],
        nonce[2],
        nonce[3],
        nonce[4],
        nonce[5],
        nonce[6],
        nonce[7],
        nonce[8],
        nonce[9],
        nonce[10],
        nonce[11],
        nonce[12],
        (last / 256) as u8,
        (last % 256) as u8,
    ]
}

/// A block with at most 16 octets added to it, from its beginning on.
pub fn with_added(block: [u8; 16], octets: &[u8]) -> [u8; 16]
    requires { length octets.now ≤ 16 }
    ensures { result ≡ xor_octets block (padded octets.now) }
{
    let mut sum = block;
    for i in 0..octets.len() {
        sum[i] ^= octets[i];
    }
    sum
}

/// Puts octets, each with its octet of a block added, behind a list.
pub fn append_sum(out: &mut Octets, octets: &[u8], block: &[u8; 16])
    requires piece { length octets.now ≤ 16 }
    requires room { length out.old + length octets.now ≤ 127 }
    ensures { out.new ≡ out.old ++ xor_octets octets.now block.now }
{
    for i in 0..octets.len() {
        let _ = out.push(octets[i] ^ block[i]);
    }
}

/// Whether two lists of one length are equal. It looks at all octets wherever they differ; nothing is claimed of time.
pub fn are_same(left: &[u8], right: &[u8]) -> bool
    requires { length left.now ≡ length right.now }
    ensures { IsTrue result ↔ (left.now ≡ right.now) }
{
    let mut difference = 0u8;
    for i in 0..left.len() {
        difference |= left[i] ^ right[i];
    }
    difference == 0
}
