//! Nonces, and MICs of four octets.

ghost use Rattle.std.specs.Prelude.{◌≡◌, length};
ghost use Rattle.gp_base.specs.Field.{IsOctets};
ghost use Rattle.gp_security.specs.Protection as words;

/// A nonce: three numbers of four octets, least significant octet first, and the octet 05.
pub fn nonce(first: u32, source: u32, counter: u32) -> [u8; 13]
    ensures { result ≡ words.nonce first source counter }
{
    let first = first.to_le_bytes();
    let source = source.to_le_bytes();
    let counter = counter.to_le_bytes();
    [
        first[0], first[1], first[2], first[3], source[0], source[1], source[2], source[3],
        counter[0], counter[1], counter[2], counter[3], 5,
    ]
}

/// Four octets as a MIC.
pub fn mic_of(octets: &[u8]) -> [u8; 4]
    requires { length octets.now ≡ 4 }
    ensures same { result ≡ octets.now }
    ensures octets { IsOctets result }
{
    let mut mic = [0; 4];
    mic.copy_from_slice(octets);
    mic
}
