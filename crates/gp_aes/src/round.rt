//! The rounds on a state of four columns.
ghost use Rattle.std.specs.Prelude.{◌≡◌, ℕ, ◌<◌, ◌≤◌, ◌+◌};
ghost use Rattle.gp_aes.specs.Cipher.{add_round_key, mix_columns, shift_rows, sub_bytes};
ghost use Rattle.gp_aes.specs.Columns.{octets_of, rows_of};
ghost use Rattle.gp_aes.specs.KeyExpansion.{next_round_key};

use crate::column::{column_at, last_column, mixed_column, turned};

/// Four columns, of a state or a round key.
pub type Columns = [u32; 4];

/// The columns of a block.
#[inline(always)]
pub fn columns_of(block: &[u8; 16]) -> Columns
    ensures { octets_of result ≡ block.now }
{
    [
        column_at(block, 0),
        column_at(block, 4),
        column_at(block, 8),
        column_at(block, 12),
    ]
}

/// The block of four columns.
#[inline(always)]
pub fn block_of(columns: Columns) -> [u8; 16]
    ensures { result ≡ octets_of columns }
{
    let [a, b, c, d] = columns;
    let [a0, a1, a2, a3] = a.to_le_bytes();
    let [b0, b1, b2, b3] = b.to_le_bytes();
    let [c0, c1, c2, c3] = c.to_le_bytes();
    let [d0, d1, d2, d3] = d.to_le_bytes();
    [
        a0, a1, a2, a3, b0, b1, b2, b3, c0, c1, c2, c3, d0, d1, d2, d3,
    ]
}

/// AddRoundKey.
#[inline(always)]
pub fn add_key(s: Columns, k: Columns) -> Columns
    ensures { octets_of result ≡ add_round_key (octets_of s) (octets_of k) }
{
    [s[0] ^ k[0], s[1] ^ k[1], s[2] ^ k[2], s[3] ^ k[3]]
}

/// A whole round.
#[inline(always)]
pub fn whole_round(s: Columns, k: Columns) -> Columns
    ensures { octets_of result ≡ add_round_key (mix_columns (shift_rows (sub_bytes (octets_of s)))) (octets_of k) }
{
    [
        mixed_column(s[0], s[1], s[2], s[3], k[0]),
        mixed_column(s[1], s[2], s[3], s[0], k[1]),
        mixed_column(s[2], s[3], s[0], s[1], k[2]),
        mixed_column(s[3], s[0], s[1], s[2], k[3]),
    ]
}

/// The last round, without MixColumns.
#[inline(always)]
pub fn last_round(s: Columns, k: Columns) -> Columns
    ensures { octets_of result ≡ add_round_key (shift_rows (sub_bytes (octets_of s))) (octets_of k) }
{
    [
        last_column(s[0], s[1], s[2], s[3], k[0]),
        last_column(s[1], s[2], s[3], s[0], k[1]),
        last_column(s[2], s[3], s[0], s[1], k[2]),
        last_column(s[3], s[0], s[1], s[2], k[3]),
    ]
}

// x to the powers 0 to 9, the first octet of the constants of rounds 1 to 10.
const POWERS_OF_X: [u32; 10] = [0x01, 0x02, 0x04, 0x08, 0x10, 0x20, 0x40, 0x80, 0x1b, 0x36];

/// The constant of round `j`.
fn round_constant(j: usize) -> u32
    requires first { 1 ≤ j }
    requires last { j ≤ 10 }
    ensures { rows_of result ≡ Rattle.gp_aes.specs.KeyExpansion.round_constant j }
{
    POWERS_OF_X[j - 1]
}

/// Round key `j`, from the one before it.
pub fn next_key(k: Columns, j: usize) -> Columns
    requires first { 1 ≤ j }
    requires last { j ≤ 10 }
    ensures { octets_of result ≡ next_round_key j (octets_of k) }
{
    let a = k[0] ^ (turned(k[3]) ^ round_constant(j));
    let b = k[1] ^ a;
    let c = k[2] ^ b;
    let d = k[3] ^ c;
    [a, b, c, d]
}
