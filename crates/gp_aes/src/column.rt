//! One column of the state, or one word of the expanded key, as a number with its first row in the lowest octet.
ghost use Rattle.std.specs.Prelude.{◌≡◌, ℕ, ◌<◌, ◌≤◌, ◌+◌, ◌-◌, ◌*◌, ◌/◌, ◌%◌, [], ◌∷◌, length, slice_index};
ghost use Rattle.gp_aes.specs.Field.{product, sub_byte};
ghost use Rattle.gp_aes.specs.Cipher.{mix_column};
ghost use Rattle.gp_aes.specs.Columns.{rows_of};
ghost use Rattle.gp_aes.specs.KeyExpansion.{add_words, sub_word, rot_word, round_constant};

use crate::tables::{MIXED_0, MIXED_1, MIXED_2, MIXED_3, SUB};

/// The S-box.
#[inline(always)]
fn substitute(octet: u32) -> u8
    requires { octet < 256 }
    ensures { result ≡ sub_byte octet }
{
    SUB[octet as usize]
}

#[inline(always)]
fn mixed_0(octet: u32) -> u32
    requires { octet < 256 }
    ensures { let s = sub_byte octet in rows_of result ≡ product 2 s ∷ product 1 s ∷ product 1 s ∷ product 3 s ∷ [] }
{
    MIXED_0[octet as usize]
}

#[inline(always)]
fn mixed_1(octet: u32) -> u32
    requires { octet < 256 }
    ensures { let s = sub_byte octet in rows_of result ≡ product 3 s ∷ product 2 s ∷ product 1 s ∷ product 1 s ∷ [] }
{
    MIXED_1[octet as usize]
}

#[inline(always)]
fn mixed_2(octet: u32) -> u32
    requires { octet < 256 }
    ensures { let s = sub_byte octet in rows_of result ≡ product 1 s ∷ product 3 s ∷ product 2 s ∷ product 1 s ∷ [] }
{
    MIXED_2[octet as usize]
}

#[inline(always)]
fn mixed_3(octet: u32) -> u32
    requires { octet < 256 }
    ensures { let s = sub_byte octet in rows_of result ≡ product 1 s ∷ product 1 s ∷ product 3 s ∷ product 2 s ∷ [] }
{
    MIXED_3[octet as usize]
}

/// A column after a whole round: `a`, `b`, `c` and `d` are the columns from which ShiftRows takes the four rows.
#[inline(always)]
pub fn mixed_column(a: u32, b: u32, c: u32, d: u32, key: u32) -> u32
    ensures { rows_of result ≡ add_words (mix_column (
        sub_byte (a % 256) ∷ sub_byte (b / 256 % 256) ∷ sub_byte (c / 65536 % 256) ∷ sub_byte (d / 16777216 % 256) ∷ []))
        (rows_of key) }
{
    mixed_0(a % 256)
        ^ mixed_1(b / 256 % 256)
        ^ mixed_2(c / 65536 % 256)
        ^ mixed_3(d / 16777216 % 256)
        ^ key
}

/// The column of the S-box values of four octets.
#[inline(always)]
fn substituted(a: u32, b: u32, c: u32, d: u32) -> u32
    requires a { a < 256 }
    requires b { b < 256 }
    requires c { c < 256 }
    requires d { d < 256 }
    ensures { rows_of result ≡ sub_byte a ∷ sub_byte b ∷ sub_byte c ∷ sub_byte d ∷ [] }
{
    u32::from_le_bytes([substitute(a), substitute(b), substitute(c), substitute(d)])
}

/// A column after the last round, which has no MixColumns.
#[inline(always)]
pub fn last_column(a: u32, b: u32, c: u32, d: u32, key: u32) -> u32
    ensures { rows_of result ≡ add_words (
        sub_byte (a % 256) ∷ sub_byte (b / 256 % 256) ∷ sub_byte (c / 65536 % 256) ∷ sub_byte (d / 16777216 % 256) ∷ [])
        (rows_of key) }
{
    substituted(a % 256, b / 256 % 256, c / 65536 % 256, d / 16777216 % 256) ^ key
}

/// SubWord of RotWord.
pub fn turned(word: u32) -> u32
    ensures { rows_of result ≡ sub_word (rot_word (rows_of word)) }
{
    substituted(
        word / 256 % 256,
        word / 65536 % 256,
        word / 16777216 % 256,
        word % 256,
    )
}

/// The column that begins at an octet of a block.
#[inline(always)]
pub fn column_at(block: &[u8; 16], at: usize) -> u32
    requires { at + 4 ≤ 16 }
    ensures { rows_of result ≡ slice_index block.now at ∷ slice_index block.now (at + 1)
        ∷ slice_index block.now (at + 2) ∷ slice_index block.now (at + 3) ∷ [] }
{
    u32::from_le_bytes([block[at], block[at + 1], block[at + 2], block[at + 3]])
}
