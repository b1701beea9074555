//! The key that the names of a source are hashed with.
ghost use Rattle.std.specs.Prelude.{◌≡◌, ◌≤◌, length};
ghost use Rattle.std.specs.Int.{w64, from_le_bytes};

use core::hash::keyed_hasher;
use sha2::{Digest, Sha256};
use std::hash::{BuildHasher, DefaultHasher};

/// A key of 128 bits for the hashing of names.
///
/// One source has one key, so a program does the same in the same time from run to run.
#[derive(Clone, Copy, Debug)]
pub struct NameKey {
    low: u64,
    high: u64,
}

impl NameKey {
    ghost use Rattle.cx_table.specs.NameKey.{key_of};

    /// The first 128 bits of the SHA-256 of these bytes, those of the source that picks the names.
    pub fn of(bytes: &[u8]) -> NameKey
        ensures { result ≡ key_of bytes.now }
    {
        let digest: [u8; 32] = Sha256::digest(bytes);
        NameKey {
            low: first_word(&digest),
            high: first_word(&digest[8..]),
        }
    }
}

/// The first eight bytes as a number, the first of them lowest.
fn first_word(bytes: &[u8]) -> u64
    requires { 8 ≤ length bytes.now }
    ensures { result ≡ from_le_bytes w64 bytes.now }
{
    u64::from_le_bytes([
        bytes[0], bytes[1], bytes[2], bytes[3], bytes[4], bytes[5], bytes[6], bytes[7],
    ])
}

impl BuildHasher for NameKey {
    type Hasher = DefaultHasher;

    ghost use Rattle.std.specs.Hash.DefaultHasher as sip;

    ghost build_hasher = { λ key. sip.with_keys key.low key.high };

    fn build_hasher(&self) -> DefaultHasher {
        keyed_hasher(self.low, self.high)
    }
}

#[cfg(test)]
mod tests {
    use super::*;

    /// The SHA-256 of `abc` (FIPS 180-4, appendix B.1) begins with ba7816bf 8f01cfea 414140de
    /// 5dae2223.
    #[test]
    fn a_key_is_half_of_a_digest(rt: HostRuntime) {
        let key = NameKey::of(b"abc");
        let again = NameKey::of(b"abc");
        assert_eq!(rt; key.low, 0xeacf_018f_bf16_78ba);
        assert_eq!(rt; key.high, 0x2322_ae5d_de40_4141);
        assert_eq!(rt; (again.low, again.high), (key.low, key.high));
    }

    #[test]
    fn two_keys_hash_one_name_to_two_numbers(rt: HostRuntime) {
        let (first, second) = (NameKey::of(b"int a;"), NameKey::of(b"int b;"));
        let name: &[u8] = b"a";
        assert_eq!(rt; first.hash_one(name), NameKey::of(b"int a;").hash_one(name));
        assert!(rt; first.hash_one(name) != second.hash_one(name));
    }
}
