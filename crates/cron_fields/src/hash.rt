ghost use Rattle.std.specs.Prelude.{◌≡◌};
ghost use Rattle.cron_fields.specs.Hash.{fnv_of, pick_of};

use crate::field::FieldKind;

/// What a hashed field is picked by: the owner of an entry, and its command as it is written.
#[derive(Clone, Copy, Debug, PartialEq, Eq)]
pub struct HashSeed<'a> {
    pub owner: &'a str,
    pub command: &'a str,
}

/// The hash of no bytes: the offset basis of 64 bits of FNV (Fowler, Noll and Vo).
pub const FNV_START: u64 = 14_695_981_039_346_656_037;

/// Continues a hash, from `FNV_START` on, over more bytes: FNV-1a of 64 bits.
pub fn fnv(hash: u64, bytes: &[u8]) -> u64
    ensures { result ≡ fnv_of hash bytes.now }
{
    let mut hash = hash;
    for byte in bytes {
        hash = (hash ^ *byte as u64).wrapping_mul(1_099_511_628_211);
    }
    hash
}

/// The value of a hashed field: one of 0 to 59, 0 to 23, 1 to 28, 1 to 12 or 0 to 6, by the hash modulo their count.
pub fn pick(kind: FieldKind, hash: u64) -> u8
    ensures { result ≡ pick_of kind hash }
{
    let (least, count) = match kind {
        FieldKind::Minute => (0, 60),
        FieldKind::Hour => (0, 24),
        FieldKind::MonthDay => (1, 28),
        FieldKind::Month => (1, 12),
        FieldKind::WeekDay => (0, 7),
    };
    least + (hash % count) as u8
}
