ghost use Rattle.std.specs.Prelude.{◌≡◌};
ghost use Rattle.sync_filters.specs.Holders.{digest_of, mixed, mark_of, with_bit as with_one, has_bits as has_each_bit};

use ulid_core::{ENTROPY_COUNT, Ulid};

/// An odd number whose bits are well mixed: 2^128 divided by the golden ratio.
const MIXER: u128 = 0x9e37_79b9_7f4a_7c15_f39c_c060_5ced_c835;

/// A number that equal lists of sources share, and others hardly ever.
pub(crate) fn digest(sources: &[Ulid]) -> u128
    ensures { result ≡ digest_of sources.now }
{
    let mut digest = 0;
    for source in sources {
        digest = mix(digest, number_of(*source));
    }
    digest
}

fn mix(digest: u128, source: u128) -> u128
    ensures { result ≡ mixed digest source }
{
    digest.wrapping_mul(MIXER).wrapping_add(source)
}

/// The ULID as a number.
pub(crate) fn number_of(ulid: Ulid) -> u128
    ensures { result ≡ ulid }
{
    u128::from(ulid.time()) * ENTROPY_COUNT + ulid.entropy()
}

/// A bit for each source, of 128 in all. A list that has all members of another has all its bits too.
pub(crate) fn mark(sources: &[Ulid]) -> u128
    ensures { result ≡ mark_of sources.now }
{
    let mut mark = 0;
    for source in sources {
        mark = with_bit(mark, number_of(*source));
    }
    mark
}

fn with_bit(mark: u128, source: u128) -> u128
    ensures { result ≡ with_one mark source }
{
    mark | 1u128 << (source % 128) as u32
}

/// Whether each bit of the few is one of the many.
pub(crate) fn has_bits(many: u128, few: u128) -> bool
    ensures { result ≡ has_each_bit many few }
{
    few | many == many
}
