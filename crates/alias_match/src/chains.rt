//! The chains of a hash table. A key has a bucket, and the entries of the keys of one bucket are a chain, from the last to
//! the first.
ghost use Rattle.std.specs.Prelude.{◌≡◌, ◌≢◌, ◌<◌, ◌≤◌, ◌+◌, length, nat_eq};
ghost use Rattle.alias_match.specs.ForProofs.{IsChained, IsEnd, bucket_of, end_below, keys_of, place_of_end};

/// The multiplier of Fibonacci hashing: 2^64 divided by the golden ratio, made odd (Knuth, The Art of Computer Programming,
/// volume 3, section 6.4).
const SPREAD: u64 = 11_400_714_819_323_198_485;

/// The key of an entry, and one more than the place of the entry before it in its chain, 0 at the chain's first.
#[derive(Drop)]
pub(crate) struct ChainEntry {
    pub key: u64,
    pub before: usize,
}

/// The bucket of a key: its product with the multiplier, of 64 bits, scaled to the number of buckets.
pub(crate) fn bucket_of(key: u64, buckets: usize) -> usize
    requires { buckets ≢ 0 }
    ensures bucket { result ≡ bucket_of key buckets }
    ensures within { result < buckets }
{
    ((key.wrapping_mul(SPREAD) as u128 * buckets as u128) >> 64) as usize
}

/// Puts the entry at a place after those of its chain. The chains have the entries before that place.
pub(crate) fn chain(buckets: &mut [usize], entries: &mut [ChainEntry], place: usize)
    requires within { place < length entries.old }
    requires size { length buckets.old ≢ 0 }
    requires chained { IsChained buckets.old entries.old place }
    ensures chained { IsChained buckets.new entries.new (place + 1) }
    ensures keys { keys_of entries.new ≡ keys_of entries.old }
    ensures size { length buckets.new ≡ length buckets.old }
{
    let bucket = bucket_of(entries[place].key, buckets.len());
    entries[place].before = buckets[bucket];
    buckets[bucket] = place + 1;
}

/// Puts all entries into chains. So far there is none.
pub(crate) fn rehash(buckets: &mut [usize], entries: &mut [ChainEntry])
    requires size { length buckets.old ≢ 0 }
    requires none { IsChained buckets.old entries.old 0 }
    ensures chained { IsChained buckets.new entries.new (length entries.new) }
    ensures keys { keys_of entries.new ≡ keys_of entries.old }
    ensures size { length buckets.new ≡ length buckets.old }
{
    for place in 0..entries.len() {
        chain(buckets, entries, place);
    }
}

/// The last place of a key in a chain, given as one more than the place of the chain's last entry, 0 for no chain.
pub(crate) fn find_in_chain(entries: &[ChainEntry], key: u64, end: usize) -> Option<usize>
    requires { IsEnd entries.now key end }
    ensures { result ≡ place_of_end (end_below (nat_eq key) (keys_of entries.now) end) }
{
    let mut end = end;
    'chain: while end > 0 {
        let entry = &entries[end - 1];
        if entry.key == key {
            return Some(end - 1);
        }
        end = entry.before;
    }
    None
}
