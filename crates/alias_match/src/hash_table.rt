//! A hash table of marks: at which places a mark was added.
ghost use Rattle.std.specs.Prelude.{◌≡◌, ◌<◌, ◌++◌, ◌∷◌, [], OnOk, OnErr, length, nat_eq, slice_get, Some};
ghost use Rattle.alias_match.specs.Marks.{mark, with_digit};
ghost use Rattle.alias_match.specs.ForProofs.{last_below};

use crate::chains::{ChainEntry, bucket_of, chain, find_in_chain, rehash};
use std::alloc::{AllocError, Global};
use std::marker::Model;

/// How many bytes a mark tells apart.
pub(crate) const MARK_BYTES: usize = 8;

/// How many numbers have seven digits to the base 256.
const SEVEN_DIGITS: u64 = 72_057_594_037_927_936;

/// A number with one more digit to the base 256, of which the last eight stay.
pub(crate) fn with_digit(number: u64, digit: u8) -> u64
    ensures { result ≡ with_digit number digit }
{
    number % SEVEN_DIGITS * 256 + u64::from(digit)
}

/// The number that the last eight bytes are, or all bytes if there are fewer.
pub(crate) fn mark(bytes: &[u8]) -> u64
    ensures { result ≡ mark bytes.now }
{
    let last = &bytes[bytes.len().saturating_sub(MARK_BYTES)..];
    let mut number = 0u64;
    for byte in last {
        number = with_digit(number, *byte);
    }
    number
}

/// A hash table with chains. Its keys are marks, in the order in which they were added, and it finds the places of a key from
/// the last to the first. A bucket has one more than the place of its chain's last entry, 0 if it is empty.
#[derive(Drop)]
pub(crate) struct HashTable {
    buckets: Vec<usize>,
    entries: Vec<ChainEntry>,
}

impl Model for HashTable {
    ghost use Rattle.std.specs.Prelude.{List, ℕ};
    ghost use Rattle.alias_match.specs.ForProofs.{AreChained, keys_of};

    ghost Value = { List ℕ };

    ghost view = { λ table. keys_of table.entries.items };

    ghost invariant = { λ table. AreChained table.buckets.items table.entries.items };
}

/// The fewest buckets.
const FEWEST_BUCKETS: usize = 16;

impl HashTable {
    pub fn new(alloc: Global) -> HashTable
        ensures { result ≡ [] }
    {
        HashTable {
            buckets: Vec::new(alloc),
            entries: Vec::new(alloc),
        }
    }

    /// Adds a key after the others. If memory runs out they stay as they were. Half of the buckets are left over, so that
    /// chains are short.
    pub fn add(&mut self, alloc: Global, key: u64) -> Result<(), AllocError>
        ensures ok { OnOk result (self.new ≡ self.old ++ key ∷ []) }
        ensures err { OnErr result (self.new ≡ self.old) }
    {
        let place = self.entries.len();
        let entry = ChainEntry { key, before: 0 };
        if place < self.buckets.len() / 2 {
            self.entries.push(entry)?;
            chain(&mut self.buckets, &mut self.entries, place);
        } else {
            let mut buckets = vec![in alloc; 0usize; place.saturating_mul(4).max(FEWEST_BUCKETS)]?;
            self.entries.push(entry)?;
            rehash(&mut buckets, &mut self.entries);
            self.buckets = buckets;
        }
        Ok(())
    }

    /// The last place of a key.
    pub fn last(&self, key: u64) -> Option<usize>
        ensures { result ≡ last_below key self.now (length self.now) }
    {
        if self.buckets.is_empty() {
            return None;
        }
        let bucket = bucket_of(key, self.buckets.len());
        find_in_chain(&self.entries, key, self.buckets[bucket])
    }

    /// The last place of a key before one of its places.
    pub fn before(&self, key: u64, place: usize) -> Option<usize>
        requires { slice_get self.now place ≡ Some key }
        ensures { result ≡ last_below key self.now place }
    {
        find_in_chain(&self.entries, key, self.entries[place].before)
    }
}
