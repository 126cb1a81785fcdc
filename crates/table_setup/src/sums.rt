//! The sum of a text.
ghost use Rattle.std.specs.Prelude.{◌≡◌, ◌<◌, ◌≤◌, fold, length};
ghost use Rattle.table_setup.specs.Sums.{adler32, after_byte};
ghost use Rattle.table_setup.specs.ForProofs.{sums_in};

/// The greatest prime below 2^16.
const MODULUS: u64 = 65_521;

/// How many bytes are added before the sums are brought below the prime: a division for each byte would take longer than all else.
const BLOCK: usize = 4096;

/// The two sums of Adler-32: of the bytes, and of what the first sum was after each byte. Both are below the prime.
#[derive(Clone, Copy, Drop)]
struct Sums {
    low: u64,
    high: u64,
}

/// The sums after a block of bytes.
fn after_block(sums: Sums, block: &[u8]) -> Sums
    requires below { (sums.low < 65521) × (sums.high < 65521) }
    requires short { length block.now ≤ 4096 }
    ensures sums { sums_in result ≡ fold after_byte (sums_in sums) block.now }
    ensures below { (result.low < 65521) × (result.high < 65521) }
{
    // They stay small, so nothing wraps. Said so, no test for that is left in the loop, which goes over all of a setup.
    let Sums { mut low, mut high } = sums;
    for byte in block {
        low = low.wrapping_add(u64::from(*byte));
        high = high.wrapping_add(low);
    }
    Sums {
        low: low % MODULUS,
        high: high % MODULUS,
    }
}

/// The sum Adler-32 of a text (RFC 1950).
pub fn adler32(text: &[u8]) -> u32
    ensures { result ≡ adler32 text.now }
{
    let (mut sums, mut rest) = (Sums { low: 1, high: 0 }, text);
    while !rest.is_empty() {
        let (block, later) = rest.split_at(rest.len().min(BLOCK));
        sums = after_block(sums, block);
        rest = later;
    }
    (sums.high * 65_536 + sums.low) as u32
}
