//! Numbers of a report.
ghost use Rattle.std.specs.Prelude.{◌≡◌, ◌≤◌, ◌==◌, ◌&&◌, nat_lt, length, slice_index, IfSome};
ghost use Rattle.std.specs.Option.{option_map};
ghost use Rattle.timeline_drive.specs.Numbers.{leads_with_zero, decimal_within, thread_of};

use text_parts::number_within;

/// The largest index of a step, and the largest number of a call.
pub(crate) const LAST_STEP: u64 = 999_999;

/// The largest number of a thread or a worker.
pub(crate) const LAST_THREAD: u64 = 63;

fn leads_with_zero(word: &[u8]) -> bool
    ensures { result ≡ leads_with_zero word.now }
{
    word.len() > 1 && word[0] == b'0'
}

/// The number that a word is: a decimal without leading zeros, at most the limit.
pub(crate) fn decimal_within(limit: u64, word: &[u8]) -> Option<u64>
    ensures value { result ≡ decimal_within limit word.now }
    ensures within { IfSome result (λ n. n ≤ limit) }
{
    if leads_with_zero(word) {
        return None;
    }
    number_within(limit, word)
}

/// The index of a step, or the number of a call.
pub(crate) fn index_of(word: &[u8]) -> Option<u32>
    ensures { result ≡ decimal_within 999999 word.now }
{
    Some(decimal_within(LAST_STEP, word)? as u32)
}

/// The number of a thread, which has `t` before it.
pub(crate) fn thread_of(word: &[u8]) -> Option<u8>
    ensures { result ≡ thread_of word.now }
{
    match word {
        [b't', number @ ..] => Some(decimal_within(LAST_THREAD, number)? as u8),
        _ => None,
    }
}
