//! A command as a line of the journal: the sum of it and of what the line before it tells, a space, and the command.
ghost use Rattle.std.specs.Prelude.{◌≡◌, drop, IfOk};
ghost use Rattle.durable_table.specs.Seals.{front, seal, is_sealed, link_of};

use hex::encode_to_slice;
use sha2::{Digest, Sha256};
use std::alloc::{AllocError, Global};

/// How many digits a sum has.
pub(crate) const DIGITS: usize = 16;

/// How many bytes stand before a command: a sum and a space.
pub(crate) const FRONT: usize = DIGITS + 1;

/// What stands before a command behind a line that tells this link.
#[tactic(auto, using(crate::proofs::ChainLemmas::digest_length))]
fn front(link: &[u8], command: &[u8]) -> [u8; FRONT]
    ensures { result ≡ front link.now command.now }
{
    let mut hasher = Sha256::new();
    hasher.update(link);
    hasher.update(command);
    let sum = hasher.finalize();
    let mut front = [b' '; FRONT];
    encode_to_slice(&sum[..DIGITS / 2], &mut front[..DIGITS]).unwrap();
    front
}

/// The line of a journal that a command is, behind one that tells this link.
pub(crate) fn seal(alloc: Global, link: &[u8], command: &[u8]) -> Result<Vec<u8>, AllocError>
    ensures { IfOk result (λ line. line.items ≡ seal link.now command.now) }
{
    let mut line = Vec::from_slice(alloc, &front(link, command))?;
    line.extend_from_slice(command)?;
    Ok(line)
}

/// What stands behind the first 17 bytes of a line.
pub(crate) fn command_of(line: &[u8]) -> &[u8]
    ensures { result.now ≡ drop 17 line.now }
{
    if line.len() < FRONT {
        return &[];
    }
    &line[FRONT..]
}

/// What a line tells the next one: its sum.
pub(crate) fn link_of(line: &[u8]) -> &[u8]
    ensures { result.now ≡ link_of line.now }
{
    if line.len() < DIGITS {
        return line;
    }
    &line[..DIGITS]
}

/// Whether a line begins with the sum of its command behind one that tells this link.
pub(crate) fn is_sealed(link: &[u8], line: &[u8]) -> bool
    ensures { result ≡ is_sealed link.now line.now }
{
    line.starts_with(&front(link, command_of(line)))
}
