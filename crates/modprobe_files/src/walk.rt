//! Where a path leads below a root (path_resolution(7), chroot(2)).
ghost use Rattle.std.specs.Prelude.{◌≡◌, ◌++◌, true, Some, IfOk, OnOk};
ghost use Rattle.std.specs.List.{list_all};
ghost use Rattle.modprobe_words.specs.Variable.{bytes_of};
ghost use Rattle.modprobe_files.specs.Rooted.{Entries, IsInside, IsReached, above, folder, is_here, is_part, is_up, parts_of, resolved, start_of, step_by, walk};
ghost use Rattle.modprobe_files.specs.Places.{IsFoundInside, IsStopped, entry_of, resolved_of, stop_of};

use crate::system::{Entry, System};
use std::alloc::{AllocError, Global};
use std::{io, mem};
use text_parts::is_same;

/// How many walks a path may take: one more than the links that may be followed.
const MOST_WALKS: usize = 41;

/// Where a walk stops.
#[derive(Drop)]
pub(crate) enum Stop {
    At,
    /// At a link: these parts are left.
    Linked(Vec<Vec<u8>>),
    Missing,
    /// Behind what is no folder.
    NoFolder,
}

/// What a path leads to.
#[derive(Drop)]
pub enum Resolved {
    /// The names that lead to it from the root on.
    Found(Vec<Vec<u8>>),
    Missing,
    /// A part of it is behind what is no folder.
    NoFolder,
    TooManyLinks,
}

/// Whether a part of a path stays where it is.
fn is_here(part: &[u8]) -> bool
    ensures { result ≡ is_here part.now }
{
    part.is_empty() || is_same(part, b".")
}

/// Whether a part of a path leads to the folder above.
fn is_up(part: &[u8]) -> bool
    ensures { result ≡ is_up part.now }
{
    is_same(part, b"..")
}

/// The parts of a path, between its slashes.
fn parts_of(alloc: Global, path: &[u8]) -> Result<Vec<Vec<u8>>, AllocError>
    ensures { IfOk result (λ parts. bytes_of parts.items ≡ parts_of path.now) }
{
    let mut parts = Vec::new(alloc);
    let mut part = Vec::new(alloc);
    for byte in path {
        if *byte == b'/' {
            parts.push(mem::replace(&mut part, Vec::new(alloc)))?;
        } else {
            part.push(*byte)?;
        }
    }
    parts.push(part)?;
    Ok(parts)
}

/// One part more from a folder on. Returns what stands there; a link is not followed.
#[tactic(auto, unfolding(crate::specs::Rooted::step_by))]
fn enter<S: System>(system: &S, place: &mut Vec<Vec<u8>>, part: &[u8]) -> io::Result<Entry>
    requires folder { IsReached (S.entries system.now) (bytes_of place.old.items) }
    requires part { is_part part.now ≡ true }
    ensures step { IfOk result (λ entry. (known : Entries) → S.entries system.now ≡ Some known
        → step_by known (bytes_of place.old.items) part.now ≡ record { place = bytes_of place.new.items; entry = entry_of entry }) }
    ensures inside { OnOk result (IsInside (S.entries system.now) (bytes_of place.new.items)) }
    ensures reached { IfOk result (λ entry. entry_of entry ≡ folder → IsReached (S.entries system.now) (bytes_of place.new.items)) }
{
    if is_here(part) {
        return Ok(Entry::Folder);
    }
    if is_up(part) {
        place.pop();
        return Ok(Entry::Folder);
    }
    place.push(Vec::from_slice(system.alloc(), part)?)?;
    system.entry(place)
}

/// The parts that are left behind a link.
fn parts_behind(alloc: Global, target: &[u8], rest: &[Vec<u8>]) -> Result<Vec<Vec<u8>>, AllocError>
    ensures { IfOk result (λ parts. bytes_of parts.items ≡ parts_of target.now ++ bytes_of rest.now) }
{
    let mut parts = parts_of(alloc, target)?;
    for part in rest {
        parts.push(Vec::from_slice(alloc, part)?)?;
    }
    Ok(parts)
}

/// Goes from a link to the place from which its text leads on.
fn go_to_start(place: &mut Vec<Vec<u8>>, target: &[u8])
    ensures { bytes_of place.new.items ≡ start_of target.now (bytes_of place.old.items) }
{
    if target.starts_with(b"/") {
        place.clear();
    } else {
        place.pop();
    }
}

/// Goes on from a folder by the parts of a path, as far as the first link.
fn walk<S: System>(system: &S, place: &mut Vec<Vec<u8>>, parts: &[Vec<u8>]) -> io::Result<Stop>
    requires folder { IsReached (S.entries system.now) (bytes_of place.old.items) }
    requires parts { list_all is_part (bytes_of parts.now) ≡ true }
    ensures stop { IfOk result (λ stop. (known : Entries) → S.entries system.now ≡ Some known
        → stop_of stop (bytes_of place.new.items) ≡ walk known (bytes_of place.old.items) (bytes_of parts.now)) }
    ensures inside { IfOk result (λ stop. IsStopped (S.entries system.now) stop (bytes_of place.new.items)) }
{
    let mut rest = parts;
    while let Some((part, later)) = rest.split_first() {
        match enter(system, place, part)? {
            Entry::Folder => rest = later,
            Entry::Link(target) => {
                let left = parts_behind(system.alloc(), &target, later)?;
                go_to_start(place, &target);
                return Ok(Stop::Linked(left));
            }
            Entry::File if later.is_empty() => return Ok(Stop::At),
            Entry::File => return Ok(Stop::NoFolder),
            Entry::Nothing => return Ok(Stop::Missing),
        }
    }
    Ok(Stop::At)
}

/// What a path leads to, from the root on, over 40 links at most. What the system tells in place of an entry refuses.
pub fn resolve<S: System>(system: &S, path: &[u8]) -> io::Result<Resolved>
    ensures leads { IfOk result (λ own. (known : Entries) → S.entries system.now ≡ Some known → resolved_of own ≡ resolved known path.now) }
    ensures inside { IfOk result (IsFoundInside (S.entries system.now)) }
{
    let mut place = Vec::new(system.alloc());
    let mut parts = parts_of(system.alloc(), path)?;
    for followed in 0..MOST_WALKS {
        match walk(system, &mut place, &parts)? {
            Stop::Linked(left) => parts = left,
            Stop::At => return Ok(Resolved::Found(place)),
            Stop::Missing => return Ok(Resolved::Missing),
            Stop::NoFolder => return Ok(Resolved::NoFolder),
        }
    }
    Ok(Resolved::TooManyLinks)
}
