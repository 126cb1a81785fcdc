//! Tests of sessions over devices that fail, never end, or take a byte at a time, of scripts on threads with gates of
//! their own, and of programs over streams that fail.
#![tactic(auto)]

#[cfg(test)]
mod devices;
#[cfg(test)]
mod scripts;
#[cfg(test)]
mod sessions;
#[cfg(test)]
mod streams;
