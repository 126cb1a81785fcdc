//! Tests of journals, and of a table whose journal is on the disk: in memory, over files of the system, and of processes
//! that are cut off.
#![tactic(auto)]

#[cfg(test)]
mod compacting;
#[cfg(test)]
mod courses;
#[cfg(test)]
mod cut_device;
#[cfg(test)]
mod cutting;
#[cfg(test)]
mod folders;
#[cfg(test)]
mod journals;
#[cfg(test)]
mod keeping;
#[cfg(test)]
mod performing;
#[cfg(test)]
mod setups;
#[cfg(test)]
mod support;
#[cfg(test)]
mod watcher;
