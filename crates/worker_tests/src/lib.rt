//! Tests of the table, the machine, its checker, the leaves and the manager, on one thread and on several.
#![tactic(auto)]

#[cfg(test)]
mod leaves;
#[cfg(test)]
mod machine;
#[cfg(test)]
mod manager;
#[cfg(test)]
mod opens;
#[cfg(test)]
mod plays;
#[cfg(test)]
mod points;
#[cfg(test)]
mod rows;
#[cfg(test)]
mod schedule;
#[cfg(test)]
mod sound;
#[cfg(test)]
mod table;
