//! Tests of the crates that read and write texts: catalogues, patterns, configurations, plans and listings.
#![tactic(auto)]

#[cfg(test)]
mod catalogue;
#[cfg(test)]
mod configuration;
#[cfg(test)]
mod listings;
#[cfg(test)]
mod load_plans;
#[cfg(test)]
mod patterns;
#[cfg(test)]
mod texts;
#[cfg(test)]
mod values;
