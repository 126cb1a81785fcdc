//! Measures the crates, one benchmark a call: `bench NAME`. With no argument it lists the benchmarks.
#![tactic(auto)]

mod catalogue;
mod configuration;
mod figure;
mod growth;
mod leaves;
mod listing;
mod load;
mod machine;
mod managed;
mod manager;
mod patterns;
mod plans;
mod points;
mod processor;
mod shapes;
mod texts;
mod workers;

use crate::workers::Host;
use anyhow::{Result, bail};
use std::env;
use std::process::ExitCode;
use std::rt::Files;

static NAMES: [&str; 11] = [
    "catalogue",
    "configuration",
    "growth",
    "leaves",
    "listing",
    "machine",
    "managed",
    "manager",
    "patterns",
    "plans",
    "points",
];

fn main(rt: HostRuntime) -> Result<ExitCode> {
    let Some(name) = env::args(&rt)?.nth(1) else {
        for name in &NAMES {
            println!(rt; "{name}")?;
        }
        return Ok(ExitCode::SUCCESS);
    };
    if !NAMES.contains(&name.as_str()) {
        eprintln!(rt; "bench: no benchmark {name}")?;
        return Ok(ExitCode::from(2));
    }
    load::print_load(&rt)?;
    measure(&rt, name.as_str())?;
    Ok(ExitCode::SUCCESS)
}

fn measure<R: Host + Files>(rt: &R, name: &str) -> Result<()> {
    match name {
        "catalogue" => catalogue::measure(rt),
        "configuration" => configuration::measure(rt),
        "growth" => growth::measure(rt),
        "leaves" => leaves::measure(rt),
        "listing" => listing::measure(rt),
        "machine" => machine::measure(rt),
        "managed" => managed::measure(rt),
        "manager" => manager::measure(rt),
        "patterns" => patterns::measure(rt),
        "plans" => plans::measure(rt),
        "points" => points::measure(rt),
        _ => bail!("{name} is listed and not measured"),
    }
}
