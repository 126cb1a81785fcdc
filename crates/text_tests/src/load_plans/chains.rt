//! Long chains of hard dependencies, up to the limits: with ample memory all modules stand in one plan.

use super::is_answered;
use crate::texts::holds;
use std::alloc::{AllocError, Global};
use std::process::Abort;

/// A catalogue of modules in a row, with what is asked over it.
struct Chain {
    shows: &'static str,
    /// What stands before the modules.
    head: &'static str,
    count: usize,
    /// Whether each module but the last needs the next one, or else each but the first the one before it.
    needs_next: bool,
    asked: &'static str,
    /// What stands behind each name of the answer.
    ending: &'static str,
    /// Whether the first module comes first in the answer.
    is_upward: bool,
}

static CHAINS: [Chain; 3] = [
    Chain {
        shows: "a chain of 256 modules",
        head: "",
        count: 256,
        needs_next: true,
        asked: "plan m0",
        ending: " hard",
        is_upward: false,
    },
    Chain {
        shows: "a chain of 1,024 modules",
        head: "version 2\n",
        count: 1024,
        needs_next: true,
        asked: "plan m0",
        ending: " hard",
        is_upward: false,
    },
    Chain {
        shows: "a chain of 4,096 modules",
        head: "version 3\n",
        count: 4096,
        needs_next: true,
        asked: "plan m0",
        ending: " hard",
        is_upward: false,
    },
];

static PLAN_OF_ALL: Chain = Chain {
    shows: "a plan of 65,535 modules",
    head: "version 3\n",
    count: 65_535,
    needs_next: false,
    asked: "plan m65534",
    ending: " hard",
    is_upward: true,
};

static REMOVAL_OF_ALL: Chain = Chain {
    shows: "a removal plan of 65,535 modules",
    head: "version 3\n",
    count: 65_535,
    needs_next: false,
    asked: "remove m65534",
    ending: "",
    is_upward: false,
};

/// The catalogue of the chain.
fn text_of(alloc: Global, chain: &Chain) -> Result<String, AllocError> {
    let mut text = String::from_str(alloc, chain.head)?;
    for i in 0..chain.count {
        write!(
            text,
            "module m{i}\nparam debug bool\nexports symbol_of_module_{i}\n"
        )?;
        let needed = if chain.needs_next {
            i + 1
        } else {
            i.wrapping_sub(1)
        };
        if needed < chain.count {
            writeln!(text, "needs symbol_of_module_{needed}")?;
        }
    }
    Ok(text)
}

/// All modules of the chain, one a line.
fn lines_of(alloc: Global, chain: &Chain) -> Result<String, AllocError> {
    let mut text = String::new(alloc);
    let ending = chain.ending;
    for i in 0..chain.count {
        let number = if chain.is_upward {
            i
        } else {
            chain.count - 1 - i
        };
        writeln!(text, "m{number}{ending}")?;
    }
    Ok(text)
}

/// Whether the answer over the chain has all its modules. Each has over 77 bytes: 65,535 have over five megabytes.
fn is_whole(alloc: Global, chain: &Chain, text: &str) -> Result<bool, AllocError> {
    let wanted = lines_of(alloc, chain)?;
    let texts = [text.as_bytes(), b"", b"", b""];
    let is_long = text.len() / 77 > chain.count;
    Ok(is_long && is_answered(alloc, &texts, chain.asked, wanted.as_bytes())?)
}

/// The answer over the chain has all its modules.
fn holds_of<R: Abort + AllocGlobal>(rt: &R, chain: &Chain) -> Result<(), AllocError> {
    let text = text_of(rt.alloc(), chain)?;
    holds(rt, chain.shows, is_whole(rt.alloc(), chain, &text)?);
    Ok(())
}

#[test]
fn answers_over_chains(rt: HostRuntime) -> Result<(), AllocError> {
    for chain in &CHAINS {
        holds_of(&rt, chain)?;
    }
    Ok(())
}

#[test]
fn a_plan_of_all_modules(rt: HostRuntime) -> Result<(), AllocError> {
    holds_of(&rt, &PLAN_OF_ALL)
}

#[test]
fn a_removal_plan_of_all_modules(rt: HostRuntime) -> Result<(), AllocError> {
    holds_of(&rt, &REMOVAL_OF_ALL)
}
