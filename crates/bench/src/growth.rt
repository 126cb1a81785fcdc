//! How the cost of large and hostile sessions grows: each is run at a quarter, a half and the whole of its size.

use crate::figure::print_figure;
use crate::processor::processor_time;
use crate::shapes::{SESSIONS, Session, Sizes, push_session};
use anyhow::Result;
use modprobe::{FromRead, FromWrite, serve};
use std::io;
use std::rt::Files;

const WORKERS: usize = 1;

const MICROSECOND: u64 = 1000;

const ROUNDS: usize = 5;

/// A round takes so many nanoseconds at least, since processor time may come in steps of some milliseconds.
const ROUND: u64 = 100_000_000;

const MOST_RUNS: u64 = 1000;

pub fn measure<R: Print + Files + AllocGlobal>(rt: &R) -> Result<()> {
    for session in &SESSIONS {
        measure_session(rt, session)?;
    }
    Ok(())
}

/// Prints what a session costs at the three sizes, and what each costs of the one before, in percent.
fn measure_session<R: Print + Files + AllocGlobal>(rt: &R, session: &Session) -> Result<()> {
    let (name, whole, others, texts) = *session;
    let mut before = None;
    for turn in 0..3_u32 {
        let size = whole >> (2 - turn);
        let time = time_of(rt, texts, Sizes { size, others })?;
        print_growth(rt, name, size, time, before)?;
        before = Some(time);
    }
    Ok(())
}

/// How long a session of this size takes: the least of some rounds.
fn time_of<R: Files + AllocGlobal>(rt: &R, texts: &[&str], sizes: Sizes) -> Result<u64> {
    let mut text = String::new(rt.alloc());
    push_session(&mut text, texts, sizes)?;
    let mut least = u64::MAX;
    for _ in 0..ROUNDS {
        least = least.min(mean_time(rt, text.as_bytes())?);
    }
    Ok(least)
}

/// Prints how long a session of this size takes, and how much that is of the time at half the size, if that is known.
fn print_growth<R: Print>(
    rt: &R,
    name: &str,
    size: usize,
    time: u64,
    half: Option<u64>,
) -> Result<()> {
    let microseconds = u128::from(time / MICROSECOND);
    print_figure(rt, format_args!("{name}_{size}"), microseconds, "us")?;
    let Some(half) = half else {
        return Ok(());
    };
    let percent = u128::from(time).saturating_mul(100) / u128::from(half).max(1);
    let name = format_args!("{name}_{size}_to_half");
    print_figure(rt, name, percent, "percent")
}

/// How long each run of a session takes in a round, which has as many as it takes to be long enough.
fn mean_time<R: Files + AllocGlobal>(rt: &R, text: &[u8]) -> Result<u64> {
    let start = processor_time(rt)?;
    let mut mean = 0;
    for runs in 1..=MOST_RUNS {
        answer(rt, text)?;
        let time = processor_time(rt)?.saturating_sub(start);
        mean = time / runs;
        if time >= ROUND {
            break;
        }
    }
    Ok(mean)
}

/// Answers a session, whose replies go nowhere.
fn answer<R: AllocGlobal>(rt: &R, text: &[u8]) -> Result<()> {
    let mut reader = FromRead::new(text);
    let mut writer = FromWrite::new(io::sink());
    Ok(serve(rt.alloc(), WORKERS, &mut reader, &mut writer)?)
}
