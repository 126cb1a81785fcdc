//! Calls over a machine in memory, and what happens by the order of their turns.

use crate::Happened::{Asked as Asks, Begun, GivesBack, Loaded, Removed};
use crate::{Asked, Happened, Plan, Progress, Run, run_in_memory};
use dep_index::read_catalogue;
use hold_turns::{Choice, End, State, Stopped};
use std::alloc::{AllocError, Global};
use std::test::Fail;

/// The module of slot 1 needs that of slot 0.
const CATALOGUE: &[u8] = b"module nfnetlink
exports nf
module ip_set
needs nf
";

const GET_BY_WEB: Asked<'static> = Asked::Get(b"web", &[1], &[0, 1]);

const GET_BY_DB: Asked<'static> = Asked::Get(b"db", &[1], &[0, 1]);

const PUT_BY_WEB: Asked<'static> = Asked::Put(b"web", &[1]);

const DONE: State = State::Over(End::Done);

/// So many turns of a call.
fn add_turns(choices: &mut Vec<Choice>, call: usize, count: usize) -> Result<(), AllocError> {
    for _ in 0..count {
        choices.push(Choice::Next(call))?;
    }
    Ok(())
}

/// A call makes turns, and its act goes on after each.
fn add_rounds(choices: &mut Vec<Choice>, call: usize) -> Result<(), AllocError> {
    for _ in 0..30 {
        choices.push(Choice::Next(call))?;
        choices.push(Choice::Ends(call))?;
    }
    Ok(())
}

/// Whether calls ended so.
fn end_in(run: &Run<'_>, states: &[State]) -> bool {
    let mut is_right = run.calls.len() == states.len();
    for (call, state) in run.calls.iter().zip(states) {
        is_right = is_right && call.state() == *state;
    }
    is_right
}

/// Whether calls ended so, and that happened. `AllocError`: memory ran out for a call, or for what happened.
fn ends_as(run: &Run<'_>, states: &[State], wanted: &[Happened]) -> Result<bool, AllocError> {
    let Some(happened) = run.hands.happened() else {
        return Err(AllocError);
    };
    for call in &run.calls {
        if call.state() == State::Over(End::Stopped(Stopped::OutOfMemory)) {
            return Err(AllocError);
        }
    }
    Ok(happened == wanted && end_in(run, states))
}

/// A run with nothing that goes wrong but how acts go on. A table that is broken is out of memory.
fn run<'a>(
    alloc: Global,
    asked: &[Asked<'a>],
    choices: &[Choice],
    acts: &'a [Progress],
) -> Result<Run<'a>, Fail> {
    let catalogue = read_catalogue(alloc, CATALOGUE)?;
    let plan = Plan { acts, ..Plan::NONE };
    let run = run_in_memory(alloc, &catalogue, asked, choices, &plan)?;
    for call in &run.calls {
        if call.state() == State::Over(End::Stopped(Stopped::Broken)) {
            return Err(AllocError.into());
        }
    }
    Ok(run)
}

#[test]
fn a_get_loads_and_a_put_gives_back(rt: HostRuntime) -> Result<(), Fail> {
    let mut choices = Vec::new(rt.alloc());
    add_rounds(&mut choices, 0)?;
    add_rounds(&mut choices, 1)?;
    add_rounds(&mut choices, 2)?;
    let asked = [GET_BY_WEB, PUT_BY_WEB, Asked::Remove(&[1, 0])];
    let run = run(rt.alloc(), &asked, &choices, &[])?;
    let wanted = [
        Asks(0),
        Loaded(0),
        Loaded(1),
        Begun(0),
        GivesBack,
        Removed(1),
        Removed(0),
    ];
    let is_right = ends_as(&run, &[DONE, DONE, DONE], &wanted)?;
    assert!(rt; is_right);
    Ok(())
}

#[test]
fn a_held_module_is_not_removed(rt: HostRuntime) -> Result<(), Fail> {
    let mut choices = Vec::new(rt.alloc());
    add_rounds(&mut choices, 0)?;
    add_rounds(&mut choices, 1)?;
    add_rounds(&mut choices, 2)?;
    let asked = [GET_BY_WEB, Asked::Remove(&[1]), Asked::Remove(&[0])];
    let run = run(rt.alloc(), &asked, &choices, &[])?;
    let states = [
        DONE,
        State::Over(End::Refused(1)),
        State::Over(End::Refused(0)),
    ];
    let is_right = ends_as(&run, &states, &[Asks(0), Loaded(0), Loaded(1), Begun(0)])?;
    assert!(rt; is_right);
    Ok(())
}

#[test]
fn a_get_waits_for_a_lock(rt: HostRuntime) -> Result<(), Fail> {
    let mut choices = Vec::new(rt.alloc());
    // The first call loads, and the second one asks the table and tries for its locks, twice.
    add_turns(&mut choices, 0, 5)?;
    add_turns(&mut choices, 1, 5)?;
    add_rounds(&mut choices, 0)?;
    add_rounds(&mut choices, 1)?;
    let run = run(rt.alloc(), &[GET_BY_WEB, GET_BY_DB], &choices, &[])?;
    let wanted = [Asks(0), Asks(1), Loaded(0), Loaded(1), Begun(0), Begun(1)];
    let is_right = ends_as(&run, &[DONE, DONE], &wanted)?;
    assert!(rt; is_right);
    Ok(())
}

/// Whether a get that finds what one left that was cut off loads what is missing, and is answered. Its act goes on so.
fn brings(alloc: Global, acts: &[Progress], wanted: &[Happened]) -> Result<bool, Fail> {
    let mut choices = Vec::new(alloc);
    add_turns(&mut choices, 0, 5)?;
    choices.push(Choice::Cut(0))?;
    // Its insmod is under way, so its lock stays.
    add_turns(&mut choices, 1, 5)?;
    add_turns(&mut choices, 0, 1)?;
    choices.push(Choice::Ends(0))?;
    choices.push(Choice::Ends(0))?;
    add_rounds(&mut choices, 1)?;
    let run = run(alloc, &[GET_BY_WEB, GET_BY_DB], &choices, acts)?;
    Ok(ends_as(&run, &[State::Over(End::CutOff), DONE], wanted)?)
}

#[test]
fn a_load_that_was_cut_off_is_brought_to_its_end(rt: HostRuntime) -> Result<(), Fail> {
    let wanted = [Asks(0), Asks(1), Loaded(0), Loaded(1), Begun(1)];
    let does = brings(rt.alloc(), &[], &wanted)?;
    let does_not = brings(rt.alloc(), &[Progress::FAILS], &wanted)?;
    assert!(rt; does && does_not);
    Ok(())
}

#[test]
fn an_act_ends_later_than_its_work(rt: HostRuntime) -> Result<(), Fail> {
    let acts = [
        Progress {
            works: false,
            ends: false,
        },
        Progress {
            works: true,
            ends: false,
        },
        Progress {
            works: true,
            ends: false,
        },
        Progress::FAILS,
    ];
    let mut choices = Vec::new(rt.alloc());
    add_rounds(&mut choices, 0)?;
    let run = run(rt.alloc(), &[GET_BY_WEB], &choices, &acts)?;
    let is_right = ends_as(&run, &[DONE], &[Asks(0), Loaded(0), Loaded(1), Begun(0)])?;
    assert!(rt; is_right);
    Ok(())
}

#[test]
fn a_load_that_fails_is_refused(rt: HostRuntime) -> Result<(), Fail> {
    let mut choices = Vec::new(rt.alloc());
    add_rounds(&mut choices, 0)?;
    add_rounds(&mut choices, 1)?;
    let run = run(
        rt.alloc(),
        &[GET_BY_WEB, GET_BY_DB],
        &choices,
        &[Progress::FAILS],
    )?;
    let states = [State::Over(End::Refused(0)), DONE];
    let is_right = ends_as(
        &run,
        &states,
        &[Asks(0), Asks(1), Loaded(0), Loaded(1), Begun(1)],
    )?;
    assert!(rt; is_right);
    Ok(())
}

/// Whether a get is answered after one that a plan ended so. Both modules were loaded once, by the first or by the second.
fn goes_on_after(alloc: Global, plan: &Plan<'_>, stopped: Stopped) -> Result<bool, Fail> {
    let mut choices = Vec::new(alloc);
    add_rounds(&mut choices, 0)?;
    add_rounds(&mut choices, 1)?;
    let catalogue = read_catalogue(alloc, CATALOGUE)?;
    let run = run_in_memory(alloc, &catalogue, &[GET_BY_WEB, GET_BY_DB], &choices, plan)?;
    let Some(happened) = run.hands.happened() else {
        return Err(AllocError.into());
    };
    let states = [State::Over(End::Stopped(stopped)), DONE];
    Ok(happened.len() == 5 && happened[4] == Begun(1) && end_in(&run, &states))
}

#[test]
fn a_get_goes_on_where_hands_were_gone(rt: HostRuntime) -> Result<(), Fail> {
    // A get asks its hands 12 times: for locks, twice for each module of its plan after that and after each of its two acts,
    // to begin these and for their ends, and for its look.
    for answers in 0..12 {
        let plan = Plan {
            answers,
            ..Plan::NONE
        };
        let is_right = goes_on_after(rt.alloc(), &plan, Stopped::Gone)?;
        assert!(rt; is_right);
    }
    Ok(())
}

#[test]
fn a_get_goes_on_where_the_table_was_broken(rt: HostRuntime) -> Result<(), Fail> {
    for lines in 0..19 {
        let plan = Plan {
            lines,
            ..Plan::NONE
        };
        let is_right = goes_on_after(rt.alloc(), &plan, Stopped::Broken)?;
        assert!(rt; is_right);
    }
    Ok(())
}
