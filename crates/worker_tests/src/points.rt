//! Schedules with the points of their calls, steps that are refused, and points that others hand in.
ghost use Rattle.std.specs.Prelude.{◌≤◌};

mod judged;

use crate::plays::{ANOTHER_LIFE, NOT_WRITTEN, SERVED, STOPPED, schedules};
use crate::rows::none_is_wrong;
use crate::schedule::{Schedule, steps_of};
use crate::sound::{SND, sound};
use Reply::{Done, No};
use dep_index::{Call, Catalogue, Reply};
use linear_points::{End, Interval, Point, PointsError, call_intervals, check_points, points};
use std::alloc::{AllocError, Global};
use std::test::Fail;
use step_core::{Event, Step, StepError};

/// The points of the calls of a schedule of so many steps.
fn points_of(alloc: Global, schedule: &Schedule, steps: usize) -> Result<Vec<Point>, AllocError> {
    let mut found = Vec::new(alloc);
    for index in 0..steps {
        if let Some(Event::Point(call, reply)) = schedule.event(index) {
            found.push(Point { call, index, reply })?;
        }
    }
    Ok(found)
}

/// Whether these are the points of the steps, and the checker says yes to them.
fn are_points(
    alloc: Global,
    catalogue: &Catalogue,
    workers: usize,
    threads: usize,
    steps: &[Step],
    wanted: &[Point],
) -> Result<bool, PointsError>
    requires { workers ≤ 64 }
{
    let found = points(alloc, catalogue, workers, threads, steps)?;
    Ok(
        found.as_slice() == wanted
            && check_points(alloc, catalogue, workers, threads, steps, wanted)?,
    )
}

/// Whether the schedule has its points among so many workers.
fn has_points(
    alloc: Global,
    catalogue: &Catalogue,
    workers: usize,
    schedule: &Schedule,
) -> Result<bool, Fail>
    requires { workers ≤ 64 }
{
    let steps = steps_of(alloc, schedule.plays)?;
    let wanted = points_of(alloc, schedule, steps.len())?;
    Ok(are_points(alloc, catalogue, workers, schedule.threads, &steps, &wanted)?)
}

/// The first of the schedules that has other points among so many workers.
fn wrong_schedule(
    alloc: Global,
    workers: usize,
    schedules: &[&'static Schedule],
) -> Result<Option<&'static str>, Fail>
    requires { workers ≤ 64 }
{
    let catalogue = sound(alloc)?;
    for schedule in schedules {
        if !has_points(alloc, &catalogue, workers, schedule)? {
            return Ok(Some(schedule.name));
        }
    }
    Ok(None)
}

#[test]
fn schedules_have_their_points(rt: HostRuntime) -> Result<(), Fail> {
    none_is_wrong(&rt, wrong_schedule(rt.alloc(), 2, &schedules())?);
    Ok(())
}

#[test]
fn a_schedule_has_its_points_among_64_workers(rt: HostRuntime) -> Result<(), Fail> {
    none_is_wrong(&rt, wrong_schedule(rt.alloc(), 64, &[&SERVED])?);
    Ok(())
}

/// The first beginning of the steps to whose points the checker says no.
fn wrong_beginning(
    alloc: Global,
    catalogue: &Catalogue,
    steps: &[Step],
) -> Result<Option<usize>, PointsError> {
    for end in 0..=steps.len() {
        let beginning = &steps[..end];
        let found = points(alloc, catalogue, 2, 2, beginning)?;
        if !check_points(alloc, catalogue, 2, 2, beginning, &found)? {
            return Ok(Some(end));
        }
    }
    Ok(None)
}

#[test]
fn each_beginning_has_its_points(rt: HostRuntime) -> Result<(), Fail> {
    let catalogue = sound(rt.alloc())?;
    let steps = steps_of(rt.alloc(), ANOTHER_LIFE.plays)?;
    let wrong = wrong_beginning(rt.alloc(), &catalogue, &steps)?;
    assert!(rt; steps.len() == 36 && wrong.is_none());
    Ok(())
}

/// The get of the thread that stops.
const LEFT_OPEN: Interval = Interval {
    call: Call::Get(0, SND),
    first: 12,
    end: None,
};

/// The query beside it.
const ASKED: Interval = Interval {
    call: Call::InUse(SND),
    first: 16,
    end: Some(End {
        index: 18,
        reply: No,
    }),
};

/// The get beside a removal.
const WRITTEN: Interval = Interval {
    call: Call::Get(0, SND),
    first: 10,
    end: Some(End {
        index: 19,
        reply: Done,
    }),
};

#[test]
fn intervals_end_with_their_calls(rt: HostRuntime) -> Result<(), Fail> {
    let steps = steps_of(rt.alloc(), NOT_WRITTEN.plays)?;
    let found = call_intervals(rt.alloc(), &sound(rt.alloc())?, 2, 2, &steps)?;
    assert!(rt; found.len() == 4 && found.get(2) == Some(&WRITTEN));
    Ok(())
}

/// Thread 0 stops with the lock of leaf 0: thread 1 waits for it, and no other thread does.
#[test]
fn intervals_are_left_open(rt: HostRuntime) -> Result<(), Fail> {
    let steps = steps_of(rt.alloc(), STOPPED.plays)?;
    let found = call_intervals(rt.alloc(), &sound(rt.alloc())?, 2, 4, &steps)?;
    assert!(rt;
        matches!(found.as_slice(), [_, _, _, get, query, _] if *get == LEFT_OPEN && *query == ASKED)
    );
    Ok(())
}

/// The second of three steps, and why it is refused.
static REFUSED: [(Step, StepError); 3] = [
    (Step::Invoke(0, Call::Get(2, SND)), StepError::Worker),
    (Step::Invoke(0, Call::Get(0, 2)), StepError::Slot),
    (Step::Go(1), StepError::Thread),
];

/// The first row of refused steps of which one of the three calls tells otherwise.
fn wrong_refusal(alloc: Global, catalogue: &Catalogue) -> Option<usize> {
    for (row, (step, cause)) in REFUSED.iter().enumerate() {
        let steps = [Step::Go(0), *step, Step::Go(7)];
        let refused = Some(PointsError::Step {
            index: 1,
            cause: *cause,
        });
        let found = points(alloc, catalogue, 2, 1, &steps).err();
        let checked = check_points(alloc, catalogue, 2, 1, &steps, &[]).err();
        let intervals = call_intervals(alloc, catalogue, 2, 1, &steps).err();
        if found != refused || checked != refused || intervals != refused {
            return Some(row);
        }
    }
    None
}

#[test]
fn names_the_step_that_is_refused(rt: HostRuntime) -> Result<(), Fail> {
    let catalogue = sound(rt.alloc())?;
    none_is_wrong(&rt, wrong_refusal(rt.alloc(), &catalogue));
    Ok(())
}

#[test]
fn tells_the_step_that_is_refused(rt: HostRuntime) -> Result<(), Fail> {
    let refused = PointsError::Step {
        index: 4,
        cause: StepError::Slot,
    };
    let told = format!(in rt.alloc(); "{refused}")?;
    assert!(rt; told.as_str() == "step 4 is refused: Slot");
    Ok(())
}
