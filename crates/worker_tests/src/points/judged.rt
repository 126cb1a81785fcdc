//! What the checker says of points that others hand in.

use crate::plays::{LEAVING, NOT_WRITTEN, SERVED};
use crate::rows::none_is_wrong;
use crate::schedule::{Schedule, steps_of};
use crate::sound::sound;
use Reply::{Done, InUse, No, NotLive, NotUnloading, Yes};
use dep_index::{Catalogue, Reply};
use linear_points::{Point, check_points};
use std::alloc::{AllocError, Global};
use std::test::Fail;

/// A call's number, the index of its point and its reply there.
type Mark = (usize, usize, Reply);

/// The points of the load of snd.
static LOADED: [Mark; 2] = [(0, 2, Done), (1, 7, Done)];

/// The query's point may be anywhere in its interval, with the reply of the replay there.
static QUERIES: [(&[Mark], bool); 6] = [
    (
        &[
            (2, 13, Done),
            (3, 17, Yes),
            (4, 21, InUse),
            (5, 25, Done),
            (6, 30, Done),
        ],
        true,
    ),
    (
        &[
            (2, 13, Done),
            (3, 16, Yes),
            (4, 21, InUse),
            (5, 25, Done),
            (6, 30, Done),
        ],
        true,
    ),
    (
        &[
            (2, 13, Done),
            (3, 18, Yes),
            (4, 21, InUse),
            (5, 25, Done),
            (6, 30, Done),
        ],
        true,
    ),
    (
        &[
            (2, 13, Done),
            (3, 15, Yes),
            (4, 21, InUse),
            (5, 25, Done),
            (6, 30, Done),
        ],
        false,
    ),
    (
        &[
            (2, 13, Done),
            (3, 19, Yes),
            (4, 21, InUse),
            (5, 25, Done),
            (6, 30, Done),
        ],
        false,
    ),
    (
        &[
            (2, 13, Done),
            (3, 17, No),
            (4, 21, InUse),
            (5, 25, Done),
            (6, 30, Done),
        ],
        false,
    ),
];

/// A list without a point, one with two exchanged, one with two of a call, and one with a point of no call.
static LISTS: [(&[Mark], bool); 4] = [
    (
        &[(2, 13, Done), (3, 17, Yes), (4, 21, InUse), (6, 30, Done)],
        false,
    ),
    (
        &[
            (2, 13, Done),
            (3, 17, Yes),
            (5, 25, Done),
            (4, 21, InUse),
            (6, 30, Done),
        ],
        false,
    ),
    (
        &[
            (2, 13, Done),
            (3, 16, Yes),
            (3, 17, Yes),
            (4, 21, InUse),
            (5, 25, Done),
            (6, 30, Done),
        ],
        false,
    ),
    (
        &[
            (2, 13, Done),
            (3, 17, Yes),
            (4, 21, InUse),
            (5, 25, Done),
            (6, 30, Done),
            (7, 31, Yes),
        ],
        false,
    ),
];

/// The removal that is refused has no point.
static TOO_FEW: [(&[Mark], bool); 2] = [
    (&[(2, 13, Done)], false),
    (&[(2, 13, Done), (3, 16, InUse)], true),
];

/// The point of an open call is judged by the replay alone. Calls 2 and 4 are open; the steps are 0 to 22.
static OPEN: [(&[Mark], bool); 6] = [
    (&[(2, 12, Done), (3, 15, NotLive)], true),
    (&[(3, 15, NotLive)], false),
    (&[(2, 12, Done), (3, 15, NotLive), (4, 20, Done)], true),
    (
        &[(2, 12, Done), (3, 15, NotLive), (4, 20, NotUnloading)],
        false,
    ),
    (&[(2, 12, Done), (3, 15, NotLive), (4, 22, Done)], true),
    (&[(2, 12, Done), (3, 15, NotLive), (4, 23, Done)], false),
];

/// The points of the load of snd, and these.
fn points_of(alloc: Global, marks: &[Mark]) -> Result<Vec<Point>, AllocError> {
    let mut found = Vec::new(alloc);
    for (call, index, reply) in LOADED.iter().chain(marks) {
        found.push(Point {
            call: *call,
            index: *index,
            reply: *reply,
        })?;
    }
    Ok(found)
}

/// What the checker says of these points of a schedule.
fn said(
    alloc: Global,
    catalogue: &Catalogue,
    schedule: &Schedule,
    marks: &[Mark],
) -> Result<bool, Fail> {
    let steps = steps_of(alloc, schedule.plays)?;
    let points = points_of(alloc, marks)?;
    Ok(check_points(alloc, catalogue, 2, 2, &steps, &points)?)
}

/// The first row of which the checker says otherwise.
fn wrong_row(
    alloc: Global,
    schedule: &Schedule,
    rows: &[(&[Mark], bool)],
) -> Result<Option<usize>, Fail> {
    let catalogue = sound(alloc)?;
    for (row, (marks, wanted)) in rows.iter().enumerate() {
        if said(alloc, &catalogue, schedule, marks)? != *wanted {
            return Ok(Some(row));
        }
    }
    Ok(None)
}

/// Each point is judged by its interval, the list as a whole, and open calls by the replay.
#[test]
fn judges_points(rt: HostRuntime) -> Result<(), Fail> {
    none_is_wrong(&rt, wrong_row(rt.alloc(), &SERVED, &QUERIES)?);
    none_is_wrong(&rt, wrong_row(rt.alloc(), &SERVED, &LISTS)?);
    none_is_wrong(&rt, wrong_row(rt.alloc(), &NOT_WRITTEN, &TOO_FEW)?);
    none_is_wrong(&rt, wrong_row(rt.alloc(), &LEAVING, &OPEN)?);
    Ok(())
}
