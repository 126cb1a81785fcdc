//! What is done with tables over one setup.

use crate::compacting::{is_compacted, is_shortened};
use crate::keeping::{answers_questions, is_kept};
use crate::performing::{makes_a_group, outlives};
use crate::support::setup;
use modprobe::Setup;
use std::test::Fail;

enum Course {
    Outlives,
    Group,
    Compacted,
    Shortened,
    Questions,
    Kept,
}

/// What is done, and what that shows.
static COURSES: [(&str, Course); 6] = [
    ("a table outlives its process", Course::Outlives),
    ("lines are performed as a group", Course::Group),
    ("a table of all states is compacted", Course::Compacted),
    ("a long journal is compacted", Course::Shortened),
    ("questions are answered", Course::Questions),
    ("a table is kept", Course::Kept),
];

/// Whether it goes as it ought to.
fn goes_well(rt: &HostRuntime, setup: &Setup, course: &Course) -> Result<bool, Fail> {
    match course {
        Course::Outlives => outlives(rt.alloc(), setup),
        Course::Group => makes_a_group(rt.alloc(), setup),
        Course::Compacted => is_compacted(rt.alloc(), setup),
        Course::Shortened => is_shortened(rt.alloc(), setup),
        Course::Questions => answers_questions(rt.alloc(), setup),
        Course::Kept => is_kept(rt, setup),
    }
}

/// What the first course shows that does not.
fn wrong_course(rt: &HostRuntime, setup: &Setup) -> Result<Option<&'static str>, Fail> {
    for (shows, course) in &COURSES {
        if !goes_well(rt, setup, course)? {
            return Ok(Some(*shows));
        }
    }
    Ok(None)
}

/// The same over the setup.
fn wrong_course_over_setup(rt: &HostRuntime) -> Result<Option<&'static str>, Fail> {
    let setup = setup(rt.alloc())?;
    wrong_course(rt, &setup)
}

#[test]
fn tables_go_well(rt: HostRuntime) -> Result<(), Fail> {
    let wrong = wrong_course_over_setup(&rt)?;
    assert!(rt; wrong.is_none(), "not so: {wrong:?}");
    Ok(())
}
