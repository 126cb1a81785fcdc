//! Schedules behind the load of snd, with the calls that they make, worked out by hand.

mod loads;

use crate::schedule::Play::{Go, Invoke};
use crate::schedule::Schedule;
use crate::sound::SND;
use Reply::{Done, InUse, No, NotLive, Yes};
use dep_index::{Call, Reply};
use loads::{FAILED, NEED_LEAVES};

/// A removal is refused while a reference is held. The query goes from step 16 to step 18.
pub(crate) static SERVED: Schedule = Schedule {
    name: "gets_queries_puts_removes",
    threads: 2,
    plays: &[
        Invoke(0, Call::Get(0, SND)),
        Go(0, 5),
        Invoke(1, Call::InUse(SND)),
        Go(1, 2),
        Invoke(1, Call::BeginRemove(SND)),
        Go(1, 3),
        Invoke(0, Call::Put(0, SND)),
        Go(0, 4),
        Invoke(1, Call::BeginRemove(SND)),
        Go(1, 4),
    ],
    calls: &[
        (10, Some((13, Done)), Some(15)),
        (16, Some((17, Yes)), Some(18)),
        (19, Some((21, InUse)), Some(22)),
        (23, Some((25, Done)), Some(27)),
        (28, Some((30, Done)), Some(32)),
    ],
};

/// A removal is tried while a get has exchanged the word and not written its count.
pub(crate) static NOT_WRITTEN: Schedule = Schedule {
    name: "counts_a_get_that_is_not_written",
    threads: 2,
    plays: &[
        Invoke(0, Call::Get(0, SND)),
        Go(0, 3),
        Invoke(1, Call::BeginRemove(SND)),
        Go(1, 3),
        Go(0, 2),
    ],
    calls: &[
        (10, Some((13, Done)), Some(19)),
        (14, Some((16, InUse)), Some(17)),
    ],
};

/// A removal comes between a get's load and its exchange, at step 18.
pub(crate) static MISSED: Schedule = Schedule {
    name: "misses_the_exchange",
    threads: 2,
    plays: &[
        Invoke(0, Call::Get(0, SND)),
        Go(0, 2),
        Invoke(1, Call::BeginRemove(SND)),
        Go(1, 4),
        Go(0, 3),
    ],
    calls: &[
        (10, Some((19, NotLive)), Some(20)),
        (13, Some((15, Done)), Some(17)),
    ],
};

/// The module is removed and loaded again between a get's load and its exchange.
pub(crate) static ANOTHER_LIFE: Schedule = Schedule {
    name: "finds_the_same_word_in_another_life",
    threads: 2,
    plays: &[
        Invoke(0, Call::Get(0, SND)),
        Go(0, 2),
        Invoke(1, Call::BeginRemove(SND)),
        Go(1, 4),
        Invoke(1, Call::EndRemove(SND)),
        Go(1, 4),
        Invoke(1, Call::BeginLoad(SND)),
        Go(1, 4),
        Invoke(1, Call::EndLoad(SND, true)),
        Go(1, 4),
        Go(0, 3),
    ],
    calls: &[
        (10, Some((33, Done)), Some(35)),
        (13, Some((15, Done)), Some(17)),
        (18, Some((20, Done)), Some(22)),
        (23, Some((25, Done)), Some(27)),
        (28, Some((30, Done)), Some(32)),
    ],
};

/// Thread 0 stops with the lock of leaf 0: thread 1 waits for it, and no other thread does.
pub(crate) static STOPPED: Schedule = Schedule {
    name: "stops_with_a_lock_held",
    threads: 4,
    plays: &[
        Invoke(0, Call::Get(0, SND)),
        Go(0, 1),
        Invoke(1, Call::Get(0, SND)),
        Go(1, 3),
        Invoke(2, Call::InUse(SND)),
        Go(2, 2),
        Invoke(3, Call::Get(1, SND)),
        Go(3, 5),
    ],
    calls: &[
        (10, None, None),
        (12, None, None),
        (16, Some((17, No)), Some(18)),
        (19, Some((22, Done)), Some(24)),
    ],
};

/// The second reference of a leaf is taken, and one of two is put back, with no change of the word.
pub(crate) static TWICE_AND_BACK: Schedule = Schedule {
    name: "takes_two_references",
    threads: 1,
    plays: &[
        Invoke(0, Call::Get(0, SND)),
        Go(0, 5),
        Invoke(0, Call::Get(0, SND)),
        Go(0, 4),
        Invoke(0, Call::Put(0, SND)),
        Go(0, 4),
        Invoke(0, Call::InUse(SND)),
        Go(0, 2),
        Invoke(0, Call::Put(0, SND)),
        Go(0, 4),
        Invoke(0, Call::InUse(SND)),
        Go(0, 2),
    ],
    calls: &[
        (10, Some((13, Done)), Some(15)),
        (16, Some((18, Done)), Some(20)),
        (21, Some((23, Done)), Some(25)),
        (26, Some((27, Yes)), Some(28)),
        (29, Some((31, Done)), Some(33)),
        (34, Some((35, No)), Some(36)),
    ],
};

/// A removal has its point and stops: a get is refused, and the end of the removal waits for its lock.
pub(crate) static LEAVING: Schedule = Schedule {
    name: "removes_in_two_threads",
    threads: 2,
    plays: &[
        Invoke(0, Call::BeginRemove(SND)),
        Go(0, 2),
        Invoke(1, Call::Get(0, SND)),
        Go(1, 3),
        Invoke(1, Call::EndRemove(SND)),
        Go(1, 5),
    ],
    calls: &[
        (10, Some((12, Done)), None),
        (13, Some((15, NotLive)), Some(16)),
        (17, None, None),
    ],
};

/// A get whose load came before the drain is refused, and the removal waits for the reference from before.
pub(crate) static DRAINED: Schedule = Schedule {
    name: "drains",
    threads: 2,
    plays: &[
        Invoke(0, Call::Get(0, SND)),
        Go(0, 5),
        Invoke(0, Call::Get(1, SND)),
        Go(0, 2),
        Invoke(1, Call::BeginDrain(SND)),
        Go(1, 4),
        Go(0, 3),
        Invoke(1, Call::EndRemove(SND)),
        Go(1, 3),
        Invoke(0, Call::Put(0, SND)),
        Go(0, 4),
        Invoke(1, Call::EndRemove(SND)),
        Go(1, 4),
    ],
    calls: &[
        (10, Some((13, Done)), Some(15)),
        (16, Some((25, NotLive)), Some(26)),
        (19, Some((21, Done)), Some(23)),
        (27, Some((29, InUse)), Some(30)),
        (31, Some((33, Done)), Some(35)),
        (36, Some((38, Done)), Some(40)),
    ],
};

/// A leaf that holds the module gets no further reference while it drains; a query still says yes.
pub(crate) static DRAINING: Schedule = Schedule {
    name: "refuses_a_get_while_its_leaf_drains",
    threads: 2,
    plays: &[
        Invoke(0, Call::Get(0, SND)),
        Go(0, 5),
        Invoke(1, Call::BeginDrain(SND)),
        Go(1, 4),
        Invoke(0, Call::Get(0, SND)),
        Go(0, 3),
        Invoke(1, Call::InUse(SND)),
        Go(1, 2),
    ],
    calls: &[
        (10, Some((13, Done)), Some(15)),
        (16, Some((18, Done)), Some(20)),
        (21, Some((23, NotLive)), Some(24)),
        (25, Some((26, Yes)), Some(27)),
    ],
};

/// All schedules.
pub(crate) fn schedules() -> [&'static Schedule; 11] {
    [
        &SERVED,
        &NOT_WRITTEN,
        &MISSED,
        &ANOTHER_LIFE,
        &STOPPED,
        &TWICE_AND_BACK,
        &LEAVING,
        &DRAINED,
        &DRAINING,
        &FAILED,
        &NEED_LEAVES,
    ]
}
