//! Loads behind that of snd.

use crate::schedule::Play::{Go, Invoke};
use crate::schedule::Schedule;
use crate::sound::{SND, SND_PCM};
use Reply::{Done, NeedNotLive, NotLive};
use dep_index::{Call, Reply};

/// A load that fails leaves the module absent and its word closed.
pub(super) static FAILED: Schedule = Schedule {
    name: "stays_closed_after_a_failed_load",
    threads: 1,
    plays: &[
        Invoke(0, Call::BeginLoad(SND_PCM)),
        Go(0, 4),
        Invoke(0, Call::EndLoad(SND_PCM, false)),
        Go(0, 4),
        Invoke(0, Call::Get(0, SND_PCM)),
        Go(0, 3),
        Invoke(0, Call::BeginLoad(SND_PCM)),
        Go(0, 4),
    ],
    calls: &[
        (10, Some((12, Done)), Some(14)),
        (15, Some((17, Done)), Some(19)),
        (20, Some((22, NotLive)), Some(23)),
        (24, Some((26, Done)), Some(28)),
    ],
};

/// The load waits, at step 14, until the removal of its need is written.
pub(super) static NEED_LEAVES: Schedule = Schedule {
    name: "refuses_a_load_whose_need_is_leaving",
    threads: 2,
    plays: &[
        Invoke(1, Call::BeginRemove(SND)),
        Go(1, 2),
        Invoke(0, Call::BeginLoad(SND_PCM)),
        Go(0, 1),
        Go(1, 2),
        Go(0, 3),
    ],
    calls: &[
        (10, Some((12, Done)), Some(16)),
        (13, Some((18, NeedNotLive(SND))), Some(19)),
    ],
};
