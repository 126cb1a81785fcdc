//! A world in which each process opens the file anew.
ghost use Rattle.std.specs.Prelude.{◌≡◌, ◌+◌, ◌≤◌, None, [], ◌∷◌, ◌++◌, List, ℕ, length};
ghost use Rattle.line_journal.specs.Device.{Goes, Unchanged};
ghost use Rattle.file_journal.specs.Belief.{history_of, IsOpenedAgain};
ghost use Rattle.tenures.specs.Steps.{groups_of};
ghost use Rattle.power_cuts.specs.Log.{noted};
ghost use Rattle.file_lives.specs.Lives.{past_of, replies_of, since_of, found_of, cut_offs_of};

use crate::counted::CountedFile;
use crate::life::Life;
use file_journal::Belief;
use held_lines::HeldReply;
use modprobe::Reply;
use power_cuts::{Log, noted_steps};
use std::alloc::Global;
use std::mem;
use std::rt::Files;
use std::snapshot::Snapshot;
use tenures::{Step, Stopped, World};

/// A process that is over. Only clauses read it.
#[derive(Drop)]
pub struct Over {
    /// What the process believed of the file once it had opened it.
    pub found: Snapshot<Belief>,
    pub asked: Log<Step>,
    pub replies: Log<Reply>,
    pub ended: Result<(), Stopped>,
}

/// Takes the replies of processes, kills each where a plan says so, and has the next one open the file anew. Processes beyond the
/// plan end by themselves.
#[derive(Drop)]
pub struct FileLives<'a> {
    /// Of the processes that are to come.
    plan: &'a [Life],
    /// Of the process. Its replies are those that it has left.
    life: Life,
    /// What was believed of the file when the process began its last reply. If there is none, once it had opened it.
    seen: Snapshot<Belief>,
    found: Snapshot<Belief>,
    begun: Log<Reply>,
    past: Log<Over>,
    /// A note for each process that was cut off.
    cut_offs: Log<()>,
    text: Vec<u8>,
}

impl<'a> FileLives<'a> {
    /// Before the first process, which opens the file of this device anew. The plan has a life for each process, in their order.
    pub fn new<R: Files + Drop>(
        alloc: Global,
        device: &mut CountedFile<R>,
        plan: &'a [Life],
    ) -> Self
        ensures past { past_of result ≡ [] }
        ensures replies { replies_of result ≡ [] }
        ensures since { since_of result ≡ (history_of device.new.file.belief).now }
        ensures found { found_of result ≡ device.new.file.belief.bytes.items }
        ensures cut_offs { cut_offs_of result ≡ 0 }
        ensures content { device.new.file.belief.bytes ≡ device.old.file.belief.bytes }
        ensures crash { Goes Unchanged (history_of device.old.file.belief) (history_of device.new.file.belief) }
        ensures opened { device.new.file.fault ≡ None → IsOpenedAgain device.old.file.belief device.new.file.belief }
    {
        let mut world = FileLives {
            plan,
            life: Life::WHOLE,
            seen: device.file.believed(),
            found: device.file.believed(),
            begun: Log::new(),
            past: Log::new(),
            cut_offs: Log::new(),
            text: Vec::new(alloc),
        };
        world.begin_life(device);
        world
    }

    /// The texts of the replies that were begun, and a line `--` after those of each process. What there was no memory for is
    /// left out.
    pub fn text(&self) -> &[u8] {
        &self.text
    }

    /// The life of the next process begins: it opens the file of this device anew. If that fails, each call of it does.
    fn begin_life<R: Files + Drop>(&mut self, device: &mut CountedFile<R>)
        ensures content { device.new.file.belief.bytes ≡ device.old.file.belief.bytes }
        ensures crash { Goes Unchanged (history_of device.old.file.belief) (history_of device.new.file.belief) }
        ensures opened { device.new.file.fault ≡ None → IsOpenedAgain device.old.file.belief device.new.file.belief }
        ensures faults { device.old.file.faults ≤ device.new.file.faults }
        ensures unanswered { device.new.unanswered ≡ device.old.unanswered }
        ensures lock { device.new.file.lock ≡ device.old.file.lock }
        ensures syncs { device.new.file.disk.syncs ≡ device.old.file.disk.syncs }
        ensures seen { self.new.seen.value ≡ device.new.file.belief }
        ensures found { self.new.found.value ≡ device.new.file.belief }
        ensures begun { self.new.begun ≡ self.old.begun }
        ensures past { self.new.past ≡ self.old.past }
        ensures cut_offs { self.new.cut_offs ≡ self.old.cut_offs }
    {
        self.life = Life::WHOLE;
        if let [life, later @ ..] = self.plan {
            self.plan = later;
            self.life = *life;
        }
        device.calls_left = self.life.calls;
        let _ = device.file.open_again();
        self.seen = device.file.believed();
        self.found = device.file.believed();
    }
}

impl<'a, R: Files + Drop> World<CountedFile<R>> for FileLives<'a> {
    ghost past = { past_of };

    ghost replies = { replies_of };

    ghost since = { since_of };

    ghost found = { found_of };

    ghost cut_offs = { cut_offs_of };

    fn is_alive(&mut self) -> bool {
        if self.life.replies > 0 {
            return true;
        }
        self.cut_offs.note(&());
        false
    }

    fn begin_reply(&mut self, device: &CountedFile<R>, reply: &HeldReply) {
        self.life.replies = self.life.replies.saturating_sub(1);
        self.seen = device.file.believed();
        self.begun.note(&reply.reply);
        let _ = self.text.extend_from_slice(reply.reply.text());
    }

    /// The next process opens the file anew, and reads all of it. If it is another file, or has other bytes than the one before
    /// it believed, each call of the device fails.
    fn next(
        &mut self,
        mut device: CountedFile<R>,
        asked: &[Step],
        ended: Result<(), Stopped>,
    ) -> CountedFile<R>
        requires { since_of self.old ≤ (history_of device.file.belief).now }
        ensures past { past_of self.new ≡ past_of self.old ++ record { found = found_of self.old; asked = groups_of asked.now; replies = replies_of self.old; ended = ended } ∷ [] }
        ensures replies { replies_of self.new ≡ [] }
        ensures since { since_of self.new ≡ (history_of result.file.belief).now }
        ensures found { found_of self.new ≡ result.file.belief.bytes.items }
        ensures cut_offs { cut_offs_of self.new ≡ cut_offs_of self.old }
        ensures faults { device.file.faults + length (noted device.unanswered) ≤ result.file.faults + length (noted result.unanswered) }
        ensures left { (file : List ℕ) → (history_of result.file.belief).leaves file → (history_of device.file.belief).left_since (since_of self.old) file }
        ensures opened { result.file.fault ≡ None → IsOpenedAgain device.file.belief result.file.belief }
        ensures content { result.file.belief.bytes ≡ device.file.belief.bytes }
        ensures lock { result.file.lock ≡ device.file.lock }
        ensures syncs { result.file.disk.syncs ≡ device.file.disk.syncs }
    {
        let found = mem::replace(&mut self.found, device.file.believed());
        let replies = mem::replace(&mut self.begun, Log::new());
        self.past.note(&Over {
            found,
            asked: noted_steps(asked),
            replies,
            ended,
        });
        let _ = self.text.extend_from_slice(b"--\n");
        self.begin_life(&mut device);
        device
    }
}
