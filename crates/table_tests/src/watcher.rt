//! A world that takes replies, and cuts processes off.
ghost use Rattle.std.specs.Prelude.{◌≡◌, [], map};
ghost use Rattle.line_journal.specs.KillOnly.{held_by, history_of};
ghost use Rattle.tenures.specs.Steps.{groups_of};

use crate::cut_device::CutDevice;
use held_lines::HeldReply;
use modprobe::Reply;
use std::alloc::Global;
use std::mem;
use std::process::Abort;
use std::snapshot::Snapshot;
use tenures::{Step, Stopped, World};

/// How far a process comes before it is cut off.
#[derive(Clone, Copy, Debug)]
pub(crate) struct Life {
    /// So many calls of its device succeed.
    pub(crate) calls: usize,
    /// So many replies are begun.
    pub(crate) replies: usize,
}

/// A tenure that is over. Only clauses read it.
#[derive(Drop)]
struct Over {
    found: Snapshot<CutDevice>,
    asked: Vec<Snapshot<Step>>,
    replies: Vec<Snapshot<Reply>>,
    ended: Result<(), Stopped>,
}

/// Takes the replies of processes, and cuts off each at the end of its life. The next one finds the file as it is then.
pub(crate) struct Watcher<'a, R: Abort> {
    rt: &'a R,
    alloc: Global,
    /// The device when the process began its last reply. If there is none, as it found it.
    seen: Snapshot<CutDevice>,
    /// The device as the process found it.
    found: Snapshot<CutDevice>,
    begun: Vec<Snapshot<Reply>>,
    past: Vec<Over>,
    /// Of the processes that are to come.
    lives: &'a [Life],
    replies_left: usize,
    /// How many processes were cut off.
    cut_offs: usize,
    /// The replies that were begun, and a line `--` after those of each process.
    text: Vec<u8>,
}

// By hand, since a derived drop is written out, and proved, at each place where a value is let go.
impl<R: Abort> Drop for Watcher<'_, R> {
    fn drop(self) {
        let Watcher {
            rt: _,
            alloc: _,
            seen: _,
            found: _,
            begun: _,
            past: _,
            lives: _,
            replies_left: _,
            cut_offs: _,
            text: _,
        } = self;
    }
}

impl<'a, R: Abort> Watcher<'a, R> {
    /// Before the first process, which finds this device.
    pub(crate) fn new(rt: &'a R, alloc: Global, device: &CutDevice, lives: &'a [Life]) -> Self
        ensures seen { result.seen.value ≡ device.now }
        ensures found { result.found.value ≡ device.now }
        ensures begun { result.begun.items ≡ [] }
        ensures past { result.past.items ≡ [] }
    {
        Watcher {
            rt,
            alloc,
            seen: Snapshot::of(device),
            found: Snapshot::of(device),
            begun: Vec::new(alloc),
            past: Vec::new(alloc),
            lives,
            replies_left: 0,
            cut_offs: 0,
            text: Vec::new(alloc),
        }
    }

    /// The life of the next process begins.
    pub(crate) fn begin_life(&mut self, device: &mut CutDevice)
        ensures file { device.new.file ≡ device.old.file }
        ensures faults { device.new.faults ≡ device.old.faults }
        ensures seen { self.new.seen ≡ self.old.seen }
        ensures found { self.new.found ≡ self.old.found }
        ensures begun { self.new.begun ≡ self.old.begun }
        ensures past { self.new.past ≡ self.old.past }
        ensures cut_offs { self.new.cut_offs ≡ self.old.cut_offs }
    {
        if let [life, later @ ..] = self.lives {
            self.lives = later;
            self.replies_left = life.replies;
            device.leave(life.calls);
        }
    }

    /// The replies that were begun, and a line `--` after those of each process.
    pub(crate) fn text(&self) -> &[u8] {
        &self.text
    }
}

/// Steps as clauses see them.
fn noted<R: Abort>(rt: &R, alloc: Global, asked: &[Step]) -> Vec<Snapshot<Step>>
    ensures { map (λ step. step.value) result.items ≡ asked.now }
{
    let mut steps = Vec::new(alloc);
    for step in asked {
        steps.push(Snapshot::of(step)).expect(rt, "room for a step");
    }
    steps
}

impl<'a, R: Abort> World<CutDevice> for Watcher<'a, R> {
    ghost past = { λ w. map (λ over. record { found = held_by over.found.value.file; asked = groups_of (map (λ step. step.value) over.asked.items); replies = map (λ reply. reply.value) over.replies.items; ended = over.ended }) w.past.items };

    ghost replies = { λ w. map (λ reply. reply.value) w.begun.items };

    ghost since = { λ w. (history_of w.seen.value.file).now };

    ghost found = { λ w. held_by w.found.value.file };

    ghost cut_offs = { λ w. w.cut_offs };

    fn is_alive(&mut self) -> bool {
        if self.replies_left > 0 {
            return true;
        }
        self.cut_offs = self
            .cut_offs
            .checked_add(1)
            .expect(self.rt, "a count of processes");
        false
    }

    fn begin_reply(&mut self, device: &CutDevice, reply: &HeldReply) {
        self.replies_left = self.replies_left.saturating_sub(1);
        self.seen = Snapshot::of(device);
        self.begun
            .push(Snapshot::of(&reply.reply))
            .expect(self.rt, "room for a reply");
        self.text
            .extend_from_slice(reply.reply.text())
            .expect(self.rt, "room for a text");
    }

    fn next(
        &mut self,
        mut device: CutDevice,
        asked: &[Step],
        ended: Result<(), Stopped>,
    ) -> CutDevice {
        let asked = noted(self.rt, self.alloc, asked);
        let found = mem::replace(&mut self.found, Snapshot::of(&device));
        let replies = mem::replace(&mut self.begun, Vec::new(self.alloc));
        self.past
            .push(Over {
                found,
                asked,
                replies,
                ended,
            })
            .expect(self.rt, "room for a tenure");
        self.text
            .extend_from_slice(b"--\n")
            .expect(self.rt, "room for a text");
        self.begin_life(&mut device);
        self.seen = Snapshot::of(&device);
        self.found = Snapshot::of(&device);
        device
    }
}
