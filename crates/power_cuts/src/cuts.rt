//! A world that takes replies, kills processes and cuts the power.
ghost use Rattle.std.specs.Prelude.{◌≡◌, ◌≤◌, [], ◌∷◌, ◌++◌, List, ℕ};
ghost use Rattle.tenures.specs.Steps.{groups_of};
ghost use Rattle.power_cuts.specs.Log.{noted};
ghost use Rattle.power_cuts.specs.Disk.{content_of, disk_of, history_of, faults_of};
ghost use Rattle.power_cuts.specs.declared.life.End.TheVariants.{Power, Process};

use crate::disk::MemoryDisk;
use crate::life::{End, Life};
use crate::log::Log;
use held_lines::HeldReply;
use modprobe::Reply;
use std::alloc::Global;
use std::mem;
use std::snapshot::Snapshot;
use tenures::{Step, Stopped, World};

/// A process that is over. Only clauses read it.
#[derive(Drop)]
pub struct Over {
    /// The device as the process found it.
    pub found: Snapshot<MemoryDisk>,
    pub asked: Log<Step>,
    pub replies: Log<Reply>,
    pub ended: Result<(), Stopped>,
}

/// Takes the replies of processes, and ends each as a plan says: it is killed, or the power is cut. Processes beyond the plan
/// end by themselves.
#[derive(Drop)]
pub struct PowerCuts<'a> {
    /// Of the processes that are to come.
    plan: &'a [Life],
    /// Of the process. Its replies are those that it has left.
    life: Life,
    /// The device when the process began its last reply. If there is none, as it found it.
    seen: Snapshot<MemoryDisk>,
    found: Snapshot<MemoryDisk>,
    begun: Log<Reply>,
    past: Log<Over>,
    /// A note for each process that was cut off.
    cut_offs: Log<()>,
    text: Vec<u8>,
}

/// Steps as clauses see them.
pub fn noted_steps(asked: &[Step]) -> Log<Step>
    ensures { noted result ≡ asked.now }
{
    let mut steps = Log::new();
    for step in asked {
        steps.note(step);
    }
    steps
}

impl<'a> PowerCuts<'a> {
    ghost use Rattle.power_cuts.specs.Cuts.{past_of, replies_of, since_of, found_of, cut_offs_of};

    /// Before the first process, which finds this device. The plan has a life for each process, in their order.
    pub fn new(alloc: Global, device: &mut MemoryDisk, plan: &'a [Life]) -> Self
        ensures past { past_of result ≡ [] }
        ensures replies { replies_of result ≡ [] }
        ensures since { since_of result ≡ (history_of device.new).now }
        ensures found { found_of result ≡ content_of device.new }
        ensures cut_offs { cut_offs_of result ≡ 0 }
        ensures state { device.new.state ≡ device.old.state }
        ensures history { device.new.past ≡ device.old.past }
        ensures faults { device.new.faults ≡ device.old.faults }
    {
        let mut world = PowerCuts {
            plan,
            life: Life::WHOLE,
            seen: Snapshot::of(device),
            found: Snapshot::of(device),
            begun: Log::new(),
            past: Log::new(),
            cut_offs: Log::new(),
            text: Vec::new(alloc),
        };
        world.begin_life(device);
        world
    }

    /// The texts of the replies that were begun, and a line `--` after those of each process. What there was no memory for is
    /// left out.
    pub fn text(&self) -> &[u8] {
        &self.text
    }

    /// The life of the next process begins, with this device.
    fn begin_life(&mut self, device: &mut MemoryDisk)
        ensures state { device.new.state ≡ device.old.state }
        ensures history { device.new.past ≡ device.old.past }
        ensures faults { device.new.faults ≡ device.old.faults }
        ensures seen { self.new.seen.value ≡ device.new }
        ensures found { self.new.found.value ≡ device.new }
        ensures begun { self.new.begun ≡ self.old.begun }
        ensures past { self.new.past ≡ self.old.past }
        ensures cut_offs { self.new.cut_offs ≡ self.old.cut_offs }
    {
        self.life = Life::WHOLE;
        if let [life, later @ ..] = self.plan {
            self.plan = later;
            self.life = *life;
        }
        device.let_succeed(self.life.calls);
        self.seen = Snapshot::of(device);
        self.found = Snapshot::of(device);
    }

    /// The life of the process ends.
    fn end_life(&self, device: &mut MemoryDisk)
        ensures kept { self.now.life.end ≡ Process → device.new ≡ device.old }
        ensures lost { self.now.life.end ≡ Power → content_of device.new ≡ disk_of device.old }
        ensures left { (file : List ℕ) → (history_of device.new).leaves file → (history_of device.old).leaves file }
        ensures faults { faults_of device.new ≡ faults_of device.old }
    {
        match self.life.end {
            End::Process => {}
            End::Power => device.cut_power(),
        }
    }
}

impl<'a> World<MemoryDisk> for PowerCuts<'a> {
    ghost use Rattle.power_cuts.specs.Cuts.{past_of, replies_of, since_of, found_of, cut_offs_of};

    ghost past = { past_of };

    ghost replies = { replies_of };

    ghost since = { since_of };

    ghost found = { found_of };

    ghost cut_offs = { cut_offs_of };

    fn is_alive(&mut self) -> bool {
        if self.life.replies > 0 {
            return true;
        }
        self.cut_offs.note(&());
        false
    }

    fn begin_reply(&mut self, device: &MemoryDisk, reply: &HeldReply) {
        self.life.replies = self.life.replies.saturating_sub(1);
        self.seen = Snapshot::of(device);
        self.begun.note(&reply.reply);
        let _ = self.text.extend_from_slice(reply.reply.text());
    }

    /// If the power is cut, the next process finds what was on the disk. What was not synced is lost.
    fn next(
        &mut self,
        mut device: MemoryDisk,
        asked: &[Step],
        ended: Result<(), Stopped>,
    ) -> MemoryDisk
        requires { since_of self.old ≤ (history_of device).now }
        ensures past { past_of self.new ≡ past_of self.old ++ record { found = found_of self.old; asked = groups_of asked.now; replies = replies_of self.old; ended = ended } ∷ [] }
        ensures replies { replies_of self.new ≡ [] }
        ensures since { since_of self.new ≡ (history_of result).now }
        ensures found { found_of self.new ≡ content_of result }
        ensures cut_offs { cut_offs_of self.new ≡ cut_offs_of self.old }
        ensures faults { faults_of device ≤ faults_of result }
        ensures left { (file : List ℕ) → (history_of result).leaves file → (history_of device).left_since (since_of self.old) file }
        ensures kept { self.old.life.end ≡ Process → content_of result ≡ content_of device }
        ensures lost { self.old.life.end ≡ Power → content_of result ≡ disk_of device }
    {
        let found = mem::replace(&mut self.found, Snapshot::of(&device));
        let replies = mem::replace(&mut self.begun, Log::new());
        self.past.note(&Over {
            found,
            asked: noted_steps(asked),
            replies,
            ended,
        });
        let _ = self.text.extend_from_slice(b"--\n");
        self.end_life(&mut device);
        self.begin_life(&mut device);
        device
    }
}
