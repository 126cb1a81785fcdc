//! What is round the processes that use a table.
ghost use Rattle.std.specs.Prelude.{◌≡◌, ◌≤◌, ◌+◌, true, false, [], ◌∷◌, ◌++◌, ℕ, List};
ghost use Rattle.modprobe.specs.Outcomes.{Outcome};
ghost use Rattle.tenures.specs.Tenures.{Tenure};
ghost use Rattle.tenures.specs.Steps.{groups_of};

use crate::ending::Stopped;
use crate::step::Step;
use held_lines::HeldReply;
use line_journal::Device;

/// What is round the processes that use a table, one after another: who takes their replies, what kills them, and which file
/// a crash leaves to the next.
pub trait World<D: Device> {
    /// The tenures that are over, oldest first.
    ghost past: { Self → List Tenure };

    /// The replies that the process has begun.
    ghost replies: { Self → List Outcome };

    /// The moment of the device at which the process began its last reply. If there is none, at which it found the file.
    ghost since: { Self → ℕ };

    /// The file that the process found.
    ghost found: { Self → List ℕ };

    /// How many processes were cut off.
    ghost cut_offs: { Self → ℕ };

    /// Whether the process is alive after what it did last. If not, it was cut off.
    fn is_alive(&mut self) -> bool
        ensures alive { result ≡ true → cut_offs self.new ≡ cut_offs self.old }
        ensures cut_off { result ≡ false → cut_offs self.new ≡ 1 + cut_offs self.old }
        ensures past { past self.new ≡ past self.old }
        ensures replies { replies self.new ≡ replies self.old }
        ensures since { since self.new ≡ since self.old }
        ensures found { found self.new ≡ found self.old };

    /// The process begins to write a reply.
    fn begin_reply(&mut self, device: &D, reply: &HeldReply)
        ensures past { past self.new ≡ past self.old }
        ensures replies { replies self.new ≡ replies self.old ++ reply.now.reply ∷ [] }
        ensures since { since self.new ≡ (D.history device.now).now }
        ensures found { found self.new ≡ found self.old }
        ensures cut_offs { cut_offs self.new ≡ cut_offs self.old };

    /// The process, which was asked these steps, has ended. Or it was killed, or its machine crashed, at some moment after it
    /// began its last reply. `ended` is why it answers no further line, if not all are answered. The next process finds the
    /// device that is returned: each file that a crash may leave of it is one that a crash may have left since then.
    fn next(&mut self, device: D, asked: &[Step], ended: Result<(), Stopped>) -> D
        requires { since self.old ≤ (D.history device).now }
        ensures past { past self.new ≡ past self.old ++ record { found = found self.old; asked = groups_of asked.now; replies = replies self.old; ended = ended } ∷ [] }
        ensures replies { replies self.new ≡ [] }
        ensures since { since self.new ≡ (D.history result).now }
        ensures found { found self.new ≡ D.content result }
        ensures cut_offs { cut_offs self.new ≡ cut_offs self.old }
        ensures faults { D.faults device ≤ D.faults result }
        ensures left { (file : List ℕ) → (D.history result).leaves file → (D.history device).left_since (since self.old) file };
}
