//! Who makes the calls of a script.
ghost use Rattle.std.specs.Prelude.{IfSome};
ghost use Rattle.dep_index.specs.declared.table.calls.Call.{Call};
ghost use Rattle.dep_index.specs.declared.table.calls.Reply.{Reply};

use dep_index::{Call, ModuleState, Reply};
use std::sync::Wait;

/// One who makes the calls that lock.
pub(super) trait Calls {
    /// The call was made, and answered so.
    ghost made: { Self → Call → Reply → Self → Type 0 };

    fn workers(&self) -> usize;

    /// Makes a call. It is None if the worker or the slot is out of range, and of a query, which locks nothing.
    fn make<R: Wait>(&mut self, rt: &R, call: Call) -> Option<Reply>
        ensures { IfSome result (λ reply. made self.old call reply self.new) };

    fn held<R: Wait>(&mut self, rt: &R, worker: usize, slot: usize) -> Option<u32>;

    fn state<R: Wait>(&mut self, rt: &R, slot: usize) -> Option<ModuleState>;

    fn loaded<R: Wait>(&mut self, rt: &R) -> usize;

    fn loaded_at<R: Wait>(&mut self, rt: &R, place: usize) -> Option<usize>;
}

/// One who asks whether some worker holds a module, which locks nothing. It is None if the slot is out of range.
pub(super) trait Asks {
    fn ask(&mut self, slot: usize) -> Option<bool>;
}
