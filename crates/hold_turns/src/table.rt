//! The table that calls share.
ghost use Rattle.std.specs.Prelude.{◌≡◌, true, false, All, IfOk, OnOk, ℕ};
ghost use Rattle.hold_turns.specs.Views.{TableView};
ghost use Rattle.hold_turns.specs.Lines.{state_after, MayMake, MayHold, MayRelease};

use dep_index::ModuleState;

/// The table could not be read or written.
#[derive(Clone, Copy, Debug, PartialEq, Eq, Drop)]
pub struct Broken;

/// A line that begins or ends a load or a removal.
#[derive(Clone, Copy, Debug, PartialEq, Eq, Drop)]
pub enum Half {
    BeginLoad,
    LoadDone,
    LoadFailed,
    BeginRemove,
    EndRemove,
    CancelRemove,
}

/// The table that calls share. A call of a method is made while nobody else is at the table; several in one turn are one tenure,
/// whose lines may end after any of them. After `Broken` a line was made, or it was not.
pub trait Table {
    ghost view: { Self → TableView };

    /// The state of a module.
    fn state(&mut self, slot: usize) -> Result<ModuleState, Broken>
        ensures is { IfOk result (λ state. state ≡ (view self.new).states slot) }
        ensures view { view self.new ≡ view self.old };

    /// Half of a load or of a removal. `false`: it is refused.
    fn make(&mut self, slot: usize, half: Half) -> Result<bool, Broken>
        ensures may { MayMake half slot (view self.old) (view self.new) }
        ensures made { IfOk result (λ made. made ≡ true → (view self.new).states slot ≡ state_after half) };

    /// All modules are held by the holder from now on, or, `false`, one of them is not live.
    fn hold(&mut self, holder: &[u8], modules: &[usize]) -> Result<bool, Broken>
        ensures may { MayHold holder.now modules.now (view self.old) (view self.new) }
        ensures all { IfOk result (λ held. held ≡ true → All (λ (m : ℕ). (view self.new).holds holder.now m ≡ true) modules.now) };

    /// The holder gives back what it holds of these modules.
    fn release(&mut self, holder: &[u8], modules: &[usize]) -> Result<(), Broken>
        ensures may { MayRelease holder.now modules.now (view self.old) (view self.new) }
        ensures given { OnOk result (All (λ (m : ℕ). (view self.new).holds holder.now m ≡ false) modules.now) };
}
