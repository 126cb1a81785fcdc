//! What modprobe(8) loads: the items of its plan, in order. It takes no memory.
ghost use Rattle.std.specs.Prelude.{◌≡◌, ◌<◌, length, All};
ghost use Rattle.modprobe.specs.Loads.{item_load, loads};
ghost use Rattle.modprobe.specs.ForProofs.{refusal_in};
ghost use Rattle.modprobe.specs.Sessions.{Makes};

use crate::refusal::SlotRefusal;
use crate::session::Session;
use dep_index::reads::is_live;
use load_plan::Item;
use seq_table::Modules;

#[tactic(auto, using(crate::proofs::SlotLemmas::modules_of_length))]
impl<'s, 't, M: Modules> Session<'s, 't, M> {
    /// Loads one item. A live one is skipped, and so is the refusal of a soft one.
    fn load_item(&mut self, item: &Item<'_>) -> Result<(), SlotRefusal>
        requires { item.now.slot < length self.old.setup.now.catalogue }
        ensures { Makes self.old self.new (refusal_in self.old.setup.now result) (λ s t. item_load s item.now t) }
    {
        if is_live(self.table.state(item.slot)) {
            return Ok(());
        }
        let change = self.load(item.slot, item.options.words());
        if item.soft { Ok(()) } else { change }
    }

    /// Loads the items in order, up to the first that is refused. What was loaded stays.
    pub(crate) fn load_items(&mut self, items: &[Item<'_>]) -> Result<(), SlotRefusal>
        requires { All (λ item. item.slot < length self.old.setup.now.catalogue) items.now }
        ensures { Makes self.old self.new (refusal_in self.old.setup.now result) (λ s t. loads s items.now t) }
    {
        for item in items {
            self.load_item(item)?;
        }
        Ok(())
    }
}
