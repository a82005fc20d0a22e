// A lent table of weights, seen by a lens.
ghost use Rattle.std.specs.Prelude.{◌≡◌};
ghost use Rattle.decision.specs.Engine.{Within, held};

use crate::entries;
use crate::entries::Entry;
use crate::lens::Lens;

// A lent table, seen by a lens: at least 2,592 weights, each within the lens's cap.
#[derive(Clone, Copy)]
pub struct Row<'a> {
    pub lens: Lens,
    pub table: &'a [u32],
    ghost within: { Within lens table.now },
}

impl<'a> Row<'a> {
    // The weight of an entry, and none where there is no such entry.
    #[tactic(auto, unfolding(crate::specs::Table::table_of))]
    pub fn weight_at(&self, entry: Entry) -> u32
        ensures { result ≡ held self.now.lens self.now.table.now entry.key entry.symbol entry.place }
    {
        match entries::entry_number(entry) {
            Some(number) => self.table[number],
            None => self.lens.none(),
        }
    }
}
