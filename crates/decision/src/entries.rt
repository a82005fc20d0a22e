// Entries, and their numbers.
ghost use Rattle.std.specs.Prelude.{◌≡◌, true, ◌<◌};
ghost use Rattle.wac.specs.Limits.{entries};
ghost use Rattle.decision.specs.Table.{is_entry, arrivals_of, number, NumberOf};

use std::ops::Range;
use wac::Table;

// An entry: a key reads a symbol and arrives at a place. Numbers and no enums: `entry_number` takes any three,
// and `is_entry` says which of them name an entry.
#[derive(Clone, Copy)]
pub struct Entry {
    pub key: usize,
    pub symbol: usize,
    pub place: usize,
}

// The places where a symbol's entries arrive.
#[tactic(auto, unfolding(crate::specs::Table::arrivals_of))]
pub fn arrivals_of(symbol: usize) -> Range<usize>
    ensures { result ≡ arrivals_of symbol }
{
    if symbol < Table::IDENTIFIERS {
        0..Table::KEYS
    } else {
        Table::END..Table::END + 1
    }
}

impl Entry {
    // Is there such an entry? The key and the symbol are tested by early returns for speed: tried in one
    // expression of `&&`, a dense file takes 1.8 times as long, past the aim (docs/DECISIONS.md, 18).
    #[tactic(auto, unfolding(crate::specs::Table::is_entry))]
    fn is_entry(self) -> bool
        ensures { result ≡ is_entry self.key self.symbol self.place }
    {
        if Table::KEYS <= self.key {
            return false;
        }
        if self.symbol < Table::IDENTIFIERS {
            return self.place < Table::KEYS;
        }
        self.symbol <= Table::ACCESS && self.place == Table::END
    }

    // The number of an entry.
    #[tactic(auto, using(crate::proofs::TableLaws::name_entry, crate::proofs::TableLaws::mark_entry), unfolding(crate::specs::Table::number))]
    pub(crate) fn number(self) -> usize
        requires { is_entry self.key self.symbol self.place ≡ true }
        ensures { (result ≡ number self.key self.symbol self.place) × (result < entries) }
    {
        if self.symbol < Table::IDENTIFIERS {
            (self.key * Table::IDENTIFIERS + self.symbol) * Table::KEYS + self.place
        } else {
            Table::NAMED_ENTRIES + (self.symbol - Table::DELEGATE) * Table::KEYS + self.key
        }
    }
}

// The number of an entry, where there is such an entry.
pub fn entry_number(entry: Entry) -> Option<usize>
    ensures { NumberOf entry.key entry.symbol entry.place result }
{
    if !entry.is_entry() {
        return None;
    }
    Some(entry.number())
}
