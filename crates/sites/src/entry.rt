// Entries by their numbers.
ghost use Rattle.std.specs.Prelude.{◌≡◌, ◌≤◌, ◌<◌};
ghost use Rattle.wac.specs.Limits.{keys, access, end_place, entries};
ghost use Rattle.decision.specs.Table.{key_of, symbol_of, arrival_of};

use decision::Entry;
use wac::Table;

// The entry with this number.
#[tactic(auto, unfolding(decision::specs::Table::key_of, decision::specs::Table::symbol_of, decision::specs::Table::arrival_of))]
pub(crate) fn entry_at(number: usize) -> Entry
    requires { number < entries }
    ensures named { result ≡ record { key = key_of number; symbol = symbol_of number; place = arrival_of number } }
    ensures bounds { (result.key < keys) × (result.symbol ≤ access) × (result.place ≤ end_place) }
{
    if number < Table::NAMED_ENTRIES {
        Entry {
            key: number / Table::KEYS / Table::IDENTIFIERS,
            symbol: number / Table::KEYS % Table::IDENTIFIERS,
            place: number % Table::KEYS,
        }
    } else {
        Entry {
            key: number % Table::KEYS,
            symbol: Table::DELEGATE + (number - Table::NAMED_ENTRIES) / Table::KEYS,
            place: Table::END,
        }
    }
}
