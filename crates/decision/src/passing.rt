// Passes over a table, certificates outside and arrivals inside, until nothing changes.
//
// The row that is written stays a lent slice with its fact in each contract (`Within`), and is no struct as
// `Row` is: one that holds it lent would have to say in each clause that it still lends the same places.
ghost use Rattle.std.specs.Prelude.{◌≡◌, true, ◌≤◌, length, get_or, take, drop, replicate, slice_set};
ghost use Rattle.wac.specs.Limits.{entries};
ghost use Rattle.wac.specs.Record.{Lawful};
ghost use Rattle.rewriting.specs.Passes.{start};
ghost use Rattle.decision.specs.Lens.{weighing_of, question_by};
ghost use Rattle.decision.specs.Table.{is_entry, number, row_of};
ghost use Rattle.decision.specs.Engine.{Within, offered, Tried, Passed, SettledFrom};

use crate::entries;
use crate::entries::Entry;
use crate::inquiry::Inquiry;
use crate::lens::Lens;
use crate::reading::RightSide;
use crate::row::Row;
use wac::{Cert, Table};

impl<'a> Row<'a> {
    // Tries a certificate, of which this is the right side, at the entry that arrives at one place.
    fn try_at(&self, new: &mut [u32], side: &RightSide, place: usize)
        requires { Within self.now.lens new.old × Lawful side.now.cert × (is_entry side.now.cert.issuer side.now.cert.left place ≡ true) }
        ensures { new.new ≡ slice_set new.old (number side.now.cert.issuer side.now.cert.left place) ((weighing_of self.now.lens).best (get_or new.old (number side.now.cert.issuer side.now.cert.left place) 0) (offered self.now.lens self.now.table.now side.now.cert place)) }
    {
        let cert = side.cert;
        let entry = Entry {
            key: usize::from(cert.issuer),
            symbol: usize::from(cert.left),
            place,
        };
        let e = entry.number();
        let read = self.read_side(side, usize::from(cert.subject), place);
        let offer = self.lens.joined(self.lens.weight(cert), read);
        new[e] = self.lens.better(new[e], offer);
    }

    // Tries a certificate at every entry that it can bring about.
    fn try_cert(&self, new: &mut [u32], cert: Cert)
        requires { Within self.now.lens new.old × Lawful cert }
        ensures { Tried self.now.lens self.now.table.now cert new.old new.new }
    {
        let side = RightSide { cert };
        for place in entries::arrivals_of(usize::from(cert.left)) {
            self.try_at(new, &side, place);
        }
    }
}

// Fills the first 2,592 places with one weight.
#[tactic(auto, using(std::proofs::lemmas::List::take_at, std::proofs::lemmas::List::drop_at))]
pub fn fill(table: &mut [u32], weight: u32)
    requires { entries ≤ length table.old }
    ensures { (take entries table.new ≡ replicate entries weight) × (drop entries table.new ≡ drop entries table.old) }
{
    table[..Table::ENTRIES].fill(weight);
}

impl<'a> Inquiry<'a> {
    // The table at the start: the asker's two mark entries have the whole, the others none.
    pub fn start_by(&self, lens: Lens, table: &mut [u32])
        requires { entries ≤ length table.old }
        ensures { (take entries table.new ≡ row_of (start (question_by lens self.now.request.asker))) × (drop entries table.new ≡ drop entries table.old) }
    {
        fill(table, lens.none());
        let whole = lens.whole();
        let delegate = Entry {
            key: usize::from(self.request.asker),
            symbol: Table::DELEGATE,
            place: Table::END,
        };
        let access = Entry {
            symbol: Table::ACCESS,
            ..delegate
        };
        table[delegate.number()] = whole;
        table[access.number()] = whole;
    }

    // One pass: the new table begins as the old one, and every certificate that counts is tried.
    fn pass_over(&self, old: &Row<'_>, new: &mut [u32])
        requires { (length old.now.table.now ≡ entries) × Within old.now.lens new.old × (take entries new.old ≡ old.now.table.now) }
        ensures { Passed old.now.lens self.now.file.now self.now.request old.now.table.now new.old new.new }
    {
        for i in 0..self.count {
            let cert = self.cert(i);
            if old.lens.is_live(self.request, cert) {
                old.try_cert(new, cert);
            }
        }
    }

    // Passes until one changes nothing: the number of passes. No range says how many there will be.
    pub fn settle_by(&self, lens: Lens, table: &mut [u32]) -> u64
        requires { Within lens table.old }
        ensures { SettledFrom lens self.now.file.now self.now.request table.old result table.new }
    {
        let mut old = [0u32; Table::ENTRIES];
        let mut passes: u64 = 0;
        loop {
            old.copy_from_slice(&table[..Table::ENTRIES]);
            self.pass_over(&Row { lens, table: &old }, table);
            passes += 1;
            if old[..] == table[..Table::ENTRIES] {
                return passes;
            }
        }
    }
}
