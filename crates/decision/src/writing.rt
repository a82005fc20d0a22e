// The chain written out entry by entry: each entry's own certificate first, and then the entries that
// its subject reads.
ghost use Rattle.std.specs.Prelude.{◌≡◌, ◌+◌, ◌≤◌, ◌<◌, length, slice_index};
ghost use Rattle.wac.specs.Limits.{chain_places, end_place};
ghost use Rattle.wac.specs.File.{count_of};
ghost use Rattle.decision.specs.Usable.{symbols_of};
ghost use Rattle.decision.specs.Engine.{Within};
ghost use Rattle.decision.specs.declared.lens.Lens.TheVariants.{Steps};
ghost use Rattle.decision.specs.Writing.{
  StepsTable,
  steps_at,
  steps_read,
  brings,
  Bringing,
  Wrote,
  Entered,
  ReadBy,
};

use crate::entries::Entry;
use crate::inquiry::Inquiry;
use crate::lens::Lens;
use crate::reading::RightSide;
use crate::row::Row;
use wac::Table;

// The last table of steps of an inquiry, over the certificates that end at the floor or later.
#[derive(Clone, Copy)]
pub struct LastSteps<'a> {
    pub inquiry: Inquiry<'a>,
    pub floor: u32,
    pub table: &'a [u32],
    ghost within: { Within (Steps floor) table.now },
    ghost last: { ∥ StepsTable inquiry.file.now inquiry.request floor table.now ∥₁ },
}

impl<'a> LastSteps<'a> {
    // The steps of an entry.
    pub fn steps_at(&self, entry: Entry) -> u32
        ensures { result ≡ steps_at self.now.floor self.now.table.now entry.key entry.symbol entry.place }
    {
        let row = Row {
            lens: Lens::Steps(self.floor),
            table: self.table,
        };
        row.weight_at(entry)
    }

    // The fewest steps in which the symbols from j on are read from one place to another.
    fn steps_read(&self, side: &RightSide, j: usize, from: usize, to: usize) -> u32
        requires { j ≤ length (symbols_of side.now.cert) }
        ensures { result ≡ steps_read self.now.floor self.now.table.now side.now.cert j from to }
    {
        let row = Row {
            lens: Lens::Steps(self.floor),
            table: self.table,
        };
        row.read_from(side, j, from, to)
    }

    // Does certificate i bring the entry about by one step more than its subject reads?
    fn brings_by(&self, i: usize, entry: Entry) -> bool
        requires { i < count_of self.now.inquiry.file.now }
        ensures { result ≡ brings self.now.inquiry.file.now self.now.inquiry.request self.now.floor self.now.table.now i entry.key entry.symbol entry.place }
    {
        let cert = self.inquiry.cert(i);
        let subject = usize::from(cert.subject);
        Lens::Steps(self.floor).is_live(self.inquiry.request, cert)
            && usize::from(cert.issuer) == entry.key
            && usize::from(cert.left) == entry.symbol
            && self.steps_read(&RightSide { cert }, 0, subject, entry.place) + 1
                == self.steps_at(entry)
    }

    // The lowest certificate that brings an entry about by its steps.
    fn find_cert(&self, entry: Entry) -> usize
        requires { (steps_at self.now.floor self.now.table.now entry.key entry.symbol entry.place ≤ chain_places) × (steps_at self.now.floor self.now.table.now entry.key entry.symbol entry.place ≡ 0 → ⊥) }
        ensures { Bringing self.now.inquiry.file.now self.now.inquiry.request self.now.floor self.now.table.now entry.key entry.symbol entry.place result }
    {
        for i in 0..self.inquiry.count {
            if self.brings_by(i, entry) {
                return i;
            }
        }
        unreachable!()
    }

    // The lowest place to which symbol j goes in a best reading of a right side.
    fn find_place(&self, side: &RightSide, j: usize, from: usize, to: usize) -> usize
        requires { (j < length (symbols_of side.now.cert)) × (steps_read self.now.floor self.now.table.now side.now.cert j from to ≤ chain_places) }
        ensures { (result ≤ end_place) × (steps_read self.now.floor self.now.table.now side.now.cert j from to ≡ steps_at self.now.floor self.now.table.now from (slice_index (symbols_of side.now.cert) j) result + steps_read self.now.floor self.now.table.now side.now.cert (j + 1) result to) }
    {
        let symbol = side.symbol_at(j);
        let whole = self.steps_read(side, j, from, to);
        for place in 0..Table::END {
            let first = self.steps_at(Entry {
                key: from,
                symbol,
                place,
            });
            let rest = self.steps_read(side, j + 1, place, to);
            if first + rest == whole {
                return place;
            }
        }
        Table::END
    }

    // Writes an entry from `at` on, and gives the next place. The chain and the place in it stay two: `Wrote`
    // says of the whole lent chain what stands from `at` on. A certificate's number is below 128; no From leads
    // from usize to u8, and a TryFrom would have to be unwrapped: `as`, which is proved to lose nothing.
    #[cycle(expand_entry_expand_subject)]
    pub fn expand_entry(&self, chain: &mut [u8], at: usize, entry: Entry) -> usize
        requires { (steps_at self.now.floor self.now.table.now entry.key entry.symbol entry.place ≤ chain_places) × (at + steps_at self.now.floor self.now.table.now entry.key entry.symbol entry.place ≤ length chain.old) }
        ensures { Wrote (Entered self.now.inquiry.file.now self.now.inquiry.request self.now.floor entry.key entry.symbol entry.place) at (steps_at self.now.floor self.now.table.now entry.key entry.symbol entry.place) chain.old chain.new result }
    {
        if self.steps_at(entry) == 0 {
            return at;
        }
        let i = self.find_cert(entry);
        let cert = self.inquiry.cert(i);
        chain[at] = i as u8;
        self.expand_subject(chain, at + 1, &RightSide { cert }, entry.place)
    }

    // Writes the entries that a certificate's subject reads, from `at` on, and gives the next place.
    #[cycle(expand_entry_expand_subject)]
    fn expand_subject(&self, chain: &mut [u8], at: usize, side: &RightSide, to: usize) -> usize
        requires { (steps_read self.now.floor self.now.table.now side.now.cert 0 side.now.cert.subject to ≤ chain_places) × (at + steps_read self.now.floor self.now.table.now side.now.cert 0 side.now.cert.subject to ≤ length chain.old) }
        ensures { Wrote (ReadBy self.now.inquiry.file.now self.now.inquiry.request self.now.floor side.now.cert to) at (steps_read self.now.floor self.now.table.now side.now.cert 0 side.now.cert.subject to) chain.old chain.new result }
    {
        let mut next = at;
        let mut from = usize::from(side.cert.subject);
        for j in 0..side.symbols_in() {
            let symbol = side.symbol_at(j);
            let place = self.find_place(side, j, from, to);
            next = self.expand_entry(
                chain,
                next,
                Entry {
                    key: from,
                    symbol,
                    place,
                },
            );
            from = place;
        }
        next
    }
}
