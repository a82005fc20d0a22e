// The best reading of a certificate's right side.
ghost use Rattle.std.specs.Prelude.{◌≡◌, ◌+◌, ◌≤◌, ◌<◌, length, get_or, drop};
ghost use Rattle.wac.specs.Limits.{subject_ids};
ghost use Rattle.rewriting.specs.Passes.{reading};
ghost use Rattle.decision.specs.Usable.{symbols_of};
ghost use Rattle.decision.specs.Lens.{question_by};
ghost use Rattle.decision.specs.Engine.{held};

use crate::entries::Entry;
use crate::row::Row;
use wac::{Cert, Table};

// The right side of a certificate that has at most three identifiers: the subject's identifiers, then
// the closing mark if it has one.
#[derive(Clone, Copy)]
pub struct RightSide {
    pub cert: Cert,
    ghost few: { cert.count ≤ subject_ids },
}

impl RightSide {
    // How many symbols it has.
    #[tactic(auto, using(crate::proofs::ReadingLaws::symbols_unmarked, crate::proofs::ReadingLaws::symbols_marked))]
    pub fn symbols_in(&self) -> usize
        ensures { (result ≡ length (symbols_of self.now.cert)) × (result ≤ 4) }
    {
        if usize::from(self.cert.mark) == Table::UNUSED {
            usize::from(self.cert.count)
        } else {
            usize::from(self.cert.count) + 1
        }
    }

    // Symbol j.
    #[tactic(auto, using(crate::proofs::ReadingLaws::symbol_mark, crate::proofs::ReadingLaws::symbol_id))]
    pub fn symbol_at(&self, j: usize) -> usize
        requires { j < length (symbols_of self.now.cert) }
        ensures { result ≡ get_or (symbols_of self.now.cert) j 0 }
    {
        if usize::from(self.cert.count) <= j {
            return usize::from(self.cert.mark);
        }
        match j {
            0 => usize::from(self.cert.ids.0),
            1 => usize::from(self.cert.ids.1),
            _ => usize::from(self.cert.ids.2),
        }
    }
}

impl<'a> Row<'a> {
    // The best reading of the symbols from j on, from one place to another: none and one at once, more
    // by a search.
    #[cycle(read_from_search_from)]
    pub fn read_from(&self, side: &RightSide, j: usize, from: usize, to: usize) -> u32
        requires { j ≤ length (symbols_of side.now.cert) }
        ensures { result ≡ reading (question_by self.now.lens 0) (held self.now.lens self.now.table.now) from (drop j (symbols_of side.now.cert)) to }
    {
        let symbols = side.symbols_in();
        if symbols <= j {
            if from == to {
                return self.lens.whole();
            }
            return self.lens.none();
        }
        if symbols == j + 1 {
            return self.weight_at(Entry {
                key: from,
                symbol: side.symbol_at(j),
                place: to,
            });
        }
        self.search_from(side, j, from, to)
    }

    // The best reading of two symbols or more, from j on: a search over the places to which symbol j
    // goes.
    #[cycle(read_from_search_from)]
    fn search_from(&self, side: &RightSide, j: usize, from: usize, to: usize) -> u32
        requires { j + 1 < length (symbols_of side.now.cert) }
        ensures { result ≡ reading (question_by self.now.lens 0) (held self.now.lens self.now.table.now) from (drop j (symbols_of side.now.cert)) to }
    {
        let symbol = side.symbol_at(j);
        let none = self.lens.none();
        let mut best = none;
        for place in 0..=Table::END {
            let first = self.weight_at(Entry {
                key: from,
                symbol,
                place,
            });
            if first != none {
                let rest = self.read_from(side, j + 1, place, to);
                best = self.lens.better(best, self.lens.joined(first, rest));
            }
        }
        best
    }

    // The best reading of a whole right side: one symbol at once. It is apart from `read_from` for speed:
    // most right sides have one symbol, and are then read with no call; tried without, questions take 1.6
    // times as long, past the aim (docs/DECISIONS.md, 18).
    pub fn read_side(&self, side: &RightSide, from: usize, to: usize) -> u32
        ensures { result ≡ reading (question_by self.now.lens 0) (held self.now.lens self.now.table.now) from (symbols_of side.now.cert) to }
    {
        if side.symbols_in() == 1 {
            return self.weight_at(Entry {
                key: from,
                symbol: side.symbol_at(0),
                place: to,
            });
        }
        self.read_from(side, 0, from, to)
    }
}
