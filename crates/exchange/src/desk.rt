// Two sites, and what one of them does next. The acts are those of the site named first; for the other
// the two change places.
ghost use Rattle.std.specs.Prelude.{◌≡◌};
ghost use Rattle.lines.specs.declared.act.Outcome.TheVariants.{Quiet};
ghost use Rattle.exchange.specs.Acts.{
  Worked,
  Wrote,
  NextNote,
  Delivers,
  Brought,
  PassedOn,
  Exchanged,
  SentNext,
  HalfDone,
  FullDone,
  swapped_desk,
  is_raise,
};

use crate::mail;
use lines::Outcome;
use sites::{Note, NoteKind, NoteRefused, Site, Taking};

// The two sites, and how many notes of each are kept. The counts stand beside the sites: `swapped_desk`
// and `with_first` name the four fields. A desk is given back and is no `&mut`: `Worked`, `Wrote`,
// `Brought`, `PassedOn`, `Exchanged`, `HalfDone` and `FullDone` speak of a desk and of the one after
// it.
#[derive(Clone, Copy)]
pub struct Desk {
    pub first: Site,
    pub second: Site,
    pub first_count: usize,
    pub second_count: usize,
}

// The two sites after an act, and what is told of it.
#[derive(Clone, Copy)]
pub struct Done {
    pub desk: Desk,
    pub outcome: Outcome,
}

// The two sites after a note was exchanged, and the entry from which the next is looked for.
#[derive(Clone, Copy)]
pub struct Sent {
    pub desk: Desk,
    pub next: usize,
}

// A note that a site has to send, and its entry.
#[derive(Clone, Copy)]
pub struct Written {
    pub entry: usize,
    pub note: [u8; Note::BYTES],
}

// A note that was brought to a site: what became of it, the site after it, and its receipt.
#[derive(Clone, Copy)]
pub struct Delivery {
    pub answer: Result<NoteKind, NoteRefused>,
    pub site: Site,
    pub receipt: [u8; Note::BYTES],
}

// The next note that a site has to send from an entry on, if it has one. The room that is lent is that
// of a note, so the site never refuses.
fn next_note(site: &Site, from: usize) -> Option<Written>
    ensures { NextNote site.now from result }
{
    let mut note = [0; Note::BYTES];
    let entry = site.next(from, &mut note).ok().flatten()?;
    Some(Written { entry, note })
}

// Brings a note to a site.
fn deliver(site: Site, note: [u8; Note::BYTES]) -> Delivery
    ensures { Delivers site note result }
{
    let mut receipt = [0; Note::BYTES];
    let Taking { answer, site } = site.take(&note, &mut receipt);
    Delivery {
        answer,
        site,
        receipt,
    }
}

// Is there a receipt?
fn is_raise(answer: Result<NoteKind, NoteRefused>) -> bool
    ensures { result ≡ is_raise answer }
{
    matches!(answer, Ok(NoteKind::Raise))
}

impl Desk {
    // The two sites in each other's places.
    pub fn swapped(self) -> Desk
        ensures { result ≡ swapped_desk self }
    {
        Desk {
            first: self.second,
            second: self.first,
            first_count: self.second_count,
            second_count: self.first_count,
        }
    }

    // The first site works.
    pub fn works(self) -> Done
        ensures { Worked self result }
    {
        let first = self.first.work();
        Done {
            desk: Desk { first, ..self },
            outcome: Outcome::Quiet,
        }
    }

    // The first site writes its next note from an entry on.
    pub fn writes(self, from: usize, notes: &mut [u8]) -> Done
        ensures { Wrote self from notes.old result notes.new }
    {
        let Some(written) = next_note(&self.first, from) else {
            return Done {
                desk: self,
                outcome: Outcome::Nothing,
            };
        };
        // In two steps: tried in one, and the borrow checker takes no array out of a nested pattern yet.
        let Written { entry, note } = written;
        let first_count = mail::keep(notes, self.first_count, note);
        Done {
            desk: Desk {
                first_count,
                ..self
            },
            outcome: Outcome::Note(entry),
        }
    }

    // A note is brought to the first site, and the receipt that it writes is kept.
    pub fn brings(self, note: [u8; Note::BYTES], notes: &mut [u8]) -> Done
        ensures { Brought self note notes.old result notes.new }
    {
        let Delivery {
            answer,
            site,
            receipt,
        } = deliver(self.first, note);
        let mut after = Desk {
            first: site,
            ..self
        };
        if is_raise(answer) {
            after.first_count = mail::keep(notes, self.first_count, receipt);
        }
        Done {
            desk: after,
            outcome: Outcome::Brought(answer),
        }
    }

    // A note that the first site wrote is brought to the second.
    pub fn passes_on(self, number: usize, first: &[u8], second: &mut [u8]) -> Done
        ensures { PassedOn self number first.now second.old result second.new }
    {
        let count = self.first_count;
        if count == 0 {
            return Done {
                desk: self,
                outcome: Outcome::Nothing,
            };
        }
        // Where none is kept under the number, 12 zeros are brought.
        let note = mail::kept(first, number % count).unwrap_or([0; Note::BYTES]);
        let Done { desk, outcome } = self.swapped().brings(note, second);
        Done {
            desk: desk.swapped(),
            outcome,
        }
    }

    // The note of an entry of the first site goes to the second, and its receipt comes back.
    fn exchanges_note(self, note: [u8; Note::BYTES], first: &mut [u8], second: &mut [u8]) -> Desk
        ensures { Exchanged self note result }
    {
        let there = deliver(self.second, note);
        let mut after = Desk {
            second: there.site,
            first_count: mail::keep(first, self.first_count, note),
            ..self
        };
        if is_raise(there.answer) {
            after.second_count = mail::keep(second, self.second_count, there.receipt);
            let back = deliver(self.first, there.receipt);
            after.first = back.site;
        }
        after
    }

    // The first site's next note from an entry on, if it has one, goes to the second, and its receipt
    // comes back.
    fn sends_next(self, from: usize, first: &mut [u8], second: &mut [u8]) -> Option<Sent>
        ensures { SentNext self from result }
    {
        let written = next_note(&self.first, from)?;
        let desk = self.exchanges_note(written.note, first, second);
        Some(Sent {
            desk,
            next: written.entry + 1,
        })
    }

    // One half of a full exchange: the first site works and sends all its notes, and the receipts are
    // taken.
    pub fn half(self, first: &mut [u8], second: &mut [u8]) -> Desk
        ensures { HalfDone self result }
    {
        let mut after = self.works().desk;
        let mut from = 0;
        while let Some(sent) = after.sends_next(from, first, second) {
            after = sent.desk;
            from = sent.next;
        }
        after
    }

    // A full exchange that the first site begins.
    pub fn exchanges(self, first: &mut [u8], second: &mut [u8]) -> Done
        ensures { FullDone self result.desk × (result.outcome ≡ Quiet) }
    {
        let there = self.half(first, second);
        let back = there.swapped().half(second, first);
        Done {
            desk: back.swapped(),
            outcome: Outcome::Quiet,
        }
    }
}
