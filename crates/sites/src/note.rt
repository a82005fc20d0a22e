// A note: 12 bytes that name an entry and a minute.
ghost use Rattle.std.specs.Prelude.{◌≡◌, ◌≤◌, ◌<◌, true, false, length, MatchOption};
ghost use Rattle.std.proofs.lemmas.List.Edits.{sets};
ghost use Rattle.wac.specs.Limits.{entries};
ghost use Rattle.sites.specs.Notes.{
  note_length,
  kind_code,
  CodesKind,
  note_from,
  note_bytes,
  formed,
  note_ok,
};
ghost use Rattle.sites.specs.Site.{entry_of, receipt_of};

use decision::Entry;
use wac::Table;

// What kind of note it is.
#[derive(Clone, Copy)]
pub enum NoteKind {
    // It raises an entry's minute, and has a receipt.
    Raise,
    // It is a raise's receipt.
    Receipt,
}

// A byte that is the code of no kind of note.
#[derive(Clone, Copy)]
pub struct NoKind;

impl From<NoteKind> for u8 {
    ghost from_gives = { λ kind code. code ≡ kind_code kind };

    fn from(kind: NoteKind) -> u8 {
        match kind {
            NoteKind::Raise => 1,
            NoteKind::Receipt => 2,
        }
    }
}

impl TryFrom<u8> for NoteKind {
    type Error = NoKind;

    ghost try_from_gives = { CodesKind };

    fn try_from(code: u8) -> Result<NoteKind, NoKind> {
        match code {
            1 => Ok(NoteKind::Raise),
            2 => Ok(NoteKind::Receipt),
            _ => Err(NoKind),
        }
    }
}

// A note, as its bytes say it: its kind is any byte, since any 12 bytes say a note (`note_from`).
#[derive(Clone, Copy)]
pub struct Note {
    pub session: u32,
    pub kind: u8,
    pub key: u8,
    pub symbol: u8,
    pub arrival: u8,
    pub minute: u32,
}

impl From<Note> for [u8; Note::BYTES] {
    ghost from_gives = { λ note bytes. bytes ≡ note_bytes note };

    fn from(note: Note) -> [u8; Note::BYTES] {
        let [s0, s1, s2, s3] = wac::word_bytes(note.session);
        let [m0, m1, m2, m3] = wac::word_bytes(note.minute);
        [
            s0,
            s1,
            s2,
            s3,
            note.kind,
            note.key,
            note.symbol,
            note.arrival,
            m0,
            m1,
            m2,
            m3,
        ]
    }
}

impl From<Note> for Entry {
    ghost from_gives = { λ note entry. entry ≡ record { key = note.key; symbol = note.symbol; place = note.arrival } };

    fn from(note: Note) -> Entry {
        Entry {
            key: usize::from(note.key),
            symbol: usize::from(note.symbol),
            place: usize::from(note.arrival),
        }
    }
}

impl Note {
    // The bytes of a note.
    pub const BYTES: usize = 12;

    // What these bytes say, if they are 12 and every field is in range.
    pub(crate) fn read_formed(bytes: &[u8]) -> Option<Note>
        ensures { MatchOption result (note_ok bytes.now ≡ false) (λ note. (note_ok bytes.now ≡ true) × (note ≡ note_from bytes.now)) }
    {
        let [s0, s1, s2, s3, kind, key, symbol, arrival, m0, m1, m2, m3] = bytes else {
            return None;
        };
        let note = Note {
            session: wac::word_of(*s0, *s1, *s2, *s3),
            kind: *kind,
            key: *key,
            symbol: *symbol,
            arrival: *arrival,
            minute: wac::word_of(*m0, *m1, *m2, *m3),
        };
        note.is_formed().then_some(note)
    }

    // Is every field in range?
    #[tactic(auto, using(crate::proofs::SiteLaws::formed_by, crate::proofs::SiteLaws::number_test))]
    fn is_formed(self) -> bool
        ensures { result ≡ formed self }
    {
        NoteKind::try_from(self.kind).is_ok()
            && self.minute != 0
            && usize::from(self.symbol) < Table::ACCESS
            && decision::entry_number(Entry::from(self)).is_some()
    }

    // The kind of a note whose fields are in range.
    pub(crate) fn kind(self) -> NoteKind
        requires { formed self ≡ true }
        ensures { kind_code result ≡ self.kind }
    {
        match NoteKind::try_from(self.kind) {
            Ok(kind) => kind,
            Err(_) => unreachable!(),
        }
    }

    // The number of the entry that a note names whose fields are in range.
    pub(crate) fn entry(self) -> usize
        requires { formed self ≡ true }
        ensures { (result ≡ entry_of self) × (result < entries) }
    {
        decision::entry_number(Entry::from(self)).unwrap()
    }

    // The receipt of a raise: the same entry and minute.
    pub(crate) fn receipt(self) -> Note
        ensures { result ≡ receipt_of self }
    {
        Note {
            kind: u8::from(NoteKind::Receipt),
            ..self
        }
    }

    // Writes the note's 12 bytes, and no others.
    pub(crate) fn write(self, to: &mut [u8])
        requires { note_length ≤ length to.old }
        ensures { to.new ≡ sets to.old 0 (note_bytes self) }
    {
        to[..Note::BYTES].copy_from_slice(&<[u8; Note::BYTES]>::from(self));
    }
}
