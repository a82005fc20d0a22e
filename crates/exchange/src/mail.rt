// The notes and receipts that a side wrote, in the order written: 12 bytes each, as many as there is
// room for. What is written past that is lost.
//
// The bytes are lent beside their count. A struct of both that lends them would have to say in the
// clause of each act that it still lends the same bytes; one that holds them could be lent no other
// bytes, and `Keeps` (the clause of `keep`), `Wrote`, `Brought` and `PassedOn` (docs/PROOFS.md) speak
// of lent bytes of any length.
ghost use Rattle.std.specs.Prelude.{◌≡◌, ◌*◌, true, false, MatchOption};
ghost use Rattle.sites.specs.Notes.{note_length};
ghost use Rattle.exchange.specs.Mail.{has_room, kept_at, Keeps};

use sites::Note;

// How many notes of a side are kept.
pub const KEPT: usize = 4096;

// The bytes that they take.
pub const BYTES: usize = KEPT * Note::BYTES;

// Where the note of this number stands, if there is room for it.
fn place(notes: &[u8], number: usize) -> Option<usize>
    ensures { MatchOption result
        (has_room notes.now number ≡ false)
        (λ at. (has_room notes.now number ≡ true) × (at ≡ number * note_length)) }
{
    if KEPT <= number {
        return None;
    }
    let at = number * Note::BYTES;
    if notes.len() < at + Note::BYTES {
        return None;
    }
    Some(at)
}

// Keeps a note where there is room, and gives how many are kept.
pub fn keep(notes: &mut [u8], count: usize, note: [u8; Note::BYTES]) -> usize
    ensures { Keeps notes.old count note result notes.new }
{
    let Some(at) = place(notes, count) else {
        return count;
    };
    notes[at..at + Note::BYTES].copy_from_slice(&note);
    count + 1
}

// The note of this number, if it is kept.
pub fn kept(notes: &[u8], number: usize) -> Option<[u8; Note::BYTES]>
    ensures { result ≡ kept_at notes.now number }
{
    let at = place(notes, number)?;
    let mut note = [0; Note::BYTES];
    note.copy_from_slice(&notes[at..at + Note::BYTES]);
    Some(note)
}
