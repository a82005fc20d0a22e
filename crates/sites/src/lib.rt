// Two sites that work out one decision by notes: a site, and the notes that it writes and takes.
//
// A site is a value: `work` and `take` take it and give the site that comes of it; `next`, `rests` and
// `shown` read it. Any value of it and any bytes may be passed. A refused note leaves the site as it
// was, and every refusal leaves what was lent as it was.
#![tactic(auto)]

mod entry;
mod note;
mod site;

pub use note::{NoKind, Note, NoteKind};
pub use site::{NoteRefused, Opening, Showing, Site, Taking, note_refusal_number};
