// A site: its own copy of the file, the request and the session number, and for each entry its minute
// and its receipted minute.
ghost use Rattle.std.specs.Prelude.{◌≡◌, ◌≤◌, ◌<◌, [], length, MatchResult};
ghost use Rattle.wac.specs.Limits.{entries, keys, largest_file};
ghost use Rattle.wac.specs.Answers.{gives, refuses, first_of};
ghost use Rattle.sites.specs.Notes.{note_length, note_from};
ghost use Rattle.sites.specs.declared.site.NoteRefused.TheVariants.{Room};
ghost use Rattle.sites.specs.Site.{
  start_of,
  opened_site,
  blank_site,
  Opens,
  Works,
  raised_site,
  receipted_site,
  raise_of,
  note_cases,
  Takes,
  next_of,
  Sends,
  restful,
  showing,
  note_number,
};

use crate::entry::entry_at;
use crate::note::{Note, NoteKind};
use decision::{Entry, Refused, Request};
use wac::Table;

// A site.
#[derive(Clone, Copy)]
pub struct Site {
    // The bytes of its file, and how many of them there are: an array with a length beside it, since
    // memory is fixed, and `opened_site` and `file_of` name both.
    file: [u8; Table::LARGEST],
    used: usize,
    request: Request,
    session: u32,
    // It was opened: a flag, since a refused opening has a site too (`blank_site`), which works and
    // takes notes.
    live: bool,
    // Two tables and no table of pairs: `settle` passes over the minutes alone.
    minutes: [u32; Table::ENTRIES],
    receipted: [u32; Table::ENTRIES],
    // It has worked since it was opened and since the last rise: no flag beside a value, `restful` names it.
    idle: bool,
}

// An opening: the answer, and the site, blank where it is refused. The site stands beside the answer,
// since `Opens` says which site a refused opening has, and `blank_works` and `blank_takes` what becomes
// of it.
#[derive(Clone, Copy)]
pub struct Opening {
    pub answer: Result<(), Refused>,
    pub site: Site,
}

// Why a note is refused.
#[derive(Clone, Copy)]
pub enum NoteRefused {
    // Under 12 lent bytes.
    Room,
    // Not 12 bytes, or a field out of range.
    Form,
    // Of another session.
    Session,
    // A receipt for a later minute than the entry holds.
    Later,
}

// The refusal's number: a function, since docs/PROOFS.md names it, and `u8::from(why)` would not say
// which number of it.
pub fn note_refusal_number(why: NoteRefused) -> u8
    ensures { result ≡ note_number why }
{
    match why {
        NoteRefused::Room => 23,
        NoteRefused::Form => 27,
        NoteRefused::Session => 26,
        NoteRefused::Later => 28,
    }
}

// A note taken: the answer, the note's kind or why it is refused, and the site after it. The site
// stands beside the answer, and is no `&mut`: `Takes` and `Act` speak of a site and of the one after
// it.
#[derive(Clone, Copy)]
pub struct Taking {
    pub answer: Result<NoteKind, NoteRefused>,
    pub site: Site,
}

// What a site shows: a flag beside the minute, since the theorems on two sites name both (`rest_agrees`
// the minute, `granted_chain` and `exchanges_agree` the flag).
#[derive(Clone, Copy)]
pub struct Showing {
    pub minute: u32,
    pub granted: bool,
}

// The minutes at the start: without end at the asker's two marks, none elsewhere. `decision` writes the
// same start (`Inquiry::start_by`), but for a question in order, which only it makes; made public for a
// bare key it would have to ask for one below 16, and no public function asks anything (README, "Any
// bytes and any numbers").
fn start_minutes(asker: usize) -> [u32; Table::ENTRIES]
    requires { asker < keys }
    ensures { result ≡ start_of asker }
{
    let mut minutes = [0u32; Table::ENTRIES];
    let delegate = Entry {
        key: asker,
        symbol: Table::DELEGATE,
        place: Table::END,
    };
    let access = Entry {
        symbol: Table::ACCESS,
        ..delegate
    };
    minutes[decision::entry_number(delegate).unwrap()] = Table::WITHOUT_END;
    minutes[decision::entry_number(access).unwrap()] = Table::WITHOUT_END;
    minutes
}

// Refuses under 12 lent bytes.
fn room_for_note(room: usize) -> Result<(), NoteRefused>
    ensures { MatchResult result (λ _. note_length ≤ room) (λ why. (why ≡ Room) × (room < note_length)) }
{
    if room < Note::BYTES {
        return Err(NoteRefused::Room);
    }
    Ok(())
}

impl Site {
    // A site that never rests and shows nothing granted.
    #[tactic(auto, unfolding(crate::specs::Site::blank_site))]
    fn blank() -> Site
        ensures { result ≡ blank_site }
    {
        Site {
            file: [0u8; Table::LARGEST],
            used: 0,
            request: Request {
                owner: 0,
                asker: 0,
                rights: 0,
                at: 0,
            },
            session: 0,
            live: false,
            minutes: [0u32; Table::ENTRIES],
            receipted: [0u32; Table::ENTRIES],
            idle: false,
        }
    }

    // A site on an accepted file.
    #[tactic(auto, unfolding(crate::specs::Site::opened_site))]
    fn on(file: &[u8], request: Request, session: u32) -> Site
        requires { (length file.now ≤ largest_file) × (request.asker < keys) }
        ensures { result ≡ opened_site file.now request session }
    {
        let mut copy = [0u8; Table::LARGEST];
        copy[..file.len()].copy_from_slice(file);
        let minutes = start_minutes(usize::from(request.asker));
        Site {
            file: copy,
            used: file.len(),
            request,
            session,
            live: true,
            minutes,
            receipted: minutes,
            idle: false,
        }
    }

    // Opens a site with its own file, the request and a session number, of all of which it keeps a copy.
    pub fn open(file: &[u8], request: Request, session: u32) -> Opening
        ensures { Opens file.now request session result }
    {
        match decision::admit(file, request) {
            Err(why) => Opening {
                answer: Err(why),
                site: Site::blank(),
            },
            Ok(_) => Opening {
                answer: Ok(()),
                site: Site::on(file, request, session),
            },
        }
    }

    // Passes over the site's own file until nothing changes.
    pub fn work(self) -> Site
        ensures { Works self result }
    {
        let used = self.used.min(Table::LARGEST);
        let mut settled = self.minutes;
        match decision::settle(&self.file[..used], self.request, &mut settled) {
            Err(_) => self,
            Ok(_) => Site {
                minutes: settled,
                idle: true,
                ..self
            },
        }
    }

    // A raise: the entry's minute and receipted minute become the greater; if its minute rose, the site
    // must work again. An entry's number is a plain number in this crate, here, in `receipt_at`,
    // `raise_of`, `entry_at` and `Note::entry`: a type for one that exists would be unwrapped at each
    // indexing, where the `requires` is one comparison, met by the function that gave the number.
    fn raise_at(self, entry: usize, minute: u32) -> Site
        requires { entry < entries }
        ensures { result ≡ raised_site self entry minute }
    {
        let mut raised = self;
        let held = raised.minutes[entry];
        let known = raised.receipted[entry];
        raised.minutes[entry] = held.max(minute);
        raised.receipted[entry] = known.max(minute);
        if held < minute {
            raised.idle = false;
        }
        raised
    }

    // A receipt: the receipted minute becomes the greater.
    fn receipt_at(self, entry: usize, minute: u32) -> Site
        requires { entry < entries }
        ensures { result ≡ receipted_site self entry minute }
    {
        let mut told = self;
        let known = told.receipted[entry];
        told.receipted[entry] = known.max(minute);
        told
    }

    // What becomes of a note, before anything changes: the first refusal in document 01's order (room,
    // form, session, later), or the note that is taken.
    fn answer_for(&self, bytes: &[u8], room: usize) -> Result<Note, NoteRefused>
        ensures { MatchResult result
            (λ said. (said ≡ note_from bytes.now) × (first_of (note_cases self.now bytes.now room) said.kind ≡ gives said.kind))
            (λ why. first_of (note_cases self.now bytes.now room) (note_from bytes.now).kind ≡ refuses (note_number why) []) }
    {
        room_for_note(room)?;
        let said = Note::read_formed(bytes).ok_or(NoteRefused::Form)?;
        if !self.live {
            return Err(NoteRefused::Session);
        }
        if said.session != self.session {
            return Err(NoteRefused::Session);
        }
        match said.kind() {
            NoteKind::Raise => Ok(said),
            NoteKind::Receipt if self.minutes[said.entry()] < said.minute => Err(
                NoteRefused::Later,
            ),
            NoteKind::Receipt => Ok(said),
        }
    }

    // Takes a note that was brought to the site. The receipt of a raise is written to the first 12 lent
    // bytes.
    #[tactic(auto, using(crate::proofs::SiteLaws::taken_room, crate::proofs::SiteLaws::taken_formed, crate::proofs::SiteLaws::note_formed))]
    pub fn take(self, bytes: &[u8], receipt: &mut [u8]) -> Taking
        ensures { Takes self bytes.now receipt.old result receipt.new }
    {
        let said = match self.answer_for(bytes, receipt.len()) {
            Ok(said) => said,
            Err(why) => {
                return Taking {
                    answer: Err(why),
                    site: self,
                };
            }
        };
        let kind = said.kind();
        let site = match kind {
            NoteKind::Raise => {
                said.receipt().write(receipt);
                self.raise_at(said.entry(), said.minute)
            }
            NoteKind::Receipt => self.receipt_at(said.entry(), said.minute),
        };
        Taking {
            answer: Ok(kind),
            site,
        }
    }

    // The lowest entry from `from` on whose minute is above its receipted minute.
    #[tactic(auto, using(crate::proofs::SiteLaws::next_here, crate::proofs::SiteLaws::next_over, crate::proofs::SiteLaws::next_past))]
    fn next_due(&self, from: usize) -> Option<usize>
        ensures { result ≡ next_of self.now from }
    {
        for entry in from..Table::ENTRIES {
            if self.receipted[entry] < self.minutes[entry] {
                return Some(entry);
            }
        }
        None
    }

    // The note of an entry.
    fn raise_of(&self, entry: usize) -> Note
        requires { entry < entries }
        ensures { result ≡ raise_of self.now entry }
    {
        let named = entry_at(entry);
        // No From leads from usize to u8; `entry_at` bounds each.
        Note {
            session: self.session,
            kind: u8::from(NoteKind::Raise),
            key: named.key as u8,
            symbol: named.symbol as u8,
            arrival: named.place as u8,
            minute: self.minutes[entry],
        }
    }

    // The next note to send, from a given entry number on, is written to the first 12 lent bytes; the
    // one refusal is `Room`.
    #[tactic(auto, using(crate::proofs::SiteLaws::send_short))]
    pub fn next(&self, from: usize, bytes: &mut [u8]) -> Result<Option<usize>, NoteRefused>
        ensures { Sends self.now from bytes.old result bytes.new }
    {
        room_for_note(bytes.len())?;
        let due = self.next_due(from);
        if let Some(entry) = due {
            self.raise_of(entry).write(bytes);
        }
        Ok(due)
    }

    // Rest: the site has worked since it was opened and since the last rise, and no entry's minute is
    // above its receipted minute.
    pub fn rests(&self) -> bool
        ensures { result ≡ restful self.now }
    {
        self.idle && self.next_due(0).is_none()
    }

    // The owner's mark 10 minute, and granted if it is not 0.
    #[tactic(auto, unfolding(crate::specs::Site::showing, decision::specs::Table::table_of))]
    pub fn shown(&self) -> Showing
        ensures { result ≡ showing self.now }
    {
        let owner = usize::from(self.request.owner);
        let delegate = Entry {
            key: owner,
            symbol: Table::DELEGATE,
            place: Table::END,
        };
        let minute = match decision::entry_number(delegate) {
            Some(entry) => self.minutes[entry],
            None => 0,
        };
        Showing {
            minute,
            granted: minute != 0,
        }
    }
}
