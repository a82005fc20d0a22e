// One record read alone where the lent file holds it, and the small view by which a file's
// certificates are fetched: the view holds the lent file and what its check found.
ghost use Rattle.std.specs.Prelude.{◌≡◌, ◌+◌, ◌*◌, ◌≤◌, length};
ghost use Rattle.wac.specs.Limits.{header_bytes, record_bytes, certificates};
ghost use Rattle.wac.specs.Answers.{first_of, comes_back};
ghost use Rattle.wac.specs.File.{cert_at};
ghost use Rattle.wac.specs.View.{number_cases, ReadAlone, ViewOf, FetchedBy, FetchedFrom};

use crate::cert::Cert;
use crate::refusal::Refusal;
use crate::{file, record};

// Record n alone, of a file whose frame is in order and has this count.
#[tactic(auto, using(crate::proofs::RecordLaws::first_kept, crate::proofs::RecordLaws::first_cert), unfolding(crate::specs::View::number_cases, crate::specs::Answers::first_of, crate::specs::File::cert_at))]
fn record_below(file: &[u8], count: usize, n: usize) -> Result<Cert, Refusal>
    requires { (count ≤ certificates) × (header_bytes + record_bytes * count ≤ length file.now) }
    ensures { comes_back result ≡ first_of (number_cases file.now count n) (cert_at file.now n) }
{
    if count <= n {
        return Err(Refusal::NoSuch);
    }
    let record = record::record_at(file, n);
    if !record::record_ok(&record) {
        return Err(Refusal::Against(n));
    }
    Ok(Cert::from(&record))
}

// Record n alone, in constant time: its certificate; or 10 to 14 by the frame, 24 where the number is
// not below the count, 15 with this number where this one record is against the table. The other
// records are not looked at, so a certificate here does not say that the file is accepted: it is for
// callers that have checked the file, and then it gives every certificate below the count.
#[tactic(auto, using(crate::proofs::FileLaws::frame_accepted, crate::proofs::ViewLaws::alone_refused, crate::proofs::ViewLaws::alone_given, crate::proofs::ViewLaws::alone_ranges))]
pub fn record_alone(file: &[u8], n: usize) -> Result<Cert, Refusal>
    ensures { ReadAlone file.now n result }
{
    let count = file::frame_of(file)?;
    record_below(file, count, n)
}

// A small view of a file: the lent file, and what `check` found of it.
#[derive(Clone, Copy)]
pub struct View<'a> {
    file: &'a [u8],
    kept: Result<usize, Refusal>,
}

impl<'a> View<'a> {
    // The view of a lent file, which is checked here once.
    pub fn of(file: &'a [u8]) -> View<'a>
        ensures { ViewOf file.entry result }
    {
        View {
            file,
            kept: file::check(file),
        }
    }

    // What the view's check found: the count of an accepted file, or 10 to 15.
    pub fn count(self) -> Result<usize, Refusal>
        ensures { result ≡ self.entry.kept }
    {
        self.kept
    }

    // Certificate n of the file that the view holds, in constant time: 10 to 15 as its check found, then
    // 24 where the number is not below the count.
    pub fn fetch(self, n: usize) -> Result<Cert, Refusal>
        ensures { FetchedBy self.entry.kept self.entry.file.now n result }
    {
        self.kept?;
        record_alone(self.file, n)
    }
}

// The same for a caller that has the lent file itself: it is checked as a whole at each call.
pub fn fetch_in(file: &[u8], n: usize) -> Result<Cert, Refusal>
    ensures { FetchedFrom file.now n result }
{
    View::of(file).fetch(n)
}
