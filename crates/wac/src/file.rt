// The file's frame, and the check of a whole file.
ghost use Rattle.std.specs.Prelude.{◌≡◌, ◌+◌, ◌*◌, ◌<◌, ◌≤◌, length, unwrap_or, IfSome};
ghost use Rattle.wac.specs.Limits.{header_bytes, record_bytes, certificates};
ghost use Rattle.wac.specs.Answers.{first_of, comes_back};
ghost use Rattle.wac.specs.File.{is_wac, count_of, lowest_bad, frame_cases, file_cases};

use crate::limits::Table;
use crate::refusal::Refusal;
use crate::{bytes, record};

// Do the first three bytes say WAC?
#[tactic(auto, unfolding(crate::specs::File::is_wac))]
fn marked(file: &[u8]) -> bool
    requires { header_bytes ≤ length file.now }
    ensures { result ≡ is_wac file.now }
{
    file[0] == b'W' && file[1] == b'A' && file[2] == b'C'
}

// What the file's frame says, its header and its length: its count, or 10 to 14. The records are not
// looked at.
#[tactic(auto, unfolding(crate::specs::File::frame_cases, crate::specs::Answers::first_of))]
pub fn frame_of(file: &[u8]) -> Result<usize, Refusal>
    ensures { comes_back result ≡ first_of (frame_cases file.now) (count_of file.now) }
{
    if file.len() < Table::HEADER {
        return Err(Refusal::Short);
    }
    if !marked(file) {
        return Err(Refusal::NotWac);
    }
    if bytes::half_of(file[3], file[4]) != Table::VERSION {
        return Err(Refusal::Version);
    }
    let count = usize::from(file[5]);
    let size = Table::HEADER + Table::RECORD * count;
    if Table::CERTIFICATES < count {
        return Err(Refusal::TooMany);
    }
    if file.len() != size {
        return Err(Refusal::Length);
    }
    Ok(count)
}

// The lowest number of a record that is against the table, if there is one.
#[tactic(auto, using(crate::proofs::Tests::lowest_found, crate::proofs::Tests::lowest_none, crate::proofs::RecordLaws::first_kept), unfolding(crate::specs::File::lowest_bad))]
fn lowest_bad(file: &[u8], count: usize) -> Option<usize>
    requires { (count ≤ certificates) × (header_bytes + record_bytes * count ≤ length file.now) }
    ensures lowest { unwrap_or result count ≡ lowest_bad file.now count }
    ensures below { IfSome result (λ n. n < count) }
{
    for n in 0..count {
        if !record::record_ok(&record::record_at(file, n)) {
            return Some(n);
        }
    }
    None
}

// The check of a whole file: accepted with its count, or refused by 10 to 15, the lowest number
// first, 15 with the lowest record that is against the table.
#[tactic(auto, using(crate::proofs::FileLaws::frame_accepted, crate::proofs::FileLaws::file_refused, crate::proofs::FileLaws::file_against, crate::proofs::FileLaws::file_accepted))]
pub fn check(file: &[u8]) -> Result<usize, Refusal>
    ensures { comes_back result ≡ first_of (file_cases file.now) (count_of file.now) }
{
    let count = frame_of(file)?;
    match lowest_bad(file, count) {
        Some(bad) => Err(Refusal::Against(bad)),
        None => Ok(count),
    }
}
