// The appending writer.
ghost use Rattle.std.specs.Prelude.{◌≡◌, ◌+◌, ◌*◌, ◌-◌, ◌≤◌, length};
ghost use Rattle.wac.specs.Limits.{record_bytes};
ghost use Rattle.wac.specs.Ranges.{record_ok};
ghost use Rattle.wac.specs.Record.{bytes_of};
ghost use Rattle.wac.specs.Answers.{first_of, comes_back};
ghost use Rattle.wac.specs.Writer.{cert_cases, append_cases, AppendedTo};

use crate::cert::Cert;
use crate::limits::Table;
use crate::refusal::Refusal;
use crate::{cert, file, record};

// Does the certificate keep to the table?
fn cert_ok(cert: Cert) -> bool
    ensures { result ≡ record_ok (bytes_of cert) }
{
    record::record_ok(&<[u8; Table::RECORD]>::from(cert))
}

// The answer where the used part is a file with this count: full, the new certificate, room.
#[tactic(auto, unfolding(crate::specs::Writer::cert_cases, crate::specs::Answers::first_of))]
fn answer_for(length: usize, used: usize, count: usize, cert: Cert) -> Result<usize, Refusal>
    requires { used ≤ length }
    ensures { comes_back result ≡ first_of (cert_cases length used count cert) (used + record_bytes) }
{
    if count == Table::CERTIFICATES {
        return Err(Refusal::TooMany);
    }
    if !cert_ok(cert) {
        return Err(Refusal::Against(count));
    }
    if length - used < Table::RECORD {
        return Err(Refusal::Room);
    }
    Ok(used + Table::RECORD)
}

// The answer, before anything is written.
#[tactic(auto, using(crate::proofs::WriterLaws::append_past, crate::proofs::WriterLaws::append_refused, crate::proofs::WriterLaws::append_given))]
fn answer(buffer: &[u8], used: usize, cert: Cert) -> Result<usize, Refusal>
    ensures { comes_back result ≡ first_of (append_cases buffer.now used cert) (used + record_bytes) }
{
    let length = buffer.len();
    if length < used {
        return Err(Refusal::Room);
    }
    let count = file::check(&buffer[..used])?;
    answer_for(length, used, count, cert)
}

// Appends a certificate to the file in the buffer's first `used` bytes (the length stands beside the
// buffer, as C lends both to `wac_append`): raises byte 5 by 1, writes
// the next 18 bytes and no others, and answers the new used length; or 16 where the used length is
// past the buffer, 10 to 15 of the used part, 13 where it is full, 15 with the count where the new
// certificate is against the table, 16 where under 18 bytes are left.
pub fn append(buffer: &mut [u8], used: usize, cert: Cert) -> Result<usize, Refusal>
    ensures { AppendedTo buffer.old used cert result buffer.new }
{
    let next = answer(buffer, used, cert)?;
    buffer[5] += 1;
    cert::write_at(buffer, used, cert.into());
    Ok(next)
}
