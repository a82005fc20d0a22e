// The proved code for programs in C and in Rust: functions on numbers and slices, each of which
// passes what it is given to one public function of the crates below.
//
// An answer is one number: a refusal's number times 65,536 and the value that comes with it. The
// number is 0 where the call is not refused. The decision's verdicts are wider: see `questions`.
//
// C calls these functions through `boundary_c`: so requests and certificates come as single numbers, an
// answer is a number and no Result, and each function has a name of its own in boundary.h.
#![tactic(auto)]

mod questions;

ghost use Rattle.std.specs.Prelude.{◌≡◌, ◌++◌, ◌≤◌, length, drop};
ghost use Rattle.wac.specs.Answers.{first_of, number_of, record_of, comes_back};
ghost use Rattle.wac.specs.File.{file_cases, count_of};
ghost use Rattle.boundary.specs.Coded.{code, coded, cert_of, fields, fields_of, FetchCoded, AppendCoded};

pub use questions::{decision_ask, decision_may, decision_settle, decision_short, decision_stock};
use wac::{Cert, Ids, Refusal, View};

// How many fields a certificate has.
const FIELDS: usize = 12;

// A number and the value that comes with it, as one number.
fn code_of(number: u8, value: usize) -> u32
    ensures { result ≡ code number value }
{
    // No From leads from usize to u32.
    u32::from(number) * 65536 + (value % 65536) as u32
}

// A refusal as one number.
fn refusal_code(why: Refusal) -> u32
    ensures { result ≡ code (number_of why) (record_of why) }
{
    code_of(wac::number_of(why), wac::record_of(why))
}

// A number or a refusal as one number.
fn coded(answer: Result<usize, Refusal>) -> u32
    ensures { result ≡ coded (comes_back answer) }
{
    match answer {
        Ok(value) => code_of(0, value),
        Err(why) => refusal_code(why),
    }
}

// `wac::check`: the count, or 10 to 15.
pub fn wac_check(file: &[u8]) -> u32
    ensures { result ≡ coded (first_of (file_cases file.now) (count_of file.now)) }
{
    coded(wac::check(file))
}

// What a view of the file counts, which is what its check finds: the count, or 10 to 15. A name of its own
// in boundary.h.
pub fn wac_count(file: &[u8]) -> u32
    ensures { result ≡ coded (first_of (file_cases file.now) (count_of file.now)) }
{
    wac_check(file)
}

// A certificate's fields, in order.
fn fields_of(cert: Cert) -> [u32; FIELDS]
    ensures { result ≡ fields_of cert }
{
    [
        u32::from(cert.kind),
        u32::from(cert.issuer),
        u32::from(cert.left),
        u32::from(cert.subject),
        u32::from(cert.count),
        u32::from(cert.ids.0),
        u32::from(cert.ids.1),
        u32::from(cert.ids.2),
        u32::from(cert.mark),
        u32::from(cert.rights),
        cert.not_before,
        cert.not_after,
    ]
}

// Writes a certificate's fields to the first 12 lent places, and no others.
fn fill(lent: &mut [u32], cert: Cert)
    requires { fields ≤ length lent.old }
    ensures { lent.new ≡ fields_of cert ++ drop fields lent.old }
{
    lent[..FIELDS].copy_from_slice(&fields_of(cert));
}

// Certificate n by a view of the file, its fields in the first 12 lent places; or 10 to 15 as `wac_check`,
// 23 where under 12 places are lent, 24. A refused call writes nothing.
pub fn wac_fetch(file: &[u8], n: usize, lent: &mut [u32]) -> u32
    ensures { FetchCoded file.now n lent.old result lent.new }
{
    let view = View::of(file);
    if let Err(why) = view.count() {
        return refusal_code(why);
    }
    if lent.len() < FIELDS {
        return code_of(23, 0);
    }
    match view.fetch(n) {
        Ok(cert) => {
            fill(lent, cert);
            code_of(0, 0)
        }
        Err(why) => refusal_code(why),
    }
}

// `wac::append`: the new used length, or 16, 10 to 15, 13, 15, 16. A refused call writes nothing.
pub fn wac_append(
    buffer: &mut [u8],
    used: usize,
    kind: u8,
    issuer: u8,
    left: u8,
    subject: u8,
    count: u8,
    first: u8,
    second: u8,
    third: u8,
    mark: u8,
    rights: u8,
    not_before: u32,
    not_after: u32,
) -> u32
    ensures { AppendCoded buffer.old used (cert_of kind issuer left subject count first second third mark rights not_before not_after) result buffer.new }
{
    let cert = Cert {
        kind,
        issuer,
        left,
        subject,
        count,
        ids: Ids(first, second, third),
        mark,
        rights,
        not_before,
        not_after,
    };
    coded(wac::append(buffer, used, cert))
}
