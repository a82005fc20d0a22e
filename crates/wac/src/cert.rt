// A certificate by value, read from the 18 bytes of a record and written to them.
ghost use Rattle.std.specs.Prelude.{◌≡◌, ◌+◌, ◌≤◌, length};
ghost use Rattle.std.proofs.Math.Seq.{paste};
ghost use Rattle.wac.specs.Limits.{record_bytes};
ghost use Rattle.wac.specs.Record.{word_at, cert_from, bytes_of};

use crate::bytes::{word_bytes, word_of};
use crate::limits::Table;

// The three identifier bytes of a subject. A tuple and no array: the theorems speak of every `Cert`
// (`read_back`), and in them an array may be a list of any length.
#[derive(Clone, Copy)]
pub struct Ids(pub u8, pub u8, pub u8);

// A certificate, as a record's bytes hold it. Its kind, symbols and marks are bytes and no enums, and its
// count stands beside its ids: any bytes can stand there (`cert_from`), and what is against the table is
// refused by `check` and `append`.
#[derive(Clone, Copy)]
pub struct Cert {
    pub kind: u8,
    pub issuer: u8,
    pub left: u8,
    pub subject: u8,
    pub count: u8,
    pub ids: Ids,
    pub mark: u8,
    pub rights: u8,
    pub not_before: u32,
    pub not_after: u32,
}

// The four bytes from `at` on as one number.
fn word_at(bytes: &[u8; Table::RECORD], at: usize) -> u32
    requires { at + 4 ≤ record_bytes }
    ensures { result ≡ word_at bytes.now at }
{
    word_of(bytes[at], bytes[at + 1], bytes[at + 2], bytes[at + 3])
}

// The certificate that a record holds.
impl From<&[u8; Table::RECORD]> for Cert {
    ghost from_gives = { λ bytes cert. cert ≡ cert_from bytes.now };

    #[tactic(auto, unfolding(crate::specs::Record::cert_from))]
    fn from(bytes: &[u8; Table::RECORD]) -> Cert {
        Cert {
            kind: bytes[0],
            issuer: bytes[1],
            left: bytes[2],
            subject: bytes[3],
            count: bytes[4],
            ids: Ids(bytes[5], bytes[6], bytes[7]),
            mark: bytes[8],
            rights: bytes[9],
            not_before: word_at(bytes, 10),
            not_after: word_at(bytes, 14),
        }
    }
}

// The 18 bytes of a certificate.
impl From<Cert> for [u8; Table::RECORD] {
    ghost from_gives = { λ cert bytes. bytes ≡ bytes_of cert };

    #[tactic(auto, unfolding(crate::specs::Record::bytes_of))]
    fn from(cert: Cert) -> [u8; Table::RECORD] {
        let [b0, b1, b2, b3] = word_bytes(cert.not_before);
        let [e0, e1, e2, e3] = word_bytes(cert.not_after);
        [
            cert.kind,
            cert.issuer,
            cert.left,
            cert.subject,
            cert.count,
            cert.ids.0,
            cert.ids.1,
            cert.ids.2,
            cert.mark,
            cert.rights,
            b0,
            b1,
            b2,
            b3,
            e0,
            e1,
            e2,
            e3,
        ]
    }
}

// Writes the 18 bytes of a record at `at`, and no others.
pub fn write_at(buffer: &mut [u8], at: usize, bytes: [u8; Table::RECORD])
    requires { at + record_bytes ≤ length buffer.old }
    ensures { buffer.new ≡ paste buffer.old at bytes record_bytes }
{
    buffer[at..at + Table::RECORD].copy_from_slice(&bytes);
}
