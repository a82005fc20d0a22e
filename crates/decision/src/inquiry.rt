// What the engine's functions are asked.
ghost use Rattle.std.specs.Prelude.{◌≡◌, ◌<◌};
ghost use Rattle.wac.specs.Bytes.{AreBytes};
ghost use Rattle.wac.specs.Record.{Lawful};
ghost use Rattle.wac.specs.File.{count_of, cert_at};
ghost use Rattle.decision.specs.Question.{Ready};

use crate::request::Request;
use wac::Cert;

// An accepted file, its count, and a request whose owner and asker are keys and whose minute is not 0.
#[derive(Clone, Copy)]
pub struct Inquiry<'a> {
    pub file: &'a [u8],
    pub count: usize,
    pub request: Request,
    ghost bytes: { AreBytes file.now },
    ghost ready: { Ready file.now request count },
}

impl<'a> Inquiry<'a> {
    // Certificate i of the file.
    pub fn cert(&self, i: usize) -> Cert
        requires { i < count_of self.now.file.now }
        ensures same { result ≡ cert_at self.now.file.now i }
        ensures lawful { Lawful result }
    {
        match wac::record_alone(self.file, i) {
            Ok(cert) => cert,
            Err(_) => unreachable!(),
        }
    }
}
