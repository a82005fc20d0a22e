// What is asked, and which certificates are usable for it.
ghost use Rattle.std.specs.Prelude.{◌≡◌};
ghost use Rattle.decision.specs.Usable.{includes, in_force, usable};

use wac::{Cert, Table};

// What is asked: may the asker use these rights of the owner's at this minute?
#[derive(Clone, Copy)]
pub struct Request {
    pub owner: u8,
    pub asker: u8,
    pub rights: u8,
    pub at: u32,
}

// Are all of the rights asked among those held? `includes` reads the four rights alone, where
// `held & asked == asked` would read all eight bits.
#[tactic(auto, unfolding(crate::specs::Usable::includes))]
fn all_held(held: u8, asked: u8) -> bool
    ensures { result ≡ includes held asked }
{
    asked % 2 <= held % 2
        && asked / 2 % 2 <= held / 2 % 2
        && asked / 4 % 2 <= held / 4 % 2
        && asked / 8 % 2 <= held / 8 % 2
}

// Has the certificate begun, and not ended, at this minute?
#[tactic(auto, unfolding(crate::specs::Usable::in_force))]
fn in_force(cert: Cert, at: u32) -> bool
    ensures { result ≡ in_force at cert }
{
    cert.not_before <= at && at <= cert.not_after
}

impl Request {
    // Is the certificate usable? A name certificate needs only the dates.
    #[tactic(auto, unfolding(crate::specs::Usable::usable))]
    pub(crate) fn is_usable(self, cert: Cert) -> bool
        ensures { result ≡ usable self cert }
    {
        let rights = if usize::from(cert.kind) == Table::AUTHORIZATION {
            all_held(cert.rights, self.rights)
        } else {
            true
        };
        in_force(cert, self.at) && rights
    }
}
