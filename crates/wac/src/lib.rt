// The certificate file of document 01: its limits, its reader, its appending writer.
//
// Any bytes and any numbers may be passed. What is refused is refused by its number, and a refused
// call leaves everything lent as it was.
#![tactic(auto)]

mod bytes;
mod cert;
mod file;
mod limits;
mod record;
mod refusal;
mod view;
mod writer;

pub use bytes::{word_bytes, word_of};
pub use cert::{Cert, Ids};
pub use file::check;
pub use limits::{Table, table_limits};
pub use refusal::{Refusal, number_of, record_of};
pub use view::{View, fetch_in, record_alone};
pub use writer::append;
