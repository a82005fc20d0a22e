// The decision: one question over a certificate file, from the bytes to the verdict.
//
// Any bytes and any numbers may be passed. What is refused is refused by its number, and a refused
// call leaves every lent place as it was.
#![tactic(auto)]

mod entries;
mod inquiry;
mod lens;
mod passing;
mod question;
mod reading;
mod request;
mod row;
mod writing;

pub use entries::{Entry, entry_number};
pub use question::{
    Refused, Verdict, admit, ask, ask_short, may, refusal_number, refusal_record, settle, stock,
};
pub use request::Request;
