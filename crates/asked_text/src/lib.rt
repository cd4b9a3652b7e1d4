//! For tests: what a command answers over a text, and worked programs with their replies. What a command owns is owned and dropped here, once for all rows:
//! the prover goes over it at each way out of a function that owns it.
#![tactic(auto)]

mod asking;
mod faults;
mod worked;

pub use asking::{
    METHOD, Pieces, ROOM, SMALL, is_answered, is_reply, is_reply_to, reply_of, reply_text,
    status_of, whole_reply, words, words_of,
};
pub use faults::{Command, reads_that_fail, writes_that_fail};
pub use worked::{SHARED, WORKED};
