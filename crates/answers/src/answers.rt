//! The text of an answer. What its methods write is said by `specs/`, which names this type and so cannot be cited here: they
//! stand in `writes`.

use arrayvec::ArrayString;

/// The line of an answer: at most 64 bytes, given by value. Clauses call its bytes `shown`, since a text also has room that is not used.
#[derive(Clone, Copy)]
pub struct Answer {
    pub(crate) text: ArrayString<64>,
}
