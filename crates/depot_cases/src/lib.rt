//! Worked cases of the board and the plan book.

#![tactic(auto)]

#[cfg(test)]
mod boards;
#[cfg(test)]
mod books;
