//! The three rounds of a phase and the slot made of them, on the codes of values: definitions and theorems, and no code.
//!
//! `specs/Rows.antt` says who says what in a row, `specs/Rounds.antt` what poll, confirm and lead make of one,
//! `specs/Slots.antt` how a slot goes from round to round, and `specs/Agreement.antt` what a slot promises.

#![tactic(auto)]
