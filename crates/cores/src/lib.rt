//! Survivor sets and their cores: definitions and theorems, and no code.
//!
//! A survivor set is a group of controllers that stays reliable when all others fail together. A core is a least group that has a
//! controller in every survivor set, so that one of its controllers is always reliable.
//!
//! `specs/Sharing.antt` says when a list of survivor sets can be sealed, in two wordings.
//! `specs/Leads.antt` says which core leads, and what a sealed table means as a structure.

#![tactic(auto)]
