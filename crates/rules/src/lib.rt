//! Round rules of any kind at all, and which drafts a rule can serve: definitions and theorems, and no code.

#![tactic(auto)]
