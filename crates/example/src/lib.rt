//! A yard with a liar: the premises of the promise can be met.

#![tactic(auto)]

ghost use Rattle.example.specs.Liar.{LiarYard};

/// Four controllers of which one tells each other something else, and three that hear each other truly through a whole slot.
pub fn liar_yard()
    ensures { LiarYard }
{}
