//! The lines that make a draft and seal it.
ghost use Rattle.text.specs.Drafting.{Begins, Adds, Seals};

use crate::yards::Yard;
use answers::{Fault, Reply};
use fields::Fields;
use lines::{read_controllers, read_seal, read_set};
use survivor::{Draft, DraftRefusal, Table};

impl Yard {
    /// `controllers`: begins anew, with a draft and nothing else.
    pub(crate) fn begin(&mut self, rest: Fields<'_>) -> Result<Reply, Fault>
        ensures { Begins self.old rest.entry result self.new }
    {
        let n = read_controllers(rest)?;
        let draft = Draft::new(n)?;
        self.draft = Some(draft);
        self.table = None;
        self.running = None;
        Ok(Reply::Done)
    }

    /// `set`: takes a set into the draft.
    pub(crate) fn add(&mut self, rest: Fields<'_>) -> Result<Reply, Fault>
        ensures { Adds self.old rest.entry result self.new }
    {
        let draft = self.draft.as_mut().ok_or(Fault::Absent)?;
        let set = read_set(rest)?.ok_or(DraftRefusal::EmptyOrOutside)?;
        draft.add(set)?;
        Ok(Reply::Done)
    }

    /// `seal`: seals the draft into the yard's table.
    pub(crate) fn seal(&mut self, rest: Fields<'_>) -> Result<Reply, Fault>
        ensures { Seals self.old rest.entry result self.new }
    {
        let draft = self.draft.ok_or(Fault::Absent)?;
        read_seal(rest)?;
        let mut table = Table::new();
        draft.seal(&mut table)?;
        self.table = Some(table);
        Ok(Reply::Sealed(table))
    }
}
