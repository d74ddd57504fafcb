//! How an answer is written. A private call that adds a text adds it if there is room for all of it.
ghost use Rattle.std.specs.Prelude.{◌≡◌, ◌≤◌, [], ◌∷◌, ◌++◌, length};
ghost use Rattle.fields.specs.Numbers.{numeral};
ghost use Rattle.survivor.specs.Seals.{meaning_of};
ghost use Rattle.answers.specs.Answers.{shown, Adds, after_tab, leads_text, value_text, reply_text, fault_text, came_text, rendered};

use crate::answers::Answer;
use crate::faults::Fault;
use crate::replies::{Agreed, Reply};
use arrayvec::ArrayString;
use duty::Outcome;
use itoa::Buffer;
use survivor::Table;

impl Answer {
    /// No bytes.
    pub fn none() -> Answer
        ensures { shown result ≡ [] }
    {
        Answer {
            text: ArrayString::new(),
        }
    }

    /// The bytes that it has.
    pub fn as_bytes(&self) -> &[u8]
        ensures bytes { result.now ≡ shown self.now }
        ensures few { length result.now ≤ 64 }
    {
        self.text.as_str().as_bytes()
    }

    /// Adds a text.
    fn push(&mut self, more: &str)
        ensures { Adds (shown self.old) more.now (shown self.new) }
    {
        let _ = self.text.try_push_str(more);
    }

    /// Adds a number's numeral.
    fn push_number(&mut self, n: usize)
        ensures { Adds (shown self.old) (numeral n) (shown self.new) }
    {
        self.push(Buffer::new().format(n));
    }

    /// Adds a tab and a number's numeral.
    fn push_after_tab(&mut self, n: usize)
        ensures { Adds (shown self.old) (after_tab n) (shown self.new) }
    {
        self.push("\t");
        self.push_number(n);
    }

    /// Adds each lead of a table after a tab.
    fn push_leads(&mut self, table: &Table)
        ensures { Adds (shown self.old) (leads_text (meaning_of table.now).leads) (shown self.new) }
    {
        for lead in table.leads() {
            self.push_after_tab(usize::from(*lead));
        }
    }

    /// Adds the text of an agreed value.
    fn push_value(&mut self, value: &Agreed)
        ensures after { Adds (shown self.old) (value_text value.now) (shown self.new) }
        ensures short { length (value_text value.now) ≤ 21 }
    {
        match value {
            Agreed::Plan(plan) => self.push_number(plan.0 as usize),
            Agreed::Grant(grant) => {
                self.push_number(grant.bay as usize);
                self.push("/");
                self.push_number(grant.amps as usize);
            }
        }
    }

    /// Adds the words of a reply.
    fn push_reply(&mut self, reply: &Reply)
        ensures after { Adds (shown self.old) (reply_text reply.now) (shown self.new) }
        ensures short { length (reply_text reply.now) ≤ 44 }
    {
        match reply {
            Reply::Done => self.push("ok"),
            Reply::Sealed(table) => {
                self.push("sealed");
                self.push_leads(table);
            }
            Reply::Round(round) => {
                self.push("round");
                self.push_after_tab(usize::from(*round));
            }
            Reply::Closed(value, outcome) => {
                self.push("closed\t");
                self.push_value(value);
                match outcome {
                    Outcome::Taken => self.push("\ttaken"),
                    Outcome::Aside(_) => self.push("\taside"),
                }
            }
        }
    }

    /// Adds the words of a fault.
    fn push_fault(&mut self, fault: Fault)
        ensures after { Adds (shown self.old) (fault_text fault) (shown self.new) }
        ensures short { length (fault_text fault) ≤ 44 }
    {
        self.push("refused");
        self.push_after_tab(usize::from(fault.number()));
        self.push_after_tab(fault.detail());
    }

    /// Adds the words of what came of a line.
    fn push_came(&mut self, came: &Result<Reply, Fault>)
        ensures after { Adds (shown self.old) (came_text came.now) (shown self.new) }
        ensures short { length (came_text came.now) ≤ 44 }
    {
        match came {
            Ok(reply) => self.push_reply(reply),
            Err(fault) => self.push_fault(*fault),
        }
    }

    /// The answer to a line: its number, what came of it, and a line feed.
    pub fn to_line(line: u32, came: &Result<Reply, Fault>) -> Answer
        ensures { shown result ≡ rendered line came.now }
    {
        let mut answer = Answer::none();
        answer.push_number(line as usize);
        answer.push("\t");
        answer.push_came(came);
        answer.push("\n");
        answer
    }
}
