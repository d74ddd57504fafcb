//! A line and its answer.
ghost use Rattle.std.specs.Prelude.{◌≡◌, nat_le};
ghost use Rattle.text.specs.Answering.{Answered, Comes, Counts, TakesLine, last_line};
ghost use Rattle.text.specs.Yards.{new_yard};
ghost use Rattle.answers.specs.Answers.{shown};

use crate::yards::Yard;
use answers::{Answer, Fault, Refusal, Reply};
use lines::{Verb, read_verb};

/// How many lines of a text are answered.
const LAST_LINE: u32 = 1_000_000;

impl Yard {
    /// A yard in which nothing stands, before the first line.
    pub fn new() -> Yard
        ensures { result ≡ new_yard }
    {
        Yard {
            lines: 0,
            draft: None,
            table: None,
            running: None,
        }
    }

    /// Whether the run is over: its last line was answered.
    pub fn is_over(&self) -> bool
        ensures { result ≡ nat_le last_line self.now.lines }
    {
        self.lines >= LAST_LINE
    }

    /// Does what a line says.
    fn obey(&mut self, line: &[u8]) -> Result<Reply, Fault>
        ensures { Comes self.old line.now result self.new }
    {
        if line.len() > 256 {
            return Err(Fault::TooLong);
        }
        let (verb, rest) = read_verb(line)?;
        match verb {
            Verb::Controllers => self.begin(rest),
            Verb::Set => self.add(rest),
            Verb::Seal => self.seal(rest),
            Verb::Plans => self.open_plans(rest),
            Verb::Board => self.open_board(rest),
            Verb::Offer => self.offer(rest),
            Verb::Hear => self.hear(rest),
        }
    }

    /// Counts the next line and does what it says: its number, and what came of it. Nothing after 1,000,000 lines.
    fn count_and_obey(&mut self, line: &[u8]) -> Option<(u32, Result<Reply, Fault>)>
        ensures { Counts self.old line.now result self.new }
    {
        if self.is_over() {
            return None;
        }
        self.lines += 1;
        let number = self.lines;
        Some((number, self.obey(line)))
    }

    /// Does what the next line says. A refused line is told with its number, and with the fault of its form or of the layer below,
    /// whole. After 1,000,000 lines nothing is done, and nothing is told.
    pub fn take_line(&mut self, line: &[u8]) -> Option<Result<Reply, Refusal>>
        ensures { TakesLine self.old line.now result self.new }
    {
        let (line, came) = self.count_and_obey(line)?;
        Some(came.map_err(|fault| Refusal { line, fault }))
    }

    /// Does what the next line says, and answers it in at most 64 bytes. After 1,000,000 lines nothing is done, and the answer has no
    /// bytes.
    pub fn answer(&mut self, line: &[u8]) -> Answer
        ensures { Answered self.old line.now (shown result) self.new }
    {
        match self.count_and_obey(line) {
            Some((number, came)) => Answer::to_line(number, &came),
            None => Answer::none(),
        }
    }
}
