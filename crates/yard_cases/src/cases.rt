//! Cases: each line of the text is answered by a yard, and the answer is held against what the script expects.

use crate::escapes::unfold;
use crate::script::Entry;
use answers::Answer;
use anyhow::{Context, ensure};
use text::Yard;

/// What an answer says after the number of its line.
fn after_number(answer: &str) -> &str {
    answer.split_once('\t').map_or(answer, |(_, rest)| rest)
}

/// An answer without its line feed.
fn shown(answer: &Answer) -> &str {
    std::str::from_utf8(answer.as_bytes()).map_or("", |line| line.trim_end_matches('\n'))
}

/// An answer other than the expected, with a note for the yard that gave it.
#[derive(Drop)]
struct Difference {
    answer: Answer,
    note: &'static str,
}

/// The yards of a case: one is given every line, the other all but the refused ones, and so it counts fewer.
#[derive(Drop)]
struct Yards {
    whole: Yard,
    without_refused: Yard,
}

impl Yards {
    fn new() -> Yards {
        Yards {
            whole: Yard::new(),
            without_refused: Yard::new(),
        }
    }

    /// Both answer a line: the first answer that is not as expected, the line's number in the second yard aside.
    fn answer(&mut self, line: &[u8], expected: &str) -> Option<Difference> {
        let answer = self.whole.answer(line);
        if shown(&answer) != expected {
            return Some(Difference { answer, note: "" });
        }
        let expected = after_number(expected);
        if expected.starts_with("refused\t") {
            return None;
        }
        let answer = self.without_refused.answer(line);
        if after_number(shown(&answer)) != expected {
            let note = " (without the refused lines before it)";
            return Some(Difference { answer, note });
        }
        None
    }
}

/// A case that is being run.
#[derive(Clone, Copy)]
struct Case<'a> {
    title: &'a str,
    // a line that was read, and its answer not yet
    asked: Option<&'a str>,
    lines: u32,
    differs: bool,
}

impl<'a> Case<'a> {
    fn new(title: &'a str) -> Case<'a> {
        Case {
            title,
            asked: None,
            lines: 0,
            differs: false,
        }
    }

    /// Takes a line of the text, which is answered when the expected answer is read.
    fn ask(&mut self, line: &'a str) -> anyhow::Result<()> {
        ensure!(
            self.asked.is_none(),
            "the line of the text before it has no answer"
        );
        self.asked = Some(line);
        Ok(())
    }

    /// Has the yards answer the line that was read, and prints a difference. After a difference nothing more is run.
    fn hold(&mut self, rt: &HostRuntime, yards: &mut Yards, expected: &str) -> anyhow::Result<()> {
        let line = self
            .asked
            .take()
            .context("an answer with no line of the text before it")?;
        self.lines = self.lines.saturating_add(1);
        if self.differs {
            return Ok(());
        }
        let bytes = unfold(rt.alloc(), line)?;
        if let Some(Difference { answer, note }) = yards.answer(bytes.as_slice(), expected) {
            self.differs = true;
            println!(rt; "NOT  {}", self.title)?;
            println!(rt; "     line      {line}{note}")?;
            println!(rt; "     expected  {expected}")?;
            println!(rt; "     answered  {}", shown(&answer))?;
        }
        Ok(())
    }

    /// Whether each line has an answer, and there is a line.
    fn is_whole(&self) -> bool {
        self.asked.is_none() && self.lines > 0
    }
}

/// A script that is being run.
#[derive(Drop)]
pub struct Run<'a> {
    yards: Yards,
    case: Option<Case<'a>>,
    cases: u32,
    lines: u32,
    // whether a case was not as expected
    differ: bool,
}

impl<'a> Run<'a> {
    pub fn new() -> Run<'a> {
        Run {
            yards: Yards::new(),
            case: None,
            cases: 0,
            lines: 0,
            differ: false,
        }
    }

    /// Reads the next line of the script.
    pub fn read(&mut self, rt: &HostRuntime, line: &'a str) -> anyhow::Result<()> {
        match Entry::read(line) {
            Entry::Blank | Entry::Remark => {}
            Entry::Heading(heading) => {
                self.end_case(rt)?;
                println!(rt; "{heading}")?;
            }
            Entry::Case(title) => {
                self.end_case(rt)?;
                self.yards = Yards::new();
                self.case = Some(Case::new(title));
            }
            Entry::Expected(answer) => {
                let case = self
                    .case
                    .as_mut()
                    .context("an answer before the first case")?;
                case.hold(rt, &mut self.yards, answer)?;
            }
            Entry::Text(text) => {
                let case = self
                    .case
                    .as_mut()
                    .context("a line of the text before the first case")?;
                case.ask(text)?;
            }
        }
        Ok(())
    }

    /// Ends the case that is being run, if there is one, and prints `ok` where nothing differed.
    fn end_case(&mut self, rt: &HostRuntime) -> anyhow::Result<()> {
        let Some(case) = self.case.take() else {
            return Ok(());
        };
        ensure!(
            case.is_whole(),
            "the case before it has no line, or a line without an answer"
        );
        self.cases = self.cases.saturating_add(1);
        self.lines = self.lines.saturating_add(case.lines);
        if case.differs {
            self.differ = true;
        } else {
            println!(rt; "ok   {}", case.title)?;
        }
        Ok(())
    }

    /// Ends the script, and prints how it went.
    pub fn end(&mut self, rt: &HostRuntime) -> anyhow::Result<()> {
        self.end_case(rt)?;
        let Run { cases, lines, .. } = self;
        let verdict = if self.differ {
            "NOT all as expected"
        } else {
            "all as expected"
        };
        println!(rt; "{cases} cases, {lines} lines: {verdict}")?;
        Ok(())
    }
}
