//! The program `yard`: reads the lines of a yard text from standard input, and writes an answer to each on standard output.
//!
//! It reads and writes in blocks. All answers to a block are written before the next block is read, so that a host that waits for
//! an answer gets it.

#![tactic(auto)]

mod blocks;

use blocks::{Answers, BLOCK, Line};
use std::io;
use std::io::{Read, Write};
use text::Yard;

/// A text that is being answered: its yard, the line that is being read, and the answers that wait to be written.
#[derive(Drop)]
struct Session<'a, W> {
    yard: Yard,
    line: Line,
    answers: Answers,
    output: &'a mut W,
}

impl<'a, W: Write> Session<'a, W> {
    fn new(output: &'a mut W) -> Session<'a, W> {
        Session {
            yard: Yard::new(),
            line: Line::new(),
            answers: Answers::new(),
            output,
        }
    }

    /// Reads a block of the text, and answers the lines that end in it.
    fn read(&mut self, block: &[u8]) -> io::Result<()> {
        for byte in block {
            if *byte == b'\n' {
                self.answer()?;
            } else {
                self.line.keep(*byte);
            }
        }
        self.write_out()
    }

    /// Ends the text, whose last line may lack its line feed.
    fn end(&mut self) -> io::Result<()> {
        if self.line.has_begun() {
            self.answer()?;
        }
        self.write_out()
    }

    /// Answers the line that has been read, and begins the next one. Answers that leave no room are written first.
    fn answer(&mut self) -> io::Result<()> {
        let answer = self.yard.answer(self.line.bytes());
        self.line.clear();
        if !self.answers.has_room_for_answer() {
            self.write_out()?;
        }
        self.answers.add_answer(answer.as_bytes());
        Ok(())
    }

    /// Writes the answers that wait.
    fn write_out(&mut self) -> io::Result<()> {
        self.output.write_all(self.answers.bytes())?;
        self.answers.clear();
        Ok(())
    }
}

/// Answers the lines of the input, until it ends or the run is over.
fn run(input: &mut impl Read, output: &mut impl Write) -> io::Result<()> {
    let mut block = [0u8; BLOCK];
    let mut session = Session::new(output);
    // a bound that no input comes to: a loop that waits for input has no measure of its own
    for _ in 0..u64::MAX {
        let got = input.read(&mut block)?;
        if got == 0 {
            break;
        }
        session.read(&block[..got])?;
        if session.yard.is_over() {
            break;
        }
    }
    session.end()
}

fn main(rt: HostRuntime) -> io::Result<()> {
    let ended = run(&mut rt.stdin(), &mut rt.stdout());
    if ended.is_err() {
        rt.eprintln("yard: the input cannot be read, or the answers cannot be written")?;
    }
    ended
}
