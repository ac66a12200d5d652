//! The lines of a journal's text, one after another.
ghost use Rattle.std.specs.Prelude.{◌+◌, ◌<◌, ◌^◌, IfSome, IfNone, length};
ghost use Rattle.run_audit.specs.Reading.{IsLineFirst, ReadsNext};
ghost use Rattle.run_audit.specs.Verdict.{LacksNewline};

use journal_line::{JournalLine, read_line};

/// What comes next in a text.
#[derive(Clone, Copy, Debug, PartialEq, Eq)]
pub enum Next<'a> {
    /// A line that has a form.
    Line(JournalLine<'a>),
    /// A line that has none, or no newline.
    Bad,
    /// Nothing more.
    End,
}

/// The rest of a text, and the number of its first line, from 1.
#[derive(Clone, Copy, Debug)]
pub struct Rest<'a> {
    pub text: &'a str,
    pub number: u32,
}

// The first line of a text, and what stands behind it.
fn cut_line(text: &str) -> Option<(&str, &str)>
    ensures cut { IfSome result (λ parts. IsLineFirst text.now parts.0.now parts.1.now) }
    ensures none { IfNone result (LacksNewline text.now) }
{
    text.split_once('\n')
}

impl<'a> Rest<'a> {
    /// Reads the next line. The rest begins behind it then, where it has a form.
    pub fn read(&mut self) -> Next<'a>
        requires { self.old.number + length self.old.text.now < 2 ^ 32 }
        ensures reads { ReadsNext self.old self.new result }
        ensures few { self.new.number + length self.new.text.now < 2 ^ 32 }
    {
        if self.text.is_empty() {
            return Next::End;
        }
        match cut_line(self.text) {
            None => Next::Bad,
            Some(parts) => match read_line(parts.0) {
                Some(read) => {
                    self.text = parts.1;
                    self.number += 1;
                    Next::Line(read)
                }
                None => Next::Bad,
            },
        }
    }
}
