ghost use Rattle.std.specs.Prelude.{◌≡◌, ◌+◌, ◌<◌, ◌≤◌, ◌^◌, ℕ, List, [], ◌∷◌, ◌++◌, length, IfSome, IfNone};
ghost use Rattle.crontab_text.specs.Lines.{lines_of};
ghost use Rattle.run_text.specs.Steps.{IsCut};

use crontab_text::first_line;

/// What is left to read of a run file, behind some lines of it.
#[derive(Clone, Copy, Debug)]
pub struct Reader<'a> {
    /// What is left.
    pub rest: &'a str,
    /// The number of the line that was read last, from 1.
    pub number: u32,
}

impl<'a> Reader<'a> {
    /// Reads the next line, or finds that it is missing: the reader then stands at its number.
    pub fn next_line(&mut self) -> Option<&'a str>
        requires { self.old.number + length self.old.rest.now + 1 < 2 ^ 32 }
        ensures number { self.new.number ≡ self.old.number + 1 }
        ensures line { IfSome result (λ line. lines_of self.old.rest.now ≡ line.now ∷ lines_of self.new.rest.now) }
        ensures missing { IfNone result (self.old.rest.now ≡ []) }
        ensures room { IfSome result (λ line. self.new.number + length self.new.rest.now + 1 < 2 ^ 32) }
        ensures shorter { IfSome result (λ line. length self.new.rest.now < length self.old.rest.now) }
    {
        self.number += 1;
        let (line, rest) = first_line(self.rest)?;
        self.rest = rest;
        Some(line)
    }
}

/// The text of that many lines, and what is behind them. None if there are fewer.
pub fn cut_lines(text: &str, count: u32) -> Option<(&str, &str)>
    ensures cut { IfSome result (λ parts. IsCut text.now count parts.0.now parts.1.now) }
    ensures none { IfNone result (length (lines_of text.now) < count) }
{
    let mut rest = text;
    'lines: for _ in 0..count {
        (_, rest) = first_line(rest)?;
    }
    let (front, _) = text.split_at(text.len() - rest.len());
    Some((front, rest))
}
