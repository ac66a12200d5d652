ghost use Rattle.std.specs.Prelude.{◌≡◌, ◌↔◌, ◌<◌, ◌^◌, ◌≤◌, ◌+◌, ◌-◌, ◌∷◌, ◌++◌, [], ℕ, List, length, IsNone, IfSome, IfNone, IfOk, IfErr, Ok, Err};
ghost use Rattle.std.specs.Result.{ForErr};
ghost use Rattle.crontab_text.specs.Answers.{IsLineOf};
ghost use Rattle.crontab_text.specs.LineBody.{body_of};
ghost use Rattle.crontab_text.specs.Lines.{BeginsWithLine, lines_of};
ghost use Rattle.crontab_text.specs.LineBreak.{IsLineBreak};
ghost use Rattle.crontab_text.specs.Reader.{ReadsLine};
ghost use Rattle.crontab_text.specs.TableReader.{rest_of, table_reader};

use crate::answer::{Body, Line, LineFault, Span, Style};
use crate::assignment::read_assignment;
use crate::blank::skip_blanks;
use crate::entry::read_entry;
use crate::fault::Fault;
use crate::nickname::read_nick;
use std::marker::Model;

/// The lines of a crontab that are left, in order.
#[derive(Debug, Drop)]
pub struct Lines<'a> {
    text: &'a str,
    rest: &'a str,
    style: Style,
    owner: &'a str,
    passed: u32,
}

impl<'a> Model for Lines<'a> {
    ghost use Rattle.std.specs.Prelude.{◌≡◌, ◌+◌, ◌-◌, ◌^◌, ◌<◌, ◌≤◌, drop, length};
    ghost use Rattle.crontab_text.specs.TableReader.{TableReader};

    ghost Value = { TableReader };

    ghost view = { λ lines. record {
      text = lines.text.now;
      style = lines.style;
      owner = lines.owner.now;
      place = length lines.text.now - length lines.rest.now;
      passed = lines.passed;
    } };

    ghost invariant = { λ lines. (length lines.text.now < 2 ^ 32)
        × (lines.passed + length lines.rest.now ≤ length lines.text.now)
        × (drop (length lines.text.now - length lines.rest.now) lines.text.now ≡ lines.rest.now) };
}

impl<'a> Lines<'a> {
    /// The lines of a table. The owner is what the hashed fields of a user's table are picked by, beside the commands.
    pub fn new(text: &'a str, style: Style, owner: &'a str) -> Lines<'a>
        requires { length text.now < 2 ^ 32 }
        ensures { result ≡ table_reader text.now style owner.now }
    {
        Lines {
            text,
            rest: text,
            style,
            owner,
            passed: 0,
        }
    }

    /// What is left of the text.
    pub fn rest(&self) -> &'a str
        ensures { result.now ≡ rest_of self.now }
    {
        self.rest
    }

    /// Reads the next line; `None` at the end of the text.
    ///
    /// # Errors
    ///
    /// A line that says nothing. The next call goes on with the line behind it.
    pub fn next(&mut self) -> Option<Result<Line<'a>, LineFault>>
        ensures end { IsNone result ↔ (rest_of self.old ≡ []) }
        ensures none { IfNone result (self.new ≡ self.old) }
        ensures line { IfSome result (ReadsLine self.old self.new) }
        ensures rises { IfSome result (λ _. self.old.place < self.new.place) }
    {
        let (line, rest) = first_line(self.rest)?;
        let from = (self.text.len() - self.rest.len()) as u32;
        self.rest = rest;
        self.passed += 1;
        Some(numbered(
            self.passed,
            from,
            line,
            read_line(self.style, self.owner, line),
        ))
    }
}

/// The first line of a text, without its newline, and what is behind it; `None` at the end of the text.
pub fn first_line(text: &str) -> Option<(&str, &str)>
    ensures none { IsNone result ↔ (text.now ≡ []) }
    ensures line { IfSome result (λ parts. BeginsWithLine text.now parts.0.now parts.1.now) }
    ensures lines { IfSome result (λ parts. lines_of text.now ≡ parts.0.now ∷ lines_of parts.1.now) }
    ensures shorter { IfSome result (λ parts. length parts.1.now < length text.now) }
    ensures within { IfSome result (λ parts. length parts.0.now + length parts.1.now ≤ length text.now) }
    ensures back { IfSome result (λ parts. (front : List ℕ) × (text.now ≡ front ++ parts.1.now)) }
{
    match text.split_once('\n') {
        Some(parts) => Some(parts),
        None if text.is_empty() => None,
        None => Some((text, "")),
    }
}

// What a line says.
fn read_line<'a>(style: Style, owner: &'a str, line: &'a str) -> Result<Body<'a>, Fault>
    requires { length line.now < 2 ^ 32 }
    ensures read { IfOk result (λ body. IsLineOf style owner.now line.now (body_of body)) }
    ensures fault { IfErr result (λ fault. IsLineBreak style line.now fault.cause fault.left) }
{
    let text = skip_blanks(line);
    match text.as_bytes().first() {
        None => Ok(Body::Blank),
        Some(b'#') => Ok(Body::Comment),
        Some(b'@') => read_nick(style, text),
        Some(_) => match read_assignment(text) {
            Some((name, value)) => Ok(Body::Assign { name, value }),
            None => read_entry(style, owner, text),
        },
    }
}

// The answer to a line, with its number and its place.
fn numbered<'a>(
    number: u32,
    from: u32,
    line: &'a str,
    answer: Result<Body<'a>, Fault>,
) -> Result<Line<'a>, LineFault>
    requires fits { from + length line.now < 2 ^ 32 }
    requires within { ForErr answer (λ fault. fault.left ≤ length line.now) }
    ensures read { IfOk answer.entry (λ body. result ≡ Ok (record {
      number = number;
      span = record { from = from; until = from + length line.now };
      body = body;
    })) }
    ensures fault { IfErr answer.entry (λ fault. result ≡ Err (record {
      line = number;
      place = length line.now - fault.left;
      cause = fault.cause;
    })) }
{
    match answer {
        Ok(body) => Ok(Line {
            number,
            span: Span {
                from,
                until: from + line.len() as u32,
            },
            body,
        }),
        Err(fault) => Err(LineFault {
            line: number,
            place: (line.len() - fault.left) as u32,
            cause: fault.cause,
        }),
    }
}
