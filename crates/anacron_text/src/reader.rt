ghost use Rattle.std.specs.Prelude.{◌≡◌, ◌↔◌, ◌<◌, ◌^◌, ◌≤◌, ◌+◌, ◌-◌, [], length, IsNone, IfSome, IfNone, IfOk, IfErr, OnErr, Ok, Err};
ghost use Rattle.std.specs.Result.{ForErr};
ghost use Rattle.anacron_text.specs.Answers.{IsAnacronLineOf, IsAnacronLineBreak, SetsBy};
ghost use Rattle.anacron_text.specs.Limits.{IsBodyWithin};
ghost use Rattle.anacron_text.specs.LineBody.{anacron_body_of};
ghost use Rattle.anacron_text.specs.Reader.{ReadsAnacronLine};
ghost use Rattle.anacron_text.specs.Settings.{AreSettings};
ghost use Rattle.anacron_text.specs.TableReader.{anacron_rest_of, anacron_table_reader};

use crate::answer::{AnaBody, AnaLine};
use crate::blank::skip_blanks;
use crate::job::read_job;
use crate::logical::{count_lines, next_logical_line};
use crate::setting::read_setting;
use crate::settings::Settings;
use crontab_text::{Fault, LineFault, Span};
use std::marker::Model;

/// The lines of an anacrontab that are left, in order.
#[derive(Debug, Drop)]
pub struct AnaLines<'a> {
    text: &'a str,
    rest: &'a str,
    settings: Settings,
    passed: u32,
}

impl<'a> Model for AnaLines<'a> {
    ghost use Rattle.std.specs.Prelude.{◌≡◌, ◌+◌, ◌-◌, ◌^◌, ◌<◌, ◌≤◌, drop, length};
    ghost use Rattle.anacron_text.specs.Settings.{AreSettings};
    ghost use Rattle.anacron_text.specs.TableReader.{AnacronTableReader};

    ghost Value = { AnacronTableReader };

    ghost view = { λ lines. record {
      text = lines.text.now;
      settings = lines.settings;
      place = length lines.text.now - length lines.rest.now;
      passed = lines.passed;
    } };

    ghost invariant = { λ lines. (length lines.text.now < 2 ^ 32)
        × (lines.passed + length lines.rest.now ≤ length lines.text.now)
        × (drop (length lines.text.now - length lines.rest.now) lines.text.now ≡ lines.rest.now)
        × AreSettings lines.settings };
}

impl<'a> AnaLines<'a> {
    /// The lines of a table.
    pub fn new(text: &'a str) -> AnaLines<'a>
        requires { length text.now < 2 ^ 32 }
        ensures { result ≡ anacron_table_reader text.now }
    {
        AnaLines {
            text,
            rest: text,
            settings: Settings::new(),
            passed: 0,
        }
    }

    /// What is left of the text.
    pub fn rest(&self) -> &'a str
        ensures { result.now ≡ anacron_rest_of self.now }
    {
        self.rest
    }

    /// Reads the next line, with those that continue it; `None` at the end of the text.
    ///
    /// # Errors
    ///
    /// A line that says nothing. The next call goes on with the line behind it. The first rule that it breaks, from left to
    /// right, and the place of the byte in the line, counted from 0:
    ///
    /// | Cause | Rule | Place |
    /// |---|---|---|
    /// | 10 | the line ends before the identifier | the line's end |
    /// | 11 | the line ends before the command | the line's end |
    /// | 14 | a command has at most 1,000 bytes | the command |
    /// | 16 | a period is 1 to 9,999 days or the name of one, as it is written | the word |
    /// | 17 | a delay is 0 to 9,999 minutes | the word |
    /// | 18 | an identifier has 1 to 64 bytes and no `/` | the word |
    /// | 19 | `START_HOURS_RANGE` is two hours from 0 to 24 that rise, with `-` between them | the value |
    /// | 20 | `RANDOM_DELAY` is 0 to 9,999 minutes | the value |
    pub fn next(&mut self) -> Option<Result<AnaLine<'a>, LineFault>>
        ensures end { IsNone result ↔ (anacron_rest_of self.old ≡ []) }
        ensures none { IfNone result (self.new ≡ self.old) }
        ensures line { IfSome result (ReadsAnacronLine self.old self.new) }
        ensures rises { IfSome result (λ _. self.old.place < self.new.place) }
        ensures within { IfSome result (λ handed. IfOk handed (λ line. IsBodyWithin line.body)) }
    {
        let (line, rest) = next_logical_line(self.rest)?;
        let from = (self.text.len() - self.rest.len()) as u32;
        let number = self.passed + 1;
        self.rest = rest;
        self.passed += count_lines(line);
        Some(numbered(number, from, line, read_line(&mut self.settings, line)))
    }
}

// What a line says. Where it sets one of the settings, they are changed.
fn read_line<'a>(settings: &mut Settings, line: &'a str) -> Result<AnaBody<'a>, Fault>
    requires { AreSettings settings.old }
    ensures read { IfOk result (λ body. IsAnacronLineOf settings.old line.now (anacron_body_of body)) }
    ensures sets { IfOk result (λ body. SetsBy (anacron_body_of body) settings.old settings.new) }
    ensures fault { IfErr result (λ fault. IsAnacronLineBreak line.now fault.cause fault.left) }
    ensures unchanged { OnErr result (settings.new ≡ settings.old) }
    ensures kept { AreSettings settings.new }
    ensures within { IfOk result IsBodyWithin }
{
    let text = skip_blanks(line);
    match text.as_bytes().first() {
        None => Ok(AnaBody::Blank),
        Some(b'#') => Ok(AnaBody::Comment),
        Some(_) => match read_setting(text) {
            Some(setting) => {
                *settings = settings.with(&setting)?;
                Ok(AnaBody::Assign {
                    name: setting.name,
                    value: setting.value.text,
                })
            }
            None => read_job(*settings, text),
        },
    }
}

// The answer to a line, with its number and its place.
fn numbered<'a>(
    number: u32,
    from: u32,
    line: &'a str,
    answer: Result<AnaBody<'a>, Fault>,
) -> Result<AnaLine<'a>, LineFault>
    requires fits { from + length line.now < 2 ^ 32 }
    requires within { ForErr answer (λ fault. fault.left ≤ length line.now) }
    ensures read { IfOk answer.entry (λ body. result ≡ Ok (record {
      number = number;
      span = record { from = from; until = from + length line.now };
      body = body;
    })) }
    ensures fault { IfErr answer.entry (λ fault. result ≡ Err (record {
      line = number;
      place = length line.now - fault.left;
      cause = fault.cause;
    })) }
{
    match answer {
        Ok(body) => Ok(AnaLine {
            number,
            span: Span {
                from,
                until: from + line.len() as u32,
            },
            body,
        }),
        Err(fault) => Err(LineFault {
            line: number,
            place: (line.len() - fault.left) as u32,
            cause: fault.cause,
        }),
    }
}
