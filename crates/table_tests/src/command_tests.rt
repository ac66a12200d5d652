//! What a command says with its percent signs.
use crate::rows::sides;
use crontab_text::{Piece, split_percent};
use std::alloc::Global;
use std::fmt::Write;
use std::test::Fail;

// The pieces of a command: a text in brackets, the end of a line as `/`.
fn show_pieces(alloc: Global, command: &str) -> Result<String, Fail> {
    let mut shown = String::new(alloc);
    let mut pieces = split_percent(command);
    for _ in 0..99 {
        match pieces.next() {
            None => break,
            Some(Piece::NewLine) => shown.push('/')?,
            Some(Piece::Text(text)) => write!(shown, "[{text}]")?,
        }
    }
    Ok(shown)
}

// The first is that of crontab(5).
const COMMANDS: &str = "\
echo a\\%b%in%put => [echo a][%b]/[in]/[put]
a => [a]
% => /
%% => //
a% => [a]/
%a => /[a]
\\% => [%]
\\%% => [%]/
%\\% => /[%]
\\%\\% => [%][%]
\\%a\\%b => [%a][%b]
\\\\% => [\\][%]
\\\\\\% => [\\\\][%]
a\\\\%b => [a\\][%b]
a\\ => [a\\]
\\ => [\\]
\\a%b => [\\a]/[b]
a\\b => [a\\b]
a \\ %b => [a \\ ]/[b]
date +\\%F => [date +][%F]
mail joe%Joe,%%Where?% => [mail joe]/[Joe,]//[Where?]/
é%é\\%é => [é]/[é][%é]
a¶b%c => [a¶b]/[c]
";

#[test]
fn commands(rt: HostRuntime) -> Result<(), Fail> {
    for row in COMMANDS.lines() {
        let (command, want) = sides(rt.alloc(), row)?;
        let got = show_pieces(rt.alloc(), &command)?;
        assert_eq!(rt; got, want, "{row}");
    }
    Ok(())
}
