//! The words of a line, and the spaces between them.
ghost use Rattle.std.specs.Prelude.{◌≡◌, ◌≢◌, ◌↔◌, ◌++◌, ◌∷◌, ℕ, List, Bool, IsTrue, IfSome, IfNone};
ghost use Rattle.std.specs.List.{AllByRecursion};
ghost use Rattle.paxos_base.specs.declared.entry.Kind.{Kind};
ghost use Rattle.script_text.specs.Command.{fate_word};
ghost use Rattle.script_text.specs.declared.command.FateWord.{FateWord};
ghost use Rattle.journal_line.specs.Line.{IsUnblank, IsAnyName, kept_text, kind_text};
ghost use Rattle.journal_line.specs.Spaced.{IsCutAtSpace, LacksSpace};

use paxos_base::Kind;
use script_text::FateWord;

/// What stands behind a word and a space, if the text begins with them.
pub fn behind<'a>(text: &'a str, word: &str) -> Option<&'a str>
    ensures rest { IfSome result (λ rest. text.now ≡ word.now ++ 32 ∷ rest.now) }
    ensures none { IfNone result ((rest : List ℕ) → text.now ≢ word.now ++ 32 ∷ rest) }
{
    text.strip_prefix(word)?.strip_prefix(' ')
}

/// What stands before the first space of a text, and behind it.
pub fn split_word(text: &str) -> Option<(&str, &str)>
    ensures cut { IfSome result (λ parts. IsCutAtSpace text.now parts.0.now parts.1.now) }
    ensures none { IfNone result (LacksSpace text.now) }
{
    text.split_once(' ')
}

/// The fate that a word says.
pub fn read_fate(text: &str) -> Option<FateWord>
    ensures read { IfSome result (λ fate. text.now ≡ fate_word fate) }
    ensures none { IfNone result ((fate : FateWord) → text.now ≢ fate_word fate) }
{
    match text {
        "done" => Some(FateWord::Done),
        "lost-before" => Some(FateWord::LostBefore),
        "lost-after" => Some(FateWord::LostAfter),
        "late" => Some(FateWord::Late),
        _ => None,
    }
}

/// How a launch ended, as a word says it.
pub fn read_kind(text: &str) -> Option<Kind>
    ensures read { IfSome result (λ kind. text.now ≡ kind_text kind) }
    ensures none { IfNone result ((kind : Kind) → text.now ≢ kind_text kind) }
{
    match text {
        "launch" => Some(Kind::Launch),
        "void" => Some(Kind::Void),
        _ => None,
    }
}

/// Whether a disk kept what was to be saved, as a word says it.
pub fn read_kept(text: &str) -> Option<bool>
    ensures read { IfSome result (λ kept. text.now ≡ kept_text kept) }
    ensures none { IfNone result ((kept : Bool) → text.now ≢ kept_text kept) }
{
    match text {
        "kept" => Some(true),
        "lost" => Some(false),
        _ => None,
    }
}

/// Whether a text is a word without a blank.
pub fn is_name(text: &str) -> bool
    ensures { IsTrue result ↔ IsAnyName text.now }
{
    !text.is_empty() && are_unblank(text.as_bytes())
}

fn are_unblank(bytes: &[u8]) -> bool
    ensures { IsTrue result ↔ AllByRecursion IsUnblank bytes.now }
{
    bytes.iter().all(|byte| is_unblank(*byte))
}

fn is_unblank(byte: u8) -> bool
    ensures { IsTrue result ↔ IsUnblank byte }
{
    byte != b' ' && byte != b'\t'
}
