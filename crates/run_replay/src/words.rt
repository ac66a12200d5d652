//! What words of a line tell: a replica, a cause, a fate, an answer.
ghost use Rattle.std.specs.Prelude.{◌≡◌, ◌↔◌, ◌<◌, ℕ, IsTrue, IfSome, IfNone};
ghost use Rattle.cluster_sched.specs.Names.{IsNameIn, name_text};
ghost use Rattle.due_set.specs.Table.{IsSound};
ghost use Rattle.history.specs.declared.turn.Cause.{Cause};
ghost use Rattle.journal_line.specs.Told.{told_answers};
ghost use Rattle.journal_line.specs.declared.line.Count.TheVariants.{Number};
ghost use Rattle.journal_text.specs.Line.{told_cause, told_fate, told_row};

use cluster_sched::{Fate, Name, SchedRow, read_name};
use due_set::JobTable;
use history::Cause;
use journal_line::{AnswerWords, CauseWords, Count};
use paxos_base::Kind;
use script_text::FateWord;

/// The replica that a number of a line names, of so many.
pub(crate) fn member_of(count: Count, members: u8) -> Option<u8>
    ensures some { IfSome result (λ who. (count ≡ Number who) × (who < members)) }
    ensures none { IfNone result ((who : ℕ) → who < members → count ≡ Number who → ⊥) }
{
    match count {
        Count::Number(number) => {
            if number < u64::from(members) {
                Some(number as u8)
            } else {
                None
            }
        }
        Count::Larger => None,
    }
}

/// The cause that a line tells.
pub(crate) fn cause_of(words: CauseWords) -> Option<Cause>
    ensures some { IfSome result (λ cause. told_cause cause ≡ words) }
    ensures none { IfNone result ((cause : Cause) → told_cause cause ≡ words → ⊥) }
{
    match words {
        CauseWords::Campaign => Some(Cause::Campaign),
        CauseWords::Tick { now } => Some(Cause::Tick { now }),
        CauseWords::Hear { letter } => match letter {
            Count::Number(letter) => Some(Cause::Hear { letter }),
            Count::Larger => None,
        },
        CauseWords::Answer => Some(Cause::Answer),
    }
}

/// The fate that a line tells.
pub(crate) fn fate_told(word: FateWord) -> Fate
    ensures { told_fate result ≡ word }
{
    match word {
        FateWord::Done => Fate::Done,
        FateWord::LostBefore => Fate::LostBefore,
        FateWord::LostAfter => Fate::LostAfter,
        FateWord::Late => Fate::Late,
    }
}

// Whether a text is the name of a launch.
fn is_name(table: &JobTable, text: &str, name: Name) -> bool
    requires sound { IsSound table.now }
    requires named { IsNameIn table.now name }
    ensures { IsTrue result ↔ (text.now ≡ name_text table.now name) }
{
    match read_name(table, text) {
        Some(read) => is_same_name(read, name),
        None => false,
    }
}

fn is_same_name(one: Name, other: Name) -> bool
    ensures { IsTrue result ↔ (one ≡ other) }
{
    one == other
}

fn is_same_kind(one: Kind, other: Kind) -> bool
    ensures { IsTrue result ↔ (one ≡ other) }
{
    one == other
}

/// Whether the words tell the answer of a call, which is a launch of the table.
pub(crate) fn is_answer_told(
    table: &JobTable,
    answer: Option<SchedRow>,
    words: Option<AnswerWords<'_>>,
) -> bool
    requires sound { IsSound table.now }
    requires named { IfSome answer (λ row. IsNameIn table.now row.name) }
    ensures { IsTrue result ↔ (told_row table.now answer ≡ told_answers words.entry) }
{
    match (answer, words) {
        (None, None) => true,
        (Some(row), Some(words)) => {
            is_same_kind(words.kind, row.kind) && is_name(table, words.name, row.name)
        }
        _ => false,
    }
}
