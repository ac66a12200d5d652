use paxos_base::Kind;
use script_text::FateWord;
use zone_minutes::Minute;

/// A number of a line, of any length.
#[derive(Clone, Copy, Debug, PartialEq, Eq)]
pub enum Count {
    /// One below 2^64.
    Number(u64),
    /// One from 2^64 on.
    Larger,
}

/// What a replica has a turn for.
#[derive(Clone, Copy, Debug, PartialEq, Eq)]
pub enum CauseWords {
    /// `campaign`
    Campaign,
    /// `tick STAMP`
    Tick { now: Minute },
    /// `hear L`
    Hear { letter: Count },
    /// `answer`
    Answer,
}

/// How the launch of a name ended: `NAME launch` or `NAME void`. The name may be any word without a blank.
#[derive(Clone, Copy, Debug, PartialEq, Eq)]
pub struct AnswerWords<'a> {
    pub name: &'a str,
    pub kind: Kind,
}

/// A call of the scheduler: `FATE`, or `FATE NAME KIND` if it was answered.
#[derive(Clone, Copy, Debug, PartialEq, Eq)]
pub struct CallWords<'a> {
    pub fate: FateWord,
    pub answer: Option<AnswerWords<'a>>,
}

/// What a replica did in a turn.
#[derive(Clone, Copy, Debug, PartialEq, Eq)]
pub enum TurnWords<'a> {
    /// `campaign`, `tick STAMP`, `hear L` or `answer`: what it had its turn for, without a call.
    Did { cause: CauseWords },
    /// `tick STAMP FATE`, or `tick STAMP FATE NAME KIND`
    Called { now: Minute, call: CallWords<'a> },
    /// `stop`
    Stopped,
    /// `stop kept CAUSE` or `stop lost CAUSE`
    StoppedWithin { kept: bool, cause: CauseWords },
    /// `restart`
    Restarted,
}

/// A line of a journal.
#[derive(Clone, Copy, Debug, PartialEq, Eq)]
pub enum JournalLine<'a> {
    /// `cron journal 1`
    Head,
    /// `command K`
    Command {
        number: Count,
    },
    /// `command end`
    Walk,
    /// `I R ..`: the turn of a replica.
    Turn {
        number: Count,
        replica: Count,
        words: TurnWords<'a>,
    },
    /// `I - arrive C`: a late call arrives.
    Arrival {
        number: Count,
        late: Count,
    },
    /// `end`
    End,
}
