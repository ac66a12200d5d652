//! The words of the command line.
ghost use Rattle.std.specs.Prelude.{◌≡◌, ◌≢◌, ◌≤◌, ◌⊎◌, ◌∷◌, ◌++◌, [], ℕ, List, None, Some, IfSome, IfNone, IsSome, AllPairs, codes, decimal, false, true, unwrap_or};
ghost use Rattle.std.specs.Vec.Iter.{into_iter_items, into_iter_len};
ghost use Rattle.program_options.specs.Words.{AreWishesOf, Asks, HasNoOptions, BeginsWith, IsSpelledBy, MayStandTogether, texts_of};

use cron_io::read_number;
use std::env::Args;

/// The most lanes that may be asked for.
const MAX_LANES: u32 = 8;

/// A text that the program writes of a run.
#[derive(Clone, Copy, Debug, PartialEq, Eq)]
pub enum Output {
    /// The report of the launches that the run makes, and after it what else is asked for of the run.
    Report {
        /// What was seen of the board of launches after each command `free`.
        watch: bool,
        /// The journal of the run's turns. It is the last.
        journal: bool,
    },
    /// The due instants of the run's jobs.
    DueList,
    /// The lines of the run's tables that break a rule.
    Check,
    /// The summary of the run that is made from this seed. No input is read for it.
    Summary(u32),
}

/// What the program is asked for.
#[derive(Clone, Copy, Debug, PartialEq, Eq)]
pub enum Request {
    /// This text.
    Text(Output),
    /// An audit: whether the report and the journal that the input has behind its run are of that run.
    Audit,
}

/// What the words of the command line ask for.
#[derive(Clone, Copy, Debug, PartialEq, Eq)]
pub struct Asked {
    /// What is asked for.
    pub request: Request,
    /// How many lanes share out the work of a round, 1 to 8.
    pub lanes: u8,
}

/// An option of the command line.
#[derive(Clone, Copy, Debug, PartialEq, Eq)]
pub enum Choice {
    /// `--list`: the due instants are wanted.
    List,
    /// `--check`: the check of the tables is wanted.
    Check,
    /// `--audit`: the audit is wanted of what the input has behind its run.
    Audit,
    /// `--journal`: the journal is wanted after the report.
    Journal,
    /// `--watch`: what is seen of the board of launches is wanted after the report.
    Watch,
    /// `--make SEED` or `--make=SEED`: the summary of the run that this seed makes is wanted, 0 to 4,294,967,295.
    Make(u32),
    /// `--lanes N` or `--lanes=N`: so many lanes are wanted, 1 to 8.
    Lanes(u8),
}

impl Choice {
    // The option that begins with this word. Its value may be the next word, which is taken then.
    fn read(word: &str, words: &mut Args) -> Option<Choice>
        ensures found { IfSome result (λ choice. BeginsWith choice (word.now ∷ texts_of (into_iter_items words.old)) (texts_of (into_iter_items words.new))) }
        ensures none { IfNone result ((choice : Choice) (others : List (List ℕ))
            → BeginsWith choice (word.now ∷ texts_of (into_iter_items words.old)) others → ⊥) }
        ensures fewer { into_iter_len words.new ≤ into_iter_len words.old }
    {
        match word {
            "--list" => Some(Choice::List),
            "--check" => Some(Choice::Check),
            "--audit" => Some(Choice::Audit),
            "--journal" => Some(Choice::Journal),
            "--watch" => Some(Choice::Watch),
            "--lanes" => {
                let value = words.next()?;
                Some(Choice::Lanes(read_lanes(&value)?))
            }
            "--make" => {
                let value = words.next()?;
                Some(Choice::Make(read_seed(&value)?))
            }
            _ => joined(word),
        }
    }
}

// The option whose name and value are this word.
fn joined(word: &str) -> Option<Choice>
    ensures found { IfSome result (λ choice. IsSpelledBy choice (word.now ∷ [])) }
    ensures no_lanes { IfNone result ((lanes : ℕ) → 1 ≤ lanes → lanes ≤ 8 → word.now ≢ codes "--lanes" ++ codes "=" ++ decimal lanes) }
    ensures no_seed { IfNone result ((seed : ℕ) → seed ≤ 4_294_967_295 → word.now ≢ codes "--make" ++ codes "=" ++ decimal seed) }
{
    match word.strip_prefix("--lanes=") {
        Some(value) => Some(Choice::Lanes(read_lanes(value)?)),
        None => {
            let value = word.strip_prefix("--make=")?;
            Some(Choice::Make(read_seed(value)?))
        }
    }
}

// A seed.
fn read_seed(text: &str) -> Option<u32>
    ensures read { IfSome result (λ seed. (seed ≤ 4_294_967_295) × (text.now ≡ decimal seed)) }
    ensures none { IfNone result ((seed : ℕ) → seed ≤ 4_294_967_295 → text.now ≢ decimal seed) }
{
    read_number(text, u32::MAX)
}

// A number of lanes.
fn read_lanes(text: &str) -> Option<u8>
    ensures read { IfSome result (λ lanes. (1 ≤ lanes) × (lanes ≤ 8) × (text.now ≡ decimal lanes)) }
    ensures none { IfNone result ((lanes : ℕ) → 1 ≤ lanes → lanes ≤ 8 → text.now ≢ decimal lanes) }
{
    match read_number(text, MAX_LANES)? {
        0 => None,
        lanes => Some(lanes as u8),
    }
}

// What the options before a word ask for.
#[derive(Clone, Copy)]
struct Wishes {
    // What is asked for in place of a report.
    instead: Option<Request>,
    watch: bool,
    journal: bool,
    lanes: Option<u8>,
}

impl Wishes {
    // What one option more asks for. None where it may not stand beside the others.
    fn with(self, choice: Choice) -> Option<Wishes>
        ensures some { IfSome result (λ wishes. (before : List Choice) → AreWishesOf before self → AreWishesOf (before ++ choice ∷ []) wishes) }
        ensures none { IfNone result ((before behind : List Choice) → AreWishesOf before self
            → AllPairs MayStandTogether (before ++ choice ∷ behind) → ⊥) }
    {
        match choice {
            Choice::List => self.with_request(Request::Text(Output::DueList)),
            Choice::Check => self.with_request(Request::Text(Output::Check)),
            Choice::Audit => self.with_request(Request::Audit),
            Choice::Make(seed) => self.with_request(Request::Text(Output::Summary(seed))),
            Choice::Journal => self.with_journal(),
            Choice::Watch => self.with_watch(),
            Choice::Lanes(lanes) => self.with_lanes(lanes),
        }
    }

    // What is asked for in place of a report, beside nothing that a report is asked for with.
    fn with_request(self, request: Request) -> Option<Wishes>
        ensures some { IfSome result (λ wishes. (self.instead ≡ None) × (self.watch ≡ false) × (self.journal ≡ false)
            × (wishes ≡ record self { instead = Some request })) }
        ensures none { IfNone result (IsSome self.instead ⊎ (self.watch ≡ true) ⊎ (self.journal ≡ true)) }
    {
        match self.instead {
            Some(_) => None,
            None if self.watch => None,
            None if self.journal => None,
            None => Some(Wishes {
                instead: Some(request),
                ..self
            }),
        }
    }

    fn with_journal(self) -> Option<Wishes>
        ensures some { IfSome result (λ wishes. (self.instead ≡ None) × (self.journal ≡ false) × (wishes ≡ record self { journal = true })) }
        ensures none { IfNone result (IsSome self.instead ⊎ (self.journal ≡ true)) }
    {
        match self.instead {
            Some(_) => None,
            None if self.journal => None,
            None => Some(Wishes {
                journal: true,
                ..self
            }),
        }
    }

    fn with_watch(self) -> Option<Wishes>
        ensures some { IfSome result (λ wishes. (self.instead ≡ None) × (self.watch ≡ false) × (wishes ≡ record self { watch = true })) }
        ensures none { IfNone result (IsSome self.instead ⊎ (self.watch ≡ true)) }
    {
        match self.instead {
            Some(_) => None,
            None if self.watch => None,
            None => Some(Wishes {
                watch: true,
                ..self
            }),
        }
    }

    fn with_lanes(self, lanes: u8) -> Option<Wishes>
        ensures some { IfSome result (λ wishes. (self.lanes ≡ None) × (wishes ≡ record self { lanes = Some lanes })) }
        ensures none { IfNone result (IsSome self.lanes) }
    {
        match self.lanes {
            Some(_) => None,
            None => Some(Wishes {
                lanes: Some(lanes),
                ..self
            }),
        }
    }

    fn asked(self) -> Asked
        ensures request { result.request ≡ unwrap_or self.instead (Request.Text (Output.Report self.watch self.journal)) }
        ensures lanes { result.lanes ≡ unwrap_or self.lanes 1 }
    {
        let report = Output::Report {
            watch: self.watch,
            journal: self.journal,
        };
        Asked {
            request: self.instead.unwrap_or(Request::Text(report)),
            lanes: self.lanes.unwrap_or(1),
        }
    }
}

/// What the words ask for. None where they are at fault: a word is no option and no value of one, or two options stand there that
/// may not stand together.
pub fn read_words(mut words: Args) -> Option<Asked>
    ensures asks { IfSome result (Asks (texts_of (into_iter_items words))) }
    ensures none { IfNone result (HasNoOptions (texts_of (into_iter_items words))) }
{
    let mut wishes = Wishes {
        instead: None,
        watch: false,
        journal: false,
        lanes: None,
    };
    'words: while let Some(word) = words.next() {
        let choice = Choice::read(&word, &mut words)?;
        wishes = wishes.with(choice)?;
    }
    Some(wishes.asked())
}
