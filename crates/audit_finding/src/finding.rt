use run_audit::Why;
use world_law::Book;

/// What is at fault in a line.
#[derive(Clone, Copy, Debug, PartialEq, Eq)]
pub enum Fault {
    /// It is a line of the journal, which can't be one of the run's, for this reason.
    Journal(Why),
    /// It is a line of the report, which isn't the one that the journal's book has there.
    Report,
}

impl Fault {
    ghost use Rattle.std.specs.Prelude.{◌≡◌};
    ghost use Rattle.audit_finding.specs.Finding.{fault_number};

    /// The number of the fault: 1 to 4 of the journal's, 5 of the report's.
    pub fn number(self) -> u8
        ensures { result ≡ fault_number self }
    {
        match self {
            Fault::Journal(Why::BadLine) => 1,
            Fault::Journal(Why::NotLegal) => 2,
            Fault::Journal(Why::NotObeyed) => 3,
            Fault::Journal(Why::Missing) => 4,
            Fault::Report => 5,
        }
    }
}

/// What an audit finds of an input.
#[derive(Debug, Drop)]
pub enum Finding {
    /// The journal is one of the run, with the turns of this book, and the report is that of the book.
    Passes { book: Book },
    /// The first line at fault, counted from the report's first line as 1.
    Fails { line: u32, fault: Fault },
}
