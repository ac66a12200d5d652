use cron_fields::Cause;

/// The first rule that a line breaks, by the number of its `Cause`, and how many bytes of the line stand from the fault to its end.
#[derive(Clone, Copy, Debug, PartialEq, Eq)]
pub struct Fault {
    pub cause: u8,
    pub left: usize,
}

impl Fault {
    ghost use Rattle.std.specs.Prelude.{◌≡◌};
    ghost use Rattle.cron_fields.specs.Cause.{cause_number};

    /// A rule that is broken where so many bytes of the line are left.
    pub fn new(cause: Cause, left: usize) -> Fault
        ensures cause { result.cause ≡ cause_number cause }
        ensures left { result.left ≡ left }
    {
        Fault {
            cause: cause.number(),
            left,
        }
    }
}
