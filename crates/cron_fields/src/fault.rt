ghost use Rattle.std.specs.Prelude.{◌≡◌, ◌+◌, ◌<◌, ◌^◌};
ghost use Rattle.cron_fields.specs.Cause.{cause_number};

use crate::cause::Cause;

/// Why a text is no field: the rule that it breaks first, by the number of its `Cause` from 1 to 9, and the place of the byte,
/// counted from 0.
#[derive(Clone, Copy, Debug, PartialEq, Eq)]
pub struct FieldFault {
    pub cause: u8,
    pub place: u32,
}

// A rule that is broken, and the place of the byte in the text that was read.
#[derive(Clone, Copy, Debug, PartialEq, Eq)]
pub(crate) struct Fault {
    pub(crate) cause: Cause,
    pub(crate) place: usize,
}

impl Fault {
    // The fault in a text that has so many bytes before the one that was read.
    pub(crate) fn after(self, before: usize) -> Fault
        requires { before + self.place < 2 ^ 64 }
        ensures cause { result.cause ≡ self.cause }
        ensures place { result.place ≡ before + self.place }
    {
        Fault {
            cause: self.cause,
            place: before + self.place,
        }
    }

    // The fault as the field's reader tells it.
    pub(crate) fn told(self) -> FieldFault
        requires { self.place < 2 ^ 32 }
        ensures cause { result.cause ≡ cause_number self.cause }
        ensures place { result.place ≡ self.place }
    {
        FieldFault {
            cause: self.cause.number(),
            place: self.place as u32,
        }
    }
}
