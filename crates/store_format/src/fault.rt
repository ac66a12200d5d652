use cron_io::OutOfMemory;

/// Why the records of an area could not be read.
#[derive(Clone, Copy, Debug, PartialEq, Eq, Drop)]
pub enum ReadFault {
    /// The records stand for no state. This one, by its number from 0, is the first at fault: the first that no list of
    /// records has which stands for a state and has the same records up to it. Where the group of a base breaks off, it
    /// is the number of the records.
    Damaged { record: u64 },
    /// Memory ran out.
    OutOfMemory,
}

impl From<OutOfMemory> for ReadFault {
    ghost use Rattle.std.specs.Prelude.{◌≡◌};
    ghost use Rattle.store_format.specs.declared.fault.ReadFault.TheVariants.{OutOfMemory as NoMemory};

    ghost from_gives = { λ _ e. e ≡ NoMemory };

    fn from(_: OutOfMemory) -> Self {
        ReadFault::OutOfMemory
    }
}
