ghost use Rattle.std.specs.Prelude.{◌≡◌, ◌≤◌, ◌<◌, [], ◌++◌, IsOk, OnOk, OnErr, slice_get};
ghost use Rattle.cron_io.specs.Faults.{next_count};
ghost use Rattle.cluster_sched.specs.Fates.{added, Creates, HoldsRow, IsArrival, IsUnchanged, LacksMemory, LooksUp};

use crate::fate::Fate;
use crate::fault::CallFault;
use crate::row::{Name, SchedRow};
use crate::scheduler::Scheduler;
use cron_io::OutOfMemory;
use indexmap::IndexMap;
use std::alloc::Global;
use std::marker::Model;

/// A scheduler in memory: the rows that it holds, each under its name, and the calls that are late. Its user can arm the
/// next call with a fate, by which it fails.
#[derive(Debug, Drop)]
pub struct Ledger {
    rows: IndexMap<Name, SchedRow>,
    // The calls that came late, in the order in which they were made. None is taken out, so that their numbers stay.
    late: Vec<SchedRow>,
    // What becomes of the next call.
    fate: Fate,
    // How many calls failed.
    faults: u64,
}

impl Model for Ledger {
    ghost use Rattle.indexmap.specs.IndexMap.{spare, values};
    ghost use Rattle.cluster_sched.specs.Held.{AreNamedOnce, AreUnderTheirNames};
    ghost use Rattle.cluster_sched.specs.Fates.{Holdings};

    ghost Value = { Holdings };

    ghost view = { λ ledger. record {
      held = values ledger.rows;
      late = ledger.late.items;
      fate = ledger.fate;
      faults = ledger.faults;
      spare = spare ledger.rows;
    } };

    ghost invariant = { λ ledger. AreUnderTheirNames ledger.rows.entries × AreNamedOnce (values ledger.rows) };
}

impl Ledger {
    ghost use Rattle.cluster_sched.specs.Held.{AreNamedOnce, IsLookedUp};

    /// A ledger that holds nothing. Its calls are answered.
    pub fn new(alloc: Global) -> Ledger
        ensures held { result.held ≡ [] }
        ensures late { result.late ≡ [] }
        ensures fate { result.fate ≡ Fate.Done }
        ensures faults { result.faults ≡ 0 }
    {
        Ledger {
            rows: IndexMap::new(alloc),
            late: Vec::new(alloc),
            fate: Fate::Done,
            faults: 0,
        }
    }

    /// The rows that are held, in the order in which they came, no two under one name.
    pub fn held(&self) -> &[SchedRow]
        ensures held { result.now ≡ self.now.held }
        ensures once { AreNamedOnce result.now }
    {
        self.rows.values().as_slice()
    }

    /// The rows of the calls that came late, in the order in which they were made. A call that has arrived stays among them.
    pub fn late(&self) -> &[SchedRow]
        ensures { result.now ≡ self.now.late }
    {
        self.late.as_slice()
    }

    /// Sets what becomes of the next call.
    pub fn arm(&mut self, fate: Fate)
        ensures { self.new ≡ record self.old { fate = fate } }
    {
        self.fate = fate;
    }

    /// Makes room for one more row, so that the next arrival asks for no memory.
    pub fn reserve(&mut self) -> Result<(), OutOfMemory>
        ensures ok { OnOk result (0 < self.new.spare) }
        ensures room { self.old.spare ≤ self.new.spare }
        ensures same { IsUnchanged self.old self.new }
    {
        self.rows.reserve(1)?;
        Ok(())
    }

    /// Lets the late call of this number arrive: its row is held where none is held under its name. Answers whether it is
    /// now the row that is held there. An arrival has no fate, and the late calls keep their numbers.
    pub fn arrive(&mut self, late: u32) -> Result<bool, OutOfMemory>
        ensures arrives { IsArrival (slice_get self.old.late late) self.old result self.new }
        ensures room { 0 < self.old.spare → IsOk result }
    {
        let Some(row) = self.late_row(late) else {
            return Ok(false);
        };
        let found = self.find(row.name);
        self.hold(row, found)?;
        Ok(found.unwrap_or(row) == row)
    }

    // The row of the late call of this number.
    fn late_row(&self, number: u32) -> Option<SchedRow>
        ensures { result ≡ slice_get self.now.late number }
    {
        self.late.get(number as usize).copied()
    }

    // The row that is held under the name.
    fn find(&self, name: Name) -> Option<SchedRow>
        ensures { IsLookedUp self.now.held name result }
    {
        self.rows.get(&name).copied()
    }

    // Holds the row where none was found under its name.
    fn hold(&mut self, row: SchedRow, found: Option<SchedRow>) -> Result<(), OutOfMemory>
        requires { IsLookedUp self.old.held row.name found }
        ensures ok { OnOk result (HoldsRow self.old row found self.new) }
        ensures err { OnErr result (LacksMemory Fate.Done self.old row self.new) }
    {
        if found.is_none() {
            self.rows.insert(row.name, row)?;
        }
        Ok(())
    }

    // Counts a call that failed, which spends its fate.
    fn fail(&mut self) -> CallFault
        ensures fault { result ≡ CallFault.Failed }
        ensures counted { self.new ≡ record self.old { fate = Fate.Done; faults = next_count self.old.faults } }
        ensures later { self.old.faults ≤ self.new.faults }
    {
        self.fate = Fate::Done;
        self.faults = self.faults.saturating_add(1);
        CallFault::Failed
    }

    // Looks the name up, as its fate says.
    fn look_up(&mut self, name: Name) -> Result<Option<SchedRow>, CallFault>
        ensures looks { LooksUp self.old name result self.new }
        ensures later { self.old.faults ≤ self.new.faults }
    {
        let found = self.find(name);
        match (self.fate, found) {
            (Fate::LostBefore, _) | (Fate::LostAfter, Some(_)) => Err(self.fail()),
            (_, None) => Ok(None),
            (_, Some(first)) => {
                self.fate = Fate::Done;
                Ok(Some(first))
            }
        }
    }

    // Creates the row, as its fate says.
    fn create_row(&mut self, row: SchedRow) -> Result<SchedRow, CallFault>
        ensures creates { Creates self.old row result self.new }
        ensures later { self.old.faults ≤ self.new.faults }
    {
        let found = self.find(row.name);
        match self.fate {
            Fate::Done => {
                self.hold(row, found)?;
                Ok(found.unwrap_or(row))
            }
            Fate::LostBefore => Err(self.fail()),
            Fate::LostAfter => {
                self.hold(row, found)?;
                Err(self.fail())
            }
            Fate::Late => {
                add_late(&mut self.late, row, found)?;
                Err(self.fail())
            }
        }
    }
}

// Puts the row at the end of the late ones, where none was found under its name.
fn add_late(
    late: &mut Vec<SchedRow>,
    row: SchedRow,
    found: Option<SchedRow>,
) -> Result<(), OutOfMemory>
    ensures ok { OnOk result (late.new.items ≡ late.old.items ++ added row found) }
    ensures err { OnErr result (late.new.items ≡ late.old.items) }
    ensures none { OnErr result (found ≡ None) }
{
    if found.is_none() {
        late.push(row)?;
    }
    Ok(())
}

impl Scheduler for Ledger {
    ghost held = { λ ledger. ledger.held };

    ghost late = { λ ledger. ledger.late };

    ghost creates = { λ _. 0 };

    ghost faults = { λ ledger. ledger.faults };

    ghost look_gives = { LooksUp };

    ghost create_gives = { Creates };

    fn look(&mut self, name: Name) -> Result<Option<SchedRow>, CallFault> {
        self.look_up(name)
    }

    fn create(&mut self, row: SchedRow) -> Result<SchedRow, CallFault> {
        self.create_row(row)
    }
}
