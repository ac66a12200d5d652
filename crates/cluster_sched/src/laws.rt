//! Laws of names and of held rows. Each is the contract of a function that does nothing.
ghost use Rattle.std.specs.Prelude.{◌≡◌, ◌⊎◌, ◌++◌, ◌+◌, ◌≤◌, ◌<◌, ℕ, Bool, List, length, Option, Some, Result, Ok, Err, slice_get};
ghost use Rattle.cron_io.specs.declared.out_of_memory.OutOfMemory.{OutOfMemory};
ghost use Rattle.due_set.specs.Table.{Table, IsSound};
ghost use Rattle.cluster_sched.specs.Calls.{IsCall};
ghost use Rattle.cluster_sched.specs.Fates.{Arrives, Calls, CallsByName, Creates, CreatesRow, Holdings, IsArrival, IsUnchanged, LooksUp};
ghost use Rattle.cluster_sched.specs.Held.{Answers, AreNamedOnce, FollowsCall, IsFirstUnder, IsLookedUp, MayGoLate, NoneUnder};
ghost use Rattle.cluster_sched.specs.Names.{IsNameIn, name_text};
ghost use Rattle.cluster_sched.specs.declared.fate.Fate.{Fate};
ghost use Rattle.cluster_sched.specs.declared.fault.CallFault.{CallFault};
ghost use Rattle.cluster_sched.specs.declared.row.Name.{Name};
ghost use Rattle.cluster_sched.specs.declared.row.SchedRow.{SchedRow};

/// Two launches of a table have two texts.
pub fn names_differ_in_their_texts()
    ensures { (table : Table) (a b : Name) → IsSound table → IsNameIn table a → IsNameIn table b
        → name_text table a ≡ name_text table b → a ≡ b }
{}

/// A row that is held stays, in its place and the first under its name, and no name comes twice.
pub fn held_rows_stay()
    ensures place { (old new : List SchedRow) (row : SchedRow) → FollowsCall old row new
        → (rest : List SchedRow) × (new ≡ old ++ rest) }
    ensures first { (old new : List SchedRow) (row first : SchedRow) (name : Name) → FollowsCall old row new
        → IsFirstUnder old name first → IsFirstUnder new name first }
    ensures once { (old new : List SchedRow) (row : SchedRow) → FollowsCall old row new
        → AreNamedOnce old → AreNamedOnce new }
{}

/// A look has one answer: of the rows under a name the first.
pub fn a_look_has_one_answer()
    ensures { (held : List SchedRow) (name : Name) (one other : Option SchedRow)
        → IsLookedUp held name one → IsLookedUp held name other → one ≡ other }
{}

/// What a call answers is the first row under its name afterwards.
pub fn answers_stay()
    ensures first { (old new : List SchedRow) (row first : SchedRow) → Answers old row first new
        → IsFirstUnder new row.name first }
    ensures held { (old new : List SchedRow) (row first : SchedRow) → Answers old row first new
        → FollowsCall old row new }
{}

/// Of rows of which no two are under one name, each is the first under its name.
pub fn rows_named_once_are_first()
    ensures { (held : List SchedRow) (place : ℕ) (row : SchedRow) → AreNamedOnce held
        → slice_get held place ≡ Some row → IsFirstUnder held row.name row }
{}

/// A late row stays, in its place; a call that is answered, or whose name is held, does not go late, and one that does
/// leaves what is held.
pub fn late_rows_stay()
    ensures place { (held held' late late' : List SchedRow) (row : SchedRow) (result : Result SchedRow CallFault)
        → MayGoLate held held' late late' row result → (rest : List SchedRow) × (late' ≡ late ++ rest) }
    ensures answered { (held held' late late' : List SchedRow) (row first : SchedRow)
        → MayGoLate held held' late late' row (Ok first) → late' ≡ late }
    ensures known { (held held' late late' : List SchedRow) (row first : SchedRow) (result : Result SchedRow CallFault)
        → MayGoLate held held' late late' row result → IsFirstUnder held row.name first → late' ≡ late }
    ensures held { (held held' late late' : List SchedRow) (row : SchedRow) (result : Result SchedRow CallFault)
        → MayGoLate held held' late late' row result → (late' ≡ late) ⊎ (held' ≡ held) }
{}

/// What comes of a ledger's call by a name goes by its fate and by what is held, as what comes of a creation does.
pub fn calls_go_by_their_fates()
    ensures { (old new : Holdings) (row : SchedRow) (result : Result SchedRow CallFault)
        → IsCall LooksUp Creates old row result new → Calls old row result new }
{}

/// What a ledger does has one answer, and leaves one ledger, but for its room.
pub fn ledgers_answer_alike()
    ensures looks { (old one other : Holdings) (name : Name) (a b : Result (Option SchedRow) CallFault)
        → LooksUp old name a one → LooksUp old name b other → (a ≡ b) × (one ≡ other) }
    ensures creations { (old one other : Holdings) (row : SchedRow) (a b : Result SchedRow CallFault)
        → CreatesRow old row a one → CreatesRow old row b other → (a ≡ b) × IsUnchanged one other }
    ensures calls { (old one other : Holdings) (row : SchedRow) (a b : Result SchedRow CallFault)
        → CallsByName old row a one → CallsByName old row b other → (a ≡ b) × IsUnchanged one other }
    ensures arrivals { (old one other : Holdings) (row : SchedRow) (a b : Bool)
        → Arrives old row a one → Arrives old row b other → (a ≡ b) × IsUnchanged one other }
{}

/// What a ledger does has an answer, whatever it holds and whatever its fate is.
pub fn ledgers_always_answer()
    ensures looks { (old : Holdings) (name : Name)
        → (result : Result (Option SchedRow) CallFault) × (new : Holdings) × LooksUp old name result new }
    ensures creations { (old : Holdings) (row : SchedRow)
        → (result : Result SchedRow CallFault) × (new : Holdings) × CreatesRow old row result new }
    ensures calls { (old : Holdings) (row : SchedRow)
        → (result : Result SchedRow CallFault) × (new : Holdings) × CallsByName old row result new }
    ensures arrivals { (old : Holdings) (row : SchedRow)
        → (stands : Bool) × (new : Holdings) × Arrives old row stands new }
{}

/// A ledger never holds fewer rows, and room for more, than before: a call leaves at least the room that it found, less the
/// rows that it adds.
pub fn calls_leave_their_room()
    ensures creations { (old new : Holdings) (row : SchedRow) (result : Result SchedRow CallFault)
        → Creates old row result new → (length old.held + old.spare) ≤ (length new.held + new.spare) }
    ensures calls { (old new : Holdings) (row : SchedRow) (result : Result SchedRow CallFault)
        → Calls old row result new → (length old.held + old.spare) ≤ (length new.held + new.spare) }
    ensures arrivals { (late : Option SchedRow) (old new : Holdings) (result : Result Bool OutOfMemory)
        → IsArrival late old result new → (length old.held + old.spare) ≤ (length new.held + new.spare) }
{}

/// A ledger wants memory only for a row under whose name none is held, and no call that is to be answered wants it where
/// there is room.
pub fn memory_is_wanted_for_new_names()
    ensures creations { (old new : Holdings) (row : SchedRow)
        → Creates old row (Err CallFault.OutOfMemory) new → NoneUnder old.held row.name }
    ensures calls { (old new : Holdings) (row : SchedRow)
        → Calls old row (Err CallFault.OutOfMemory) new → NoneUnder old.held row.name }
    ensures room { (old new : Holdings) (row : SchedRow)
        → Calls old row (Err CallFault.OutOfMemory) new → old.fate ≡ Fate.Done → 0 < old.spare → ⊥ }
{}
