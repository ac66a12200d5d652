ghost use Rattle.std.specs.Prelude.{◌≡◌, ℕ, ◌<◌, ◌^◌, Option, None, Some, List, [], ◌∷◌, ◌++◌};
ghost use Rattle.paxos_base.specs.declared.rows.TableSize.{TableSize};
ghost use Rattle.paxos_base.specs.declared.durable.Delta.{Delta};
ghost use Rattle.paxos_base.specs.declared.durable.Delta.TheVariants.{Base};
ghost use Rattle.paxos_base.specs.declared.durable.Durable.{Durable};
ghost use Rattle.paxos_base.specs.declared.rows.JobRow.{JobRow};
ghost use Rattle.paxos_base.specs.Durable.{after_delta};
ghost use Rattle.paxos_base.specs.Rows.{RowsStand};
ghost use Rattle.store_format.specs.declared.body.Record.{Record};
ghost use Rattle.store_format.specs.Area.{BeginsInFormat1, GroupStands, Stands, StandFor, IsFirstRecordAtFault, fresh_kept, base_records, rows_of_group};
ghost use Rattle.store_format.specs.Order.{ChangeMayFollow, IsKeptSound, delta_record, own_after};
ghost use Rattle.store_format.specs.Records.{AreRecords, IsRecord, own_ballot};

/// A law, with nothing to run: the empty list stands for the fresh state.
pub fn no_records_stand_for_the_fresh_state()
    ensures records { (size : TableSize) → Stands size [] (fresh_kept size) }
    ensures bodies { (size : TableSize) → StandFor size [] (fresh_kept size) None }
{}

/// A law, with nothing to run: records stand for one state at most, and so do bodies.
pub fn records_stand_for_one_state()
    ensures records { (size : TableSize) (items : List Record) (one other : Durable)
        → Stands size items one → Stands size items other → one ≡ other }
    ensures bodies { (size : TableSize) (bodies : List (List ℕ)) (one other : Durable) (own others : Option ℕ)
        → StandFor size bodies one own → StandFor size bodies other others → (one ≡ other) × (own ≡ others) }
{}

/// A law, with nothing to run: a change that may follow, with its record behind the others, brings the state after it.
pub fn a_record_brings_its_change()
    ensures records { (size : TableSize) (items : List Record) (item : Record) (kept : Durable) (change : Delta)
        → Stands size items kept → ChangeMayFollow size kept change → delta_record change ≡ Some item
        → Stands size (items ++ item ∷ []) (after_delta change kept) }
    ensures bodies { (size : TableSize) (bodies : List (List ℕ)) (body : List ℕ) (item : Record) (kept : Durable) (own : Option ℕ) (change : Delta)
        → StandFor size bodies kept own → ChangeMayFollow size kept change → delta_record change ≡ Some item → IsRecord body item
        → StandFor size (bodies ++ body ∷ []) (after_delta change kept) (own_after change own) }
{}

/// A law, with nothing to run: the records of a base stand for the state after it, and are in format 2.
pub fn the_records_of_a_base_stand()
    ensures stand { (size : TableSize) (slot : ℕ) (rows : List JobRow) (kept : Durable) (own : Option ℕ)
        → IsKeptSound kept own → RowsStand rows size
        → Stands size (base_records kept own slot rows) (after_delta (Base slot rows) kept) }
    ensures format { (size : TableSize) (bodies : List (List ℕ)) (slot : ℕ) (rows : List JobRow) (kept : Durable) (own : Option ℕ)
        → RowsStand rows size → AreRecords bodies (base_records kept own slot rows) → BeginsInFormat1 size bodies → ⊥ }
    // A base at the slot and with the rows that are kept brings the same state.
    ensures same { (kept : Durable) (own : Option ℕ) → IsKeptSound kept own → after_delta (Base kept.base kept.rows) kept ≡ kept }
{}

/// A law, with nothing to run: the rows that a group stands for, in either format, are those of the table.
pub fn the_rows_of_a_group_stand()
    ensures { (size : TableSize) (rows : List JobRow) → GroupStands size rows → RowsStand (rows_of_group size rows) size }
{}

/// A law, with nothing to run: what records stand for is sound, and each change that may follow leaves it so.
pub fn states_are_sound()
    ensures records { (size : TableSize) (items : List Record) (kept : Durable) → Stands size items kept → IsKeptSound kept (own_ballot items) }
    ensures bodies { (size : TableSize) (bodies : List (List ℕ)) (kept : Durable) (own : Option ℕ) → StandFor size bodies kept own → IsKeptSound kept own }
    ensures changes { (size : TableSize) (kept : Durable) (own : Option ℕ) (change : Delta)
        → IsKeptSound kept own → ChangeMayFollow size kept change → IsKeptSound (after_delta change kept) (own_after change own) }
{}

/// A law, with nothing to run: two records have different bytes.
pub fn records_differ_in_their_bytes()
    ensures { (bytes : List ℕ) (one other : Record) → IsRecord bytes one → IsRecord bytes other → one ≡ other }
{}

/// A law, with nothing to run: bodies that stand for no state have a first one at fault, and no other.
pub fn bodies_have_a_first_fault()
    ensures some { (size : TableSize) (bodies : List (List ℕ)) → size.jobs < 2 ^ 32
        → ((kept : Durable) (own : Option ℕ) → StandFor size bodies kept own → ⊥)
        → (k : ℕ) × IsFirstRecordAtFault size bodies k }
    ensures one { (size : TableSize) (bodies : List (List ℕ)) (j k : ℕ) → IsFirstRecordAtFault size bodies j → IsFirstRecordAtFault size bodies k → j ≡ k }
{}
