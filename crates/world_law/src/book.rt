//! The book that a program keeps while replicas run.
ghost use Rattle.std.specs.Prelude.{◌≡◌, ◌+◌, ◌<◌, ◌≤◌, ◌++◌, ◌∷◌, [], ℕ, List, None, Some, length, max, IfOk, OnOk, OnErr, vec_len, vec_capacity};
ghost use Rattle.cluster_sched.specs.Fates.{IsUnchanged};
ghost use Rattle.cluster_sched.specs.declared.fate.Fate.TheVariants.{Done};
ghost use Rattle.due_set.specs.Table.{Table};
ghost use Rattle.history.specs.Book.{Row, arriving, late_call};
ghost use Rattle.history.specs.Legal.{IsMade, MayFollow};
ghost use Rattle.world_law.specs.Book.{Commits, HasCalled, HasRoom, IsSameBook, IsLegalBook, IsNext, IsRowOf, MakesCall, MayTickFor, StandsBehind, call_of, letter_rows, longest_of, standing_behind};

use crate::letter::LetterRow;
use crate::turn_row::{CallBox, TurnRow};
use cluster_sched::{CallFault, Fate, Ledger, SchedRow, call_by_name};
use cron_io::OutOfMemory;
use due_set::JobTable;
use history::{CallRow, Turn};
use replica_core::{LetterList, StepOut};
use std::alloc::Global;
use std::marker::Model;

/// The turns of some replicas, the letters that they posted, and the scheduler that they call. What votes were cast and what was
/// learned can be told from these.
#[derive(Debug, Drop)]
pub struct Book {
    members: u8,
    turns: Vec<TurnRow>,
    letters: Vec<LetterRow>,
    // The bytes of the longest letter, kept so that nobody has to go over all letters for them.
    longest: usize,
    ledger: Ledger,
    // The numbers of the late calls that have arrived.
    arrived: Vec<u32>,
    // The call that the next turn carries, where one was made.
    pending: Option<CallBox>,
    alloc: Global,
}

impl Model for Book {
    ghost use Rattle.std.specs.Prelude.{◌≡◌, ◌-◌, vec_len, vec_capacity};
    ghost use Rattle.cluster_sched.specs.declared.fate.Fate.TheVariants.{Done};
    ghost use Rattle.world_law.specs.Book.{BookState, longest_of};

    ghost Value = { BookState };

    ghost view = { λ book. record {
      members = book.members;
      turns = book.turns.items;
      letters = book.letters.items;
      ledger = book.ledger;
      arrived = book.arrived.items;
      pending = book.pending;
      room = record {
        turns = vec_capacity book.turns - vec_len book.turns;
        letters = vec_capacity book.letters - vec_len book.letters;
        arrivals = vec_capacity book.arrived - vec_len book.arrived;
      };
    } };

    ghost invariant = { λ book. (book.ledger.fate ≡ Done) × (book.longest ≡ longest_of book.letters.items) };
}

impl Book {
    /// A book without turns, of so many replicas. It stands for every table of jobs.
    pub fn new(alloc: Global, members: u8) -> Book
        ensures members { result.members ≡ members }
        ensures stands { (table : Table) → StandsBehind table [] result }
        ensures pending { result.pending ≡ None }
    {
        Book {
            members,
            turns: Vec::new(alloc),
            letters: Vec::new(alloc),
            longest: 0,
            ledger: Ledger::new(alloc),
            arrived: Vec::new(alloc),
            pending: None,
            alloc,
        }
    }

    /// The turns, in order.
    pub fn turns(&self) -> &[TurnRow]
        ensures { result.now ≡ self.now.turns }
    {
        self.turns.as_slice()
    }

    /// The letters, by number: in the order of their turns, and of one turn in the order of the replicas that they go to.
    pub fn letters(&self) -> &[LetterRow]
        ensures { result.now ≡ self.now.letters }
    {
        self.letters.as_slice()
    }

    /// How many bytes the longest letter has; none where there is no letter.
    pub fn longest(&self) -> usize
        ensures { result ≡ longest_of self.now.letters }
    {
        self.longest
    }

    /// The scheduler.
    pub fn ledger(&self) -> &Ledger
        ensures { result.now ≡ self.now.ledger }
    {
        &self.ledger
    }

    /// The numbers of the late calls that have arrived, in the order in which they did.
    pub fn arrived(&self) -> &[u32]
        ensures { result.now ≡ self.now.arrived }
    {
        self.arrived.as_slice()
    }

    /// Makes room for a turn with what came of its step, and for an arrival. Otherwise the book stays as it is, also without memory.
    pub fn reserve(&mut self, out: &StepOut) -> Result<(), OutOfMemory>
        ensures room { OnOk result (HasRoom (length out.now.letters) self.new) }
        ensures had_room { (letters : ℕ) → HasRoom letters self.old → HasRoom letters self.new }
        ensures same { IsSameBook self.new self.old }
    {
        self.turns.reserve(1)?;
        self.letters.reserve(out.letters.items.len())?;
        self.arrived.reserve(1)?;
        self.ledger.reserve()
    }

    /// Calls the scheduler for a step that asks for this row, as part of the turn that comes next: from then on the call is pending
    /// until that turn is added. Without memory the book stays as it is. The room that was made stays.
    pub fn call(
        &mut self,
        table: &JobTable,
        row: SchedRow,
        fate: Fate,
    ) -> Result<CallRow, OutOfMemory>
        requires rest { self.old.pending ≡ None }
        requires asks { MayTickFor table.now self.old row }
        ensures row { IfOk result (λ made. (made.row ≡ row) × (made.fate ≡ fate)) }
        ensures makes { IfOk result (λ made. MakesCall made self.old self.new) }
        ensures answer { IfOk result (λ made. (rows : List Row) → StandsBehind table.now rows self.old
            → IsMade (standing_behind table.now rows self.old).held (row ∷ []) (Some made)) }
        ensures stands { (rows : List Row) → StandsBehind table.now rows self.old → StandsBehind table.now rows self.new }
        ensures room { (letters : ℕ) → HasRoom letters self.old → HasRoom letters self.new }
        ensures err { OnErr result (IsSameBook self.new self.old) }
    {
        self.ask(row, fate)
    }

    // Calls the ledger, and keeps the call.
    fn ask(&mut self, row: SchedRow, fate: Fate) -> Result<CallRow, OutOfMemory>
        ensures row { IfOk result (λ made. (made.row ≡ row) × (made.fate ≡ fate)) }
        ensures makes { IfOk result (λ made. MakesCall made self.old self.new) }
        ensures err { OnErr result (IsSameBook self.new self.old) }
        ensures room { (letters : ℕ) → HasRoom letters self.old → HasRoom letters self.new }
    {
        let asked = CallRow {
            row,
            fate,
            answer: None,
        };
        let mut kept = CallBox::new(self.alloc, asked)?;
        let made = call_ledger(&mut self.ledger, row, fate)?;
        kept.set(made);
        self.pending = Some(kept);
        Ok(made)
    }

    /// Adds the turn that comes next, with what came of its step: of a stop the change that was kept, where one was, and of any other
    /// turn but a step nothing. This takes no memory.
    pub fn commit(&mut self, table: &JobTable, turn: Turn, out: StepOut)
        requires next { IsNext table.now self.old turn out }
        requires call { self.old.pending ≡ call_of turn }
        requires room { HasRoom (length out.letters) self.old }
        ensures commits { Commits turn out.letters self.old self.new }
        ensures stands { (rows : List Row) (row : Row) → StandsBehind table.now rows self.old → IsRowOf turn out row
            → MayFollow self.old.members table.now (standing_behind table.now rows self.old) row.turn row
            → StandsBehind table.now (rows ++ row ∷ []) self.new }
        ensures legal { IsLegalBook table.now self.new }
    {
        self.add(turn, out);
    }

    // Adds a turn and the letters of its step; a late call arrives with its turn.
    fn add(&mut self, turn: Turn, out: StepOut)
        requires call { self.old.pending ≡ call_of turn }
        requires room { HasRoom (length out.letters) self.old }
        ensures { Commits turn out.letters self.old self.new }
    {
        let number = self.turns.len() as u64;
        match turn {
            Turn::Did { who, .. } | Turn::Stopped { who, .. } | Turn::Restarted { who } => {
                post(
                    &mut self.letters,
                    &mut self.longest,
                    who,
                    number,
                    out.letters,
                );
            }
            Turn::Arrived { late } => {
                arrive(&mut self.ledger, late);
                put_arrival(&mut self.arrived, late);
            }
        }
        let call = self.pending.take();
        put_turn(&mut self.turns, TurnRow::new(turn, call));
    }
}

// Adds a turn, for which there is room.
fn put_turn(turns: &mut Vec<TurnRow>, turn: TurnRow)
    requires { vec_len turns.old < vec_capacity turns.old }
    ensures { turns.new.items ≡ turns.old.items ++ turn ∷ [] }
{
    match turns.push(turn) {
        Ok(()) => {}
        Err(_) => unreachable!(),
    }
}

// Adds the number of a late call that arrives, for which there is room.
fn put_arrival(arrived: &mut Vec<u32>, late: u32)
    requires { vec_len arrived.old < vec_capacity arrived.old }
    ensures { arrived.new.items ≡ arrived.old.items ++ late ∷ [] }
{
    match arrived.push(late) {
        Ok(()) => {}
        Err(_) => unreachable!(),
    }
}

// Lets a late call arrive at the ledger, which has room for its row.
fn arrive(ledger: &mut Ledger, late: u32)
    requires { 0 < ledger.old.spare }
    ensures held { ledger.new.held ≡ arriving (late_call late ledger.old.late) ledger.old.held }
    ensures late { ledger.new.late ≡ ledger.old.late }
    ensures fate { ledger.new.fate ≡ ledger.old.fate }
{
    match ledger.arrive(late) {
        Ok(_) => {}
        Err(_) => unreachable!(),
    }
}

// Calls a ledger for a row, and lets this become of the call.
fn call_ledger(ledger: &mut Ledger, row: SchedRow, fate: Fate) -> Result<CallRow, OutOfMemory>
    requires { ledger.old.fate ≡ Done }
    ensures row { IfOk result (λ made. (made.row ≡ row) × (made.fate ≡ fate)) }
    ensures called { IfOk result (λ made. HasCalled made ledger.old ledger.new) }
    ensures err { OnErr result (IsUnchanged ledger.old ledger.new × (ledger.old.spare ≤ ledger.new.spare)) }
    ensures fate { ledger.new.fate ≡ Done }
{
    ledger.arm(fate);
    match call_by_name(ledger, row) {
        Ok(first) => Ok(CallRow {
            row,
            fate,
            answer: Some(first),
        }),
        Err(CallFault::Failed) => Ok(CallRow {
            row,
            fate,
            answer: None,
        }),
        Err(CallFault::OutOfMemory) => {
            ledger.arm(Fate::Done);
            Err(OutOfMemory)
        }
    }
}

// Adds a letter, for which there is room; from then on the longest is known with it.
fn put_letter(letters: &mut Vec<LetterRow>, longest: &mut usize, letter: LetterRow)
    requires { vec_len letters.old < vec_capacity letters.old }
    ensures items { letters.new.items ≡ letters.old.items ++ letter ∷ [] }
    ensures len { vec_len letters.new ≡ vec_len letters.old + 1 }
    ensures capacity { vec_capacity letters.old ≤ vec_capacity letters.new }
    ensures most { longest.new ≡ max longest.old (length letter.bytes) }
{
    *longest = (*longest).max(letter.bytes.bytes().len());
    match letters.push(letter) {
        Ok(()) => {}
        Err(_) => unreachable!(),
    }
}

// Adds the letters of a step, for which there is room.
fn post(letters: &mut Vec<LetterRow>, longest: &mut usize, from: u8, turn: u64, posted: LetterList)
    requires room { vec_len letters.old + length posted ≤ vec_capacity letters.old }
    requires most { longest.old ≡ longest_of letters.old.items }
    ensures items { letters.new.items ≡ letters.old.items ++ letter_rows (Some from) turn posted }
    ensures most { longest.new ≡ longest_of letters.new.items }
{
    for letter in posted.items {
        put_letter(
            letters,
            longest,
            LetterRow {
                from,
                to: letter.to,
                turn,
                bytes: letter.bytes,
            },
        );
    }
}
