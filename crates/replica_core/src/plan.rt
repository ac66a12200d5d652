//! What is done at an input.
ghost use Rattle.std.specs.Prelude.{◌≡◌, IfOk, OnOk};
ghost use Rattle.std.specs.Option.{option_map};
ghost use Rattle.paxos_letter.specs.Letters.{letter_fault_of};
ghost use Rattle.due_set.specs.Table.{Table};
ghost use Rattle.launch_machine.specs.Machine.{StandsFor};
ghost use Rattle.step_spec.specs.Step.{Event, step};
ghost use Rattle.replica_draft.specs.Draft.{delta_of};
ghost use Rattle.replica_draft.specs.Letters.{AreLettersFrom};
ghost use Rattle.replica_core.specs.Replica.{IsAlikeCore, IsUntouched, IsDraftReady, IsSmall, IsWhole, own_identity, replica_of_core, state_of};
ghost use Rattle.replica_core.specs.Step.{CanTake, HearsLetter, IsInputInside, IsOfTable, MakesStep, PlansStep, fault_in, fault_told};
ghost use Rattle.replica_core.specs.declared.input.Input.{Input};

use crate::bounds::is_small_letter;
use crate::input::{Input, StepFault};
use crate::out::Effects;
use crate::parts::Core;
use cron_io::OutOfMemory;
use due_set::JobTable;
use launch_machine::table_size;
use paxos_base::Delta;
use paxos_letter::Letter;
use replica_draft::{Draft, LetterList, write_letters};

// What a draft changes on the disk.
fn delta_of(draft: &Draft) -> Result<Option<Delta>, OutOfMemory>
    ensures { IfOk result (λ delta. delta ≡ option_map delta_of draft.now.change) }
{
    match &draft.change {
        Some(change) => Ok(Some(change.delta()?)),
        None => Ok(None),
    }
}

impl Core {
    // Does what an input asks for, in a draft in which nothing was done yet.
    fn draft(&self, table: &JobTable, draft: &mut Draft, input: Input<'_>) -> Result<(), StepFault>
        requires idle { IsUntouched self.now draft.old }
        requires whole { IsWhole self.now }
        requires small { IsSmall (state_of self.now) self.now.machine.rows }
        requires stands { StandsFor table.now self.now.machine }
        requires inside { IsInputInside table.now input }
        ensures makes { OnOk result (MakesStep table.now input.entry self.now draft.new) }
        ensures ready { OnOk result (IsDraftReady table.now self.now draft.new) }
        ensures fault { fault_told result ≡ fault_in self.now.members input.entry }
    {
        match input {
            Input::Campaign => Ok(self.campaign(draft)?),
            Input::Tick { now } => Ok(self.tick(table, draft, now)?),
            Input::Hear { bytes } => self.hear_letter(table, draft, bytes),
            Input::Answer { job, at, kind } => Ok(self.answer(table, draft, job, at, kind)?),
        }
    }

    // Reads a letter and hears it. One beyond the bounds is heard as one without packets.
    fn hear_letter(
        &self,
        table: &JobTable,
        draft: &mut Draft,
        bytes: &[u8],
    ) -> Result<(), StepFault>
        requires idle { IsUntouched self.now draft.old }
        requires whole { IsWhole self.now }
        requires small { IsSmall (state_of self.now) self.now.machine.rows }
        ensures makes { OnOk result (HearsLetter table.now bytes.now self.now draft.new) }
        ensures ready { OnOk result (IsDraftReady table.now self.now draft.new) }
        ensures fault { fault_told result ≡ letter_fault_of self.now.members bytes.now }
    {
        let letter = Letter::read(bytes, self.members)?;
        if is_small_letter(table_size(table), &letter) {
            self.hear_all(table, draft, &letter)?;
        }
        Ok(())
    }

    /// Plans a step in a draft in which nothing was done yet, and makes the room that it needs.
    pub fn prepare(
        &mut self,
        table: &JobTable,
        draft: &mut Draft,
        input: Input<'_>,
    ) -> Result<Effects, StepFault>
        requires idle { IsUntouched self.old draft.old }
        requires whole { IsWhole self.old }
        requires small { IsSmall (state_of self.old) self.old.machine.rows }
        requires of_table { IsOfTable table.now (replica_of_core self.old) }
        requires inside { IsInputInside table.now input }
        ensures alike { IsAlikeCore self.new self.old }
        ensures planned { IfOk result (λ effects. PlansStep table.now input.entry (replica_of_core self.old)
            (record { draft = draft.new; effects = effects })) }
        ensures can { IfOk result (λ effects. CanTake table.now (replica_of_core self.new) (record { draft = draft.new; effects = effects })) }
        ensures fault { fault_told result ≡ fault_in self.old.members input.entry }
    {
        self.draft(table, draft, input)?;
        let delta = delta_of(draft)?;
        let letters = self.letters(draft)?;
        self.reserve(draft)?;
        Ok(Effects { delta, letters })
    }

    // The letters of a draft.
    fn letters(&self, draft: &Draft) -> Result<LetterList, OutOfMemory>
        requires whole { IsWhole self.now }
        requires made { (table : Table) × (input : Input) × IsOfTable table (replica_of_core self.now) × MakesStep table input self.now draft.now }
        ensures letters { IfOk result (λ letters. (table : Table) (input : Input) → IsOfTable table (replica_of_core self.now)
            → (made : MakesStep table input self.now draft.now)
            → AreLettersFrom (own_identity self.now) (step (own_identity self.now) made.event (state_of self.now)) letters) }
    {
        write_letters(self.alloc, self.me, self.members, draft.sends.as_slice())
    }
}
