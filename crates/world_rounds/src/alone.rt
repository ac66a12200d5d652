//! Turns that are no steps: a replica stops or starts again, a late call arrives.
ghost use Rattle.std.specs.Prelude.{◌≡◌, ◌<◌, ◌≤◌, IfOk, ◌&&◌, ℕ, List, OnOk, OnErr, length, nat_lt, not};
ghost use Rattle.history.specs.Book.{Row};
ghost use Rattle.replica_node.specs.Node.{IsNodeAtRest, disk_of};
ghost use Rattle.replica_node.specs.Reliable.{IsReliable};
ghost use Rattle.script_semantics.specs.Commands.{has_number};
ghost use Rattle.script_semantics.specs.Script.{IsPartOf};
ghost use Rattle.script_text.specs.declared.command.Command.TheVariants as command;
ghost use Rattle.world_law.specs.Book.{IsLegalBook};
ghost use Rattle.world_rounds.specs.Alone.{HasJoinedAlone, HasStartedAgain, IsAlone};
ghost use Rattle.world_rounds.specs.World.{GoesOnBy, IsWorld, book_of};

use crate::member::Member;
use crate::world::World;
use cron_io::OutOfMemory;
use disk_model::Disk;
use due_set::JobTable;
use history::Turn;
use paxos_base::Delta;
use replica_node::Node;
use std::alloc::Global;
use world_law::Book;
use world_steps::{change_alone, memory_of, note_stop};

// A turn that is no step joins the book, with the change that was kept, where one was.
pub(crate) fn commit_alone(
    alloc: Global,
    book: &mut Book,
    table: &JobTable,
    turn: Turn,
    change: Option<Delta>,
) -> Result<(), OutOfMemory>
    requires alone { (rows : List Row) × (row : Row) × IsAlone table.now rows book.old turn change row }
    ensures joins { OnOk result ((rows : List Row) (row : Row) → IsAlone table.now rows book.old turn change row
        → HasJoinedAlone table.now rows book.old book.new row) }
    ensures legal { OnErr result (IsLegalBook table.now book.new) }
{
    let out = change_alone(alloc, change);
    book.reserve(&out)?;
    book.commit(table, turn, out);
    Ok(())
}

// Whether a late call of this number has not arrived.
fn may_arrive(book: &Book, late: u32) -> bool
    ensures { result ≡ (nat_lt late (length book.now.ledger.late) && not (has_number late book.now.arrived)) }
{
    (late as usize) < book.ledger().late().len() && !book.arrived().contains(&late)
}

// A replica that was stopped starts again with what its disk keeps.
fn start_again<D: Disk>(
    alloc: Global,
    table: &JobTable,
    who: u8,
    members: u8,
    stopped: Member<D>,
) -> Result<Member<D>, OutOfMemory>
    requires me { who < members }
    requires few { members ≤ 7 }
    requires at_rest { IsNodeAtRest D.view table.now stopped.node }
    requires trusted { D.view.honest (disk_of stopped.node) }
    requires reliable { IsReliable (D.view.told (disk_of stopped.node)) }
    ensures { IfOk result (λ started. HasStartedAgain D.view table.now members who stopped started) }
{
    let Member {
        node,
        mut mail,
        steps,
        short,
    } = stopped;
    match Node::recover(alloc, who, members, table, node.into_disk()) {
        Ok(node) => {
            mail.runs = true;
            Ok(Member {
                node,
                mail,
                steps,
                short,
            })
        }
        Err((_disk, fault)) => Err(memory_of(fault)),
    }
}

impl<D: Disk> World<D> {
    // A replica stops, if it runs: it loses its mail and the answer that waits for it, and its disk isn't armed any more.
    pub(crate) fn stop(&mut self, table: &JobTable, who: u8) -> Result<(), OutOfMemory>
        requires world { IsWorld D.view table.now self.old }
        requires member { who < length self.old.members.items }
        ensures goes { OnOk result (GoesOnBy D.view table.now (IsPartOf (book_of self.old).members table.now (command.Stop who)) self.old self.new) }
        ensures members { OnOk result ((book_of self.new).members ≡ (book_of self.old).members) }
        ensures legal { OnErr result (IsLegalBook table.now (book_of self.new)) }
    {
        if !self.members[who as usize].mail.runs {
            return Ok(());
        }
        let turn = Turn::Stopped {
            who,
            cause: None,
            kept: false,
        };
        commit_alone(self.alloc, &mut self.book, table, turn, None)?;
        note_stop(&mut self.members[who as usize].mail);
        Ok(())
    }

    // A replica that is stopped starts again with what its disk keeps.
    pub(crate) fn restart(&mut self, table: &JobTable, who: u8) -> Result<(), OutOfMemory>
        requires world { IsWorld D.view table.now self.old }
        requires member { who < length self.old.members.items }
        ensures goes { OnOk result (GoesOnBy D.view table.now (IsPartOf (book_of self.old).members table.now (command.Restart who)) self.old self.new) }
        ensures members { OnOk result ((book_of self.new).members ≡ (book_of self.old).members) }
        ensures legal { OnErr result (IsLegalBook table.now (book_of self.new)) }
    {
        if self.members[who as usize].mail.runs {
            return Ok(());
        }
        let members = self.members.len() as u8;
        let stopped = self.members.remove(who as usize);
        let started = start_again(self.alloc, table, who, members, stopped)?;
        self.members.insert(who as usize, started)?;
        commit_alone(
            self.alloc,
            &mut self.book,
            table,
            Turn::Restarted { who },
            None,
        )
    }

    // A late call arrives, if there is one of this number that has not.
    pub(crate) fn arrive(&mut self, table: &JobTable, late: u32) -> Result<(), OutOfMemory>
        requires world { IsWorld D.view table.now self.old }
        ensures goes { OnOk result (GoesOnBy D.view table.now (IsPartOf (book_of self.old).members table.now (command.Arrive late)) self.old self.new) }
        ensures members { OnOk result ((book_of self.new).members ≡ (book_of self.old).members) }
        ensures legal { OnErr result (IsLegalBook table.now (book_of self.new)) }
    {
        if !may_arrive(&self.book, late) {
            return Ok(());
        }
        commit_alone(
            self.alloc,
            &mut self.book,
            table,
            Turn::Arrived { late },
            None,
        )
    }
}
