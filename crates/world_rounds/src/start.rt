//! A world before any turn.
ghost use Rattle.std.specs.Prelude.{◌≡◌, ◌<◌, ◌≤◌, [], ℕ, List, IfOk, Contains, length};
ghost use Rattle.history.specs.Book.{Row};
ghost use Rattle.due_set.specs.Table.{Table};
ghost use Rattle.script_semantics.specs.Situation.{Situation, first_situation};
ghost use Rattle.world_law.specs.Book.{BookState};
ghost use Rattle.world_steps.specs.Nodes.{AreNodesOf};
ghost use Rattle.world_rounds.specs.Start.{IsFreshMember, IsFreshDisk};
ghost use Rattle.world_rounds.specs.World.{IsWorldAt, book_of};

use crate::member::Member;
use crate::rooms::PartsRoom;
use crate::world::World;
use cluster_sched::Fate;
use cron_io::OutOfMemory;
use disk_model::Disk;
use due_set::JobTable;
use replica_node::Node;
use std::alloc::Global;
use std::collections::VecDeque;
use world_law::Book;
use world_steps::{MemberMail, memory_of};

// A replica that starts on an empty disk.
fn start_member<D: Disk>(
    alloc: Global,
    table: &JobTable,
    me: u8,
    members: u8,
    disk: D,
) -> Result<Member<D>, OutOfMemory>
    requires me { me < members }
    requires few { members ≤ 7 }
    requires fresh { IsFreshDisk D.view disk }
    ensures { IfOk result (λ member. IsFreshMember D.view table.now members me member) }
{
    match Node::recover(alloc, me, members, table, disk) {
        Ok(node) => Ok(Member {
            node,
            mail: MemberMail {
                runs: true,
                letters: VecDeque::new(alloc),
                skew: 0,
                fate: Fate::Done,
                waits: None,
                arm: None,
            },
            steps: Vec::new(alloc),
            short: false,
        }),
        Err((_disk, fault)) => Err(memory_of(fault)),
    }
}

impl<D: Disk> World<D> {
    /// A world of so many replicas, each on one of these disks, before any turn. Each disk is honest, empty, neither armed nor
    /// stopped, and one that can't fail.
    ///
    /// # Errors
    ///
    /// Want of memory.
    pub fn new(
        alloc: Global,
        table: &JobTable,
        members: u8,
        disks: Vec<D>,
    ) -> Result<World<D>, OutOfMemory>
        requires few { members ≤ 7 }
        requires count { length disks.items ≡ members }
        requires fresh { (disk : D) → Contains disks.items disk → IsFreshDisk D.view disk }
        ensures starts { IfOk result (λ world. IsWorldAt D.view table.now [] world (first_situation members table.now)) }
        ensures members { IfOk result (λ world. (book_of world).members ≡ members) }
    {
        let mut started: Vec<Member<D>> = Vec::new(alloc);
        'disks: for disk in disks {
            let me = started.len() as u8;
            let member = start_member(alloc, table, me, members, disk)?;
            started.push(member)?;
        }
        let book = Book::new(alloc, members);
        let cuts = Vec::new(alloc);
        let room = PartsRoom::new(alloc)?;
        let window = table.window();
        Ok(World {
            alloc,
            book,
            members: started,
            cuts,
            latest: window.from,
            room,
        })
    }

    /// The book of its turns.
    pub fn book(&self) -> &Book
        ensures { result.now ≡ book_of self.now }
    {
        &self.book
    }

    /// The book of its turns, and the nodes of its replicas in the order of their numbers, when no more of it is wanted. It
    /// takes no memory.
    pub fn into_book(self) -> (Book, Vec<Node<D>>)
        ensures book { result.0 ≡ book_of self }
        ensures nodes { (table : Table) (rows : List Row) (situation : Situation) → IsWorldAt D.view table rows self situation
            → AreNodesOf D.view table rows (book_of self) result.1.items }
    {
        let World {
            book,
            mut members,
            room,
            ..
        } = self;
        let (nodes, _mails) = room.take(&mut members);
        (book, nodes)
    }
}
