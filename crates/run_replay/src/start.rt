//! A replay before any turn.
ghost use Rattle.std.specs.Prelude.{◌≡◌, ◌<◌, ◌≤◌, [], IfOk};
ghost use Rattle.agreement.specs.World.{fresh};
ghost use Rattle.launch_machine.specs.Clerk.{first_rows};
ghost use Rattle.script_semantics.specs.Situation.{first_situation};
ghost use Rattle.run_replay.specs.Replay.{IsReplayAt};
ghost use Rattle.run_replay.specs.Start.{AreFreshSeats, AreFreshSettings, IsFreshSeat, IsFreshSetting};

use crate::replay::{Replay, Seat, Setting};
use cluster_sched::Fate;
use cron_io::OutOfMemory;
use due_set::JobTable;
use launch_machine::table_size;
use paxos_base::{Durable, RowList, VoteList};
use replica_core::Replica;
use std::alloc::Global;
use std::collections::VecDeque;
use world_law::Book;

// What a replica keeps before it has done anything.
fn fresh_kept(alloc: Global, table: &JobTable) -> Result<Durable, OutOfMemory>
    ensures { IfOk result (λ kept. kept ≡ fresh (first_rows table.now)) }
{
    let rows = RowList::fresh(alloc, table_size(table))?;
    Ok(Durable {
        tried: 0,
        promised: None,
        votes: VoteList {
            items: Vec::new(alloc),
        },
        base: 0,
        rows,
    })
}

// A replica that starts for the first time.
fn fresh_seat(alloc: Global, table: &JobTable, me: u8, members: u8) -> Result<Seat, OutOfMemory>
    requires me { me < members }
    requires few { members ≤ 7 }
    ensures { IfOk result (λ seat. IsFreshSeat table.now members me seat) }
{
    let kept = fresh_kept(alloc, table)?;
    let first = fresh_kept(alloc, table)?;
    let replica = Replica::start(me, members, table, first)?;
    Ok(Seat {
        kept,
        replica: Some(replica),
    })
}

// All replicas, as they start for the first time.
fn fresh_seats(alloc: Global, table: &JobTable, members: u8) -> Result<Vec<Seat>, OutOfMemory>
    requires few { members ≤ 7 }
    ensures { IfOk result (λ seats. AreFreshSeats table.now members members seats.items) }
{
    let mut seats: Vec<Seat> = Vec::new(alloc);
    'members: for me in 0..members {
        let seat = fresh_seat(alloc, table, me, members)?;
        seats.push(seat)?;
    }
    Ok(seats)
}

// What is set for a replica at first: nothing.
fn fresh_setting(alloc: Global) -> Setting
    ensures { IsFreshSetting result }
{
    Setting {
        mail: VecDeque::new(alloc),
        skew: 0,
        fate: Fate::Done,
        waits: None,
        arm: None,
        second_area: false,
    }
}

// What is set for all of them at first.
fn fresh_settings(alloc: Global, members: u8) -> Result<Vec<Setting>, OutOfMemory>
    ensures { IfOk result (λ settings. AreFreshSettings members settings.items) }
{
    let mut settings: Vec<Setting> = Vec::new(alloc);
    'members: for _member in 0..members {
        settings.push(fresh_setting(alloc))?;
    }
    Ok(settings)
}

impl Replay {
    /// A run of so many replicas before any turn.
    ///
    /// # Errors
    ///
    /// Want of memory.
    pub fn start(alloc: Global, members: u8, table: &JobTable) -> Result<Replay, OutOfMemory>
        requires some { 0 < members }
        requires few { members ≤ 7 }
        ensures starts { IfOk result (λ replay. IsReplayAt table.now [] replay (first_situation members table.now)) }
        ensures members { IfOk result (λ replay. replay.book.members ≡ members) }
    {
        let seats = fresh_seats(alloc, table, members)?;
        let settings = fresh_settings(alloc, members)?;
        let book = Book::new(alloc, members);
        let cuts = Vec::new(alloc);
        let window = table.window();
        Ok(Replay {
            alloc,
            book,
            seats,
            settings,
            cuts,
            latest: window.from,
        })
    }
}
