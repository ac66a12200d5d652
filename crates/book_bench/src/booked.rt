//! A replica that stands for leader again and again, and the book of its turns.
use crate::fault::BenchFault;
use due_set::JobTable;
use history::{Cause, Turn};
use launch_machine::Machine;
use paxos_base::{Durable, VoteList};
use replica_core::{Input, Replica};
use std::alloc::Global;
use std::marker::Model;
use world_law::Book;

// How many replicas there are.
const MEMBERS: u8 = 2;

/// The first of two replicas, with its table of jobs, and the book of its turns. The other one does nothing.
#[derive(Debug, Drop)]
pub struct BookedReplica<'a> {
    table: &'a JobTable,
    replica: Replica,
    book: Book,
}

impl<'a> Model for BookedReplica<'a> {
    ghost use Rattle.book_bench.specs.Booked.{BookedState, IsAsBooked};

    ghost Value = { BookedState };

    ghost view = { λ booked. record { table = booked.table.now; replica = booked.replica; book = booked.book } };

    ghost invariant = { λ booked. IsAsBooked (record { table = booked.table.now; replica = booked.replica; book = booked.book }) };
}

impl<'a> BookedReplica<'a> {
    /// The replica before its first step, with a book without turns.
    pub fn start(alloc: Global, table: &'a JobTable) -> Result<BookedReplica<'a>, BenchFault> {
        let durable = Durable {
            tried: 0,
            promised: None,
            votes: VoteList {
                items: Vec::new(alloc),
            },
            base: 0,
            rows: Machine::new(alloc, table)?.copy_rows(alloc)?,
        };
        let replica = Replica::start(0, MEMBERS, table, durable)?;
        let book = Book::new(alloc, MEMBERS);
        Ok(BookedReplica {
            table,
            replica,
            book,
        })
    }

    /// The replica stands for leader, which posts a letter to the other one, and the turn joins the book. Where there is
    /// no memory for that, the replica is dropped with its book, so that none is left with a step that the book lacks.
    pub fn campaign(self) -> Result<BookedReplica<'a>, BenchFault> {
        let BookedReplica {
            table,
            mut replica,
            mut book,
        } = self;
        if !replica.is_small() {
            return Err(BenchFault::NoStep);
        }
        let Ok(out) = replica.step(table, Input::Campaign) else {
            return Err(BenchFault::RefusedStep);
        };
        book.reserve(&out)?;
        let turn = Turn::Did {
            who: 0,
            cause: Cause::Campaign,
            call: None,
        };
        book.commit(table, turn, out);
        Ok(BookedReplica {
            table,
            replica,
            book,
        })
    }

    /// The book.
    pub fn book(&self) -> &Book {
        &self.book
    }
}
