//! Some replicas, and the book of what they do.
ghost use Rattle.std.specs.Prelude.{IfOk, OnOk};
ghost use Rattle.world_tests.specs.Scene.{AreNew, IsLegalScene};

use crate::seat::{Seat, first_seat};
use crate::turn::{arrive, take_turn};
use due_set::JobTable;
use history::Turn;
use std::alloc::Global;
use std::process::Abort;
use std::test::*;
use world_law::Book;

/// Some replicas, by number, and the book of their turns.
#[derive(Drop)]
pub struct Scene {
    pub book: Book,
    pub seats: Vec<Seat>,
}

// So many replicas that start for the first time.
fn first_seats(
    rt: &impl Abort,
    alloc: Global,
    table: &JobTable,
    members: u8,
) -> Result<Vec<Seat>, Fail>
    ensures { IfOk result (λ seats. AreNew table.now members seats.items) }
{
    let mut seats = Vec::new(alloc);
    for who in 0..members {
        seats.push(first_seat(rt, alloc, table, who, members)?)?;
    }
    Ok(seats)
}

/// So many replicas that have done nothing, seven at most.
pub fn begin(rt: &impl Abort, alloc: Global, table: &JobTable, members: u8) -> Result<Scene, Fail>
    ensures { IfOk result (λ scene. IsLegalScene table.now scene.book scene.seats.items) }
{
    assert!(rt; members <= 7);
    let seats = first_seats(rt, alloc, table, members)?;
    let book = Book::new(alloc, members);
    Ok(Scene { book, seats })
}

// A turn, which the book gains.
fn play_turn(
    rt: &impl Abort,
    alloc: Global,
    table: &JobTable,
    scene: &mut Scene,
    turn: Turn,
) -> Result<(), Fail>
    requires { IsLegalScene table.now scene.old.book scene.old.seats.items }
    ensures { OnOk result (IsLegalScene table.now scene.new.book scene.new.seats.items) }
{
    match turn {
        Turn::Did { who, .. } | Turn::Stopped { who, .. } | Turn::Restarted { who } => {
            match scene.seats.get_mut(who as usize) {
                Some(seat) => take_turn(rt, alloc, table, &mut scene.book, seat, who, turn),
                None => Err("no such replica")?,
            }
        }
        Turn::Arrived { late } => arrive(rt, alloc, table, &mut scene.book, late),
    }
}

/// The turns, one after another.
pub fn play(
    rt: &impl Abort,
    alloc: Global,
    table: &JobTable,
    scene: &mut Scene,
    turns: &[Turn],
) -> Result<(), Fail>
    requires { IsLegalScene table.now scene.old.book scene.old.seats.items }
    ensures { OnOk result (IsLegalScene table.now scene.new.book scene.new.seats.items) }
{
    for turn in turns {
        play_turn(rt, alloc, table, scene, *turn)?;
    }
    Ok(())
}
