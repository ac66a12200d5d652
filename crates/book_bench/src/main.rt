//! Measures what a book costs: the first of two replicas stands for leader again and again, so that each turn posts
//! one letter, and each turn joins the book. Proved is that it is safe and adds only turns that may come next: the
//! replica is always as its book says (`IsAsBooked`), so that the book is legal. What the book has goes to standard
//! output, and how many turns were taken in a second of the processor to standard error.
#![tactic(auto)]

mod booked;
mod fault;

use crate::booked::BookedReplica;
use crate::fault::BenchFault;
use due_set::JobTable;
use std::alloc::Global;
use std::env;
use std::time::{CpuClock, Duration};
use world_law::{Book, LetterRow};
use zone_minutes::{Minute, Window};

// How many turns there are where no word says it.
const TURNS: u32 = 100_000;

// The hour from 2024-03-31T00:00Z on.
const HOUR: Window = Window {
    from: Minute(28_530_720),
    until: Minute(28_530_780),
};

fn main(rt: HostRuntime) -> Result<(), BenchFault> {
    let alloc = rt.alloc();
    let turns = turns_of(env::args(&rt)?.nth(1))?;
    let table = JobTable::in_utc(alloc, HOUR, 10, Vec::new(alloc))?;
    measure(&rt, &table, turns)
}

// Measures so many turns of a replica of the table.
fn measure(rt: &HostRuntime, table: &JobTable, turns: u32) -> Result<(), BenchFault> {
    let start = rt.thread_cpu_time()?;
    let booked = campaigns(rt.alloc(), table, turns)?;
    tell(rt, booked.book(), start)
}

// Tells what a book has, and how many of its turns were taken in a second since the start.
fn tell(rt: &HostRuntime, book: &Book, start: Duration) -> Result<(), BenchFault> {
    let took = rt.thread_cpu_time()?.saturating_sub(start);
    let (turns, letters) = (book.turns().len(), book.letters().len());
    let bytes = bytes_of(book.letters());
    println!(rt; "{turns} turns, {letters} letters of {bytes} bytes")?;
    let rate = rate(turns as u64, took);
    eprintln!(rt; "{rate} turns a second")?;
    Ok(())
}

// The number of turns that the program's word says.
fn turns_of(word: Option<String>) -> Result<u32, BenchFault> {
    let Some(word) = word else {
        return Ok(TURNS);
    };
    match word.parse::<u32>() {
        Ok(turns) => Ok(turns),
        Err(_) => Err(BenchFault::NoNumber),
    }
}

// A replica that has stood for leader so many times, and its book.
fn campaigns<'a>(
    alloc: Global,
    table: &'a JobTable,
    turns: u32,
) -> Result<BookedReplica<'a>, BenchFault> {
    let mut booked = BookedReplica::start(alloc, table)?;
    for _ in 0..turns {
        booked = booked.campaign()?;
    }
    Ok(booked)
}

// How many bytes some letters have.
fn bytes_of(letters: &[LetterRow]) -> u64 {
    let mut bytes = 0_u64;
    for letter in letters {
        bytes = bytes.saturating_add(letter.bytes.bytes().len() as u64);
    }
    bytes
}

// How many in a second.
fn rate(count: u64, took: Duration) -> u64 {
    let micros = u64::try_from(took.as_micros()).unwrap_or(u64::MAX);
    count.saturating_mul(1_000_000) / micros.max(1)
}
