//! The jobs of threads, from the parts of a world, and the parts from the jobs.
ghost use Rattle.std.specs.Prelude.{◌≡◌, ◌≤◌, ℕ, false, Some, IfOk, OnOk, length, map, slice_get, vec_capacity};
ghost use Rattle.world_free.specs.Parts.{AreJobsOf, AreKept, mail_in, mail_of, node_in, seat_in};
ghost use Rattle.world_free.specs.declared.job.FreeJob.{FreeJob as Work};

use crate::job::{FreeJob, FreeMail};
use cron_io::OutOfMemory;
use disk_model::Disk;
use replica_node::Node;
use std::alloc::Global;
use turn_book::TurnSeat;
use world_law::{Book, LetterRow};
use world_steps::MemberMail;

/// The replicas that a world has at most: its lists have room for so many.
pub(crate) const MOST_MEMBERS: usize = 7;

/// The mails of replicas as their threads keep them, which have looked at all letters.
pub(crate) fn mails_kept(
    alloc: Global,
    letters: &[LetterRow],
    mails: Vec<MemberMail>,
) -> Result<Vec<FreeMail>, OutOfMemory>
    ensures mails { IfOk result (λ kept. map mail_of kept.items ≡ mails.items) }
    ensures kept { IfOk result (λ kept. AreKept letters.now kept.items) }
{
    let mut kept = Vec::new(alloc);
    'mails: for mail in mails {
        let mut free = FreeMail {
            mail,
            looked: letters.len() as u64,
            bytes: Vec::new(alloc),
        };
        free.keep_bytes(letters, &[])?;
        kept.push(free)?;
    }
    Ok(kept)
}

/// A job for each replica.
pub(crate) fn jobs_of<D: Disk>(
    alloc: Global,
    mut nodes: Vec<Node<D>>,
    mut mails: Vec<FreeMail>,
    seats: Vec<TurnSeat<Book>>,
) -> Result<Vec<FreeJob<D>>, OutOfMemory>
    requires nodes { length nodes.items ≡ length seats.items }
    requires mails { length mails.items ≡ length seats.items }
    ensures jobs { IfOk result (λ jobs. AreJobsOf nodes.items mails.items seats.items jobs.items) }
    ensures memory { IfOk result (λ jobs. (who : ℕ) (job : Work D) → slice_get jobs.items who ≡ Some job → job.short ≡ false) }
{
    let mut jobs = Vec::new(alloc);
    'seats: for seat in seats {
        let node = nodes.remove(0);
        let mail = mails.remove(0);
        jobs.push(FreeJob {
            node,
            seat,
            mail,
            short: false,
        })?;
    }
    Ok(jobs)
}

/// What the jobs had: nodes, mails and seats.
pub(crate) fn parts_of<D: Disk>(
    alloc: Global,
    jobs: Vec<FreeJob<D>>,
) -> Result<(Vec<Node<D>>, Vec<FreeMail>, Vec<TurnSeat<Book>>), OutOfMemory>
    ensures jobs { IfOk result (λ parts. AreJobsOf parts.0.items parts.1.items parts.2.items jobs.items) }
    ensures room { IfOk result (λ parts. 7 ≤ vec_capacity parts.0) }
{
    let mut nodes = Vec::with_capacity(alloc, MOST_MEMBERS)?;
    let mut mails = Vec::new(alloc);
    let mut seats = Vec::new(alloc);
    'jobs: for job in jobs {
        let FreeJob {
            node,
            seat,
            mail,
            ..
        } = job;
        nodes.push(node)?;
        mails.push(mail)?;
        seats.push(seat)?;
    }
    Ok((nodes, mails, seats))
}

/// Want of memory, where it has ended the turns of a thread.
pub(crate) fn had_memory<D: Disk>(jobs: &[FreeJob<D>]) -> Result<(), OutOfMemory>
    ensures { OnOk result ((who : ℕ) (job : Work D) → slice_get jobs.now who ≡ Some job → job.short ≡ false) }
{
    'jobs: for job in jobs {
        if job.short {
            return Err(OutOfMemory);
        }
    }
    Ok(())
}
