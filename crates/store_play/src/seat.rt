//! Who has the disk, and what each command does to it.
use crate::attached::Attached;
use crate::bare::{Bare, Owner};
use crate::command::{Command, Told};
use crate::hour::Tables;
use crate::running::{Halted, Running};
use crate::text::Text;
use disk_model::ArmedDisk;
use paxos_base::Delta;

/// Who has the disk.
#[derive(Drop)]
pub enum Seat<'a> {
    /// There is no disk yet.
    Empty,
    Bare(Bare<'a>),
    Attached(Attached<'a>),
    Running(Running<'a>),
    Halted(Halted<'a>),
}

impl<'a> Seat<'a> {
    /// Carries a command out, and writes what comes of it.
    pub fn run(self, tables: &'a Tables, command: Command, text: &mut Text) -> Seat<'a> {
        match command {
            Command::Disk { member, jobs } => Seat::Bare(Bare::new(Owner {
                alloc: tables.alloc(),
                table: tables.of(jobs),
                member,
            })),
            Command::Arm { pass, image } => self.arm(pass, image, text),
            Command::Disarm => self.disarm(text),
            Command::Stop => self.stop(text),
            Command::Revive => self.revive(text),
            Command::Files => self.put_files(text),
            Command::Attach => self.attach(text),
            Command::Keeps => self.put_kept(text),
            Command::Save(delta) => self.save(&delta, text),
            Command::Start => self.start(text),
            Command::Step(told) => self.step(&told, text),
            Command::Reopen => self.reopen(text),
        }
    }

    // Writes that a command can't be done now, and why.
    fn refuse(self, text: &mut Text) -> Seat<'a> {
        text.put_refusal(match &self {
            Seat::Empty => "there is no disk",
            Seat::Bare(_) => "nothing is attached",
            Seat::Attached(_) => "a store is attached",
            Seat::Running(_) => "a node runs",
            Seat::Halted(_) => "the node was stopped",
        });
        self
    }

    fn arm(self, pass: u32, image: u32, text: &mut Text) -> Seat<'a> {
        match self {
            Seat::Bare(mut bare) => {
                bare.disk.arm(pass, image);
                Seat::Bare(bare)
            }
            Seat::Attached(attached) => Seat::Attached(attached.arm(pass, image)),
            Seat::Running(mut running) => {
                running.arm(pass, image);
                Seat::Running(running)
            }
            other => other.refuse(text),
        }
    }

    fn disarm(self, text: &mut Text) -> Seat<'a> {
        match self {
            Seat::Bare(mut bare) => {
                bare.disk.disarm();
                Seat::Bare(bare)
            }
            Seat::Attached(attached) => Seat::Attached(attached.disarm()),
            Seat::Running(mut running) => {
                running.disarm();
                Seat::Running(running)
            }
            other => other.refuse(text),
        }
    }

    fn stop(self, text: &mut Text) -> Seat<'a> {
        match self {
            Seat::Attached(attached) => Seat::Bare(attached.stop()),
            Seat::Running(running) => Seat::Bare(running.stop()),
            Seat::Halted(halted) => Seat::Bare(halted.stop()),
            other => other.refuse(text),
        }
    }

    fn revive(self, text: &mut Text) -> Seat<'a> {
        match self {
            Seat::Bare(mut bare) => {
                bare.disk.revive();
                Seat::Bare(bare)
            }
            other => other.refuse(text),
        }
    }

    fn put_files(self, text: &mut Text) -> Seat<'a> {
        match self {
            Seat::Bare(mut bare) => {
                bare.put_files(text);
                Seat::Bare(bare)
            }
            other => other.refuse(text),
        }
    }

    fn attach(self, text: &mut Text) -> Seat<'a> {
        match self {
            Seat::Bare(bare) => bare.attach(text),
            other => other.refuse(text),
        }
    }

    fn put_kept(self, text: &mut Text) -> Seat<'a> {
        match self {
            Seat::Attached(attached) => {
                attached.put_kept(text);
                Seat::Attached(attached)
            }
            other => other.refuse(text),
        }
    }

    fn save(self, delta: &Delta, text: &mut Text) -> Seat<'a> {
        match self {
            Seat::Attached(attached) => attached.save(delta, text),
            other => other.refuse(text),
        }
    }

    fn start(self, text: &mut Text) -> Seat<'a> {
        match self {
            Seat::Bare(bare) => bare.start(text),
            other => other.refuse(text),
        }
    }

    fn step(self, told: &Told, text: &mut Text) -> Seat<'a> {
        match self {
            Seat::Running(running) => running.step(told, text),
            other => other.refuse(text),
        }
    }

    fn reopen(self, text: &mut Text) -> Seat<'a> {
        match self {
            Seat::Halted(halted) => Seat::Bare(halted.reopen(text)),
            other => other.refuse(text),
        }
    }
}
