//! Replicas, their letters, and what the commands of a scenario do to them.
ghost use Rattle.std.specs.Prelude.{◌≤◌};

use crate::command::{Command, Event, Extent};
use crate::fault::PlayFault;
use crate::host::Host;
use crate::made_up::letter_bytes;
use crate::text::Text;
use cluster_sched::SchedRow;
use cron_io::OutOfMemory;
use due_set::JobTable;
use paxos_base::Kind;
use paxos_letter::{Letter, LetterBytes, Packet};
use replica_core::{Input, LetterList, OutLetter, StepOut};
use std::alloc::Global;

// How many letters are too many where all are delivered.
const LETTERS: usize = 1000;

// The kind of a packet that no packet is of.
const UNKNOWN_KIND: u8 = 12;

// The packets of a letter, each of which is written with its neighbours.
fn packets_of(alloc: Global, letter: &Letter<'_>) -> Result<Vec<Packet>, OutOfMemory> {
    let mut packets = Vec::with_capacity(alloc, letter.count())?;
    for packet in letter.packets() {
        packets.push(packet)?;
    }
    Ok(packets)
}

// A letter, and whether it waits to be delivered. It stays then, so that it can be delivered again.
#[derive(Drop)]
struct Posted {
    to: u8,
    bytes: Vec<u8>,
    waits: bool,
}

/// The replicas of a scenario and their letters, which are numbered from 0.
#[derive(Drop)]
pub struct Cluster<'a> {
    alloc: Global,
    table: &'a JobTable,
    hosts: Vec<Host<'a>>,
    posted: Vec<Posted>,
    text: Text,
}

impl<'a> Cluster<'a> {
    /// No replicas: a scenario begins by starting some.
    pub fn new(alloc: Global, table: &'a JobTable) -> Cluster<'a> {
        Cluster {
            alloc,
            table,
            hosts: Vec::new(alloc),
            posted: Vec::new(alloc),
            text: Text::new(alloc),
        }
    }

    /// What was written.
    pub fn text(&mut self) -> &mut Text {
        &mut self.text
    }

    /// Carries a command out, and writes what comes of it.
    pub fn run(&mut self, command: Command<'_>) -> Result<(), PlayFault> {
        match command {
            Command::Start { members } => self.start(members),
            Command::Step { extent, event } => self.handle(extent, event),
            Command::DeliverAll => self.deliver_all(),
            Command::Drop { letter } => self.lose(letter),
            Command::DropAll => {
                self.lose_all();
                Ok(())
            }
            Command::Shorten { letter } => self.shorten(letter),
            Command::Spoil { letter } => self.spoil(letter),
            Command::Write { from, to, packets } => self.write(from, to, packets),
            Command::Stop { member } => self.stop(member),
            Command::Restart { member } => self.restart(member),
            Command::Copy { member } => self.copy(member),
        }
    }

    // How many replicas there are.
    fn members(&self) -> u8
        ensures { result ≤ 7 }
    {
        self.hosts.len().min(7) as u8
    }

    // Begins a scenario of so many replicas.
    fn start(&mut self, members: u8) -> Result<(), PlayFault> {
        self.hosts.clear();
        self.posted.clear();
        for me in 0..members {
            let host = Host::new(self.alloc, self.table, me, members)?;
            self.hosts.push(host)?;
        }
        Ok(())
    }

    fn stop(&mut self, member: u8) -> Result<(), PlayFault> {
        let host = self.hosts.get_mut(usize::from(member));
        host.ok_or(PlayFault::BadMember)?.stop();
        Ok(())
    }

    fn restart(&mut self, member: u8) -> Result<(), PlayFault> {
        let host = self.hosts.get_mut(usize::from(member));
        host.ok_or(PlayFault::BadMember)?.start()
    }

    fn copy(&mut self, member: u8) -> Result<(), PlayFault> {
        let host = self.hosts.get_mut(usize::from(member));
        host.ok_or(PlayFault::BadMember)?.copy()
    }

    fn handle(&mut self, extent: Extent, event: Event) -> Result<(), PlayFault> {
        match event {
            Event::Campaign { member } => self.step(extent, member, Input::Campaign),
            Event::Tick { member, now } => self.step(extent, member, Input::Tick { now }),
            Event::Answer { member, kind } => self.answer(extent, member, kind),
            Event::Deliver { letter } => self.deliver(extent, letter),
        }
    }

    fn step(&mut self, extent: Extent, member: u8, input: Input<'_>) -> Result<(), PlayFault> {
        let host = self.hosts.get_mut(usize::from(member));
        let host = host.ok_or(PlayFault::BadMember)?;
        let out = host.take(extent, input, &mut self.text)?;
        self.tell(member, out)
    }

    // The replica's last call is answered so.
    fn answer(&mut self, extent: Extent, member: u8, kind: Kind) -> Result<(), PlayFault> {
        let host = self.hosts.get(usize::from(member));
        let name = host.ok_or(PlayFault::BadMember)?.last_call()?;
        let input = Input::Answer {
            job: name.job,
            at: name.at,
            kind,
        };
        self.step(extent, member, input)
    }

    // Delivers each letter that waits, in the order of their numbers.
    fn deliver_all(&mut self) -> Result<(), PlayFault> {
        for number in 0..LETTERS {
            match self.posted.get(number) {
                Some(letter) if letter.waits => self.deliver(Extent::Whole, number)?,
                Some(_) => {}
                None => return Ok(()),
            }
        }
        Err(PlayFault::TooManyLetters)
    }

    // The letter comes to the replica that it goes to. A letter that a step is only planned for waits on.
    fn deliver(&mut self, extent: Extent, number: usize) -> Result<(), PlayFault> {
        let letter = self.posted.get_mut(number).ok_or(PlayFault::NoLetter)?;
        let to = letter.to;
        let host = self.hosts.get_mut(usize::from(to));
        let host = host.ok_or(PlayFault::BadMember)?;
        if !matches!(extent, Extent::Plan) {
            letter.waits = false;
            if host.is_stopped() {
                self.text.put_number("  letter ", number as u64)?;
                self.text.put(" is lost\n")?;
                return Ok(());
            }
            self.text.put_number("  ", u64::from(to))?;
            self.text.put_number(" hears letter ", number as u64)?;
            self.text.put("\n")?;
        }
        let input = Input::Hear {
            bytes: &letter.bytes,
        };
        let out = host.take(extent, input, &mut self.text)?;
        self.tell(to, out)
    }

    // A letter waits no more.
    fn lose(&mut self, number: usize) -> Result<(), PlayFault> {
        self.posted
            .get_mut(number)
            .ok_or(PlayFault::NoLetter)?
            .waits = false;
        Ok(())
    }

    fn lose_all(&mut self) {
        for letter in self.posted.iter_mut() {
            letter.waits = false;
        }
    }

    // Takes a letter's last byte away.
    fn shorten(&mut self, number: usize) -> Result<(), PlayFault> {
        let letter = self.posted.get_mut(number).ok_or(PlayFault::NoLetter)?;
        letter.bytes.pop();
        Ok(())
    }

    // Makes a letter's first packet one of an unknown kind.
    fn spoil(&mut self, number: usize) -> Result<(), PlayFault> {
        let letter = self.posted.get_mut(number).ok_or(PlayFault::NoLetter)?;
        if let Some(kind) = letter.bytes.first_mut() {
            *kind = UNKNOWN_KIND;
        }
        Ok(())
    }

    // A letter that the scenario makes up.
    fn write(&mut self, from: u8, to: u8, packets: &str) -> Result<(), PlayFault> {
        if self.members() <= from.max(to) {
            return Err(PlayFault::BadMember);
        }
        let items = letter_bytes(self.alloc, from, packets)?;
        self.post(OutLetter {
            to,
            bytes: LetterBytes { items },
        })
    }

    // Puts a letter with the others, and writes its packets.
    fn post(&mut self, letter: OutLetter) -> Result<(), PlayFault> {
        let bytes = letter.bytes.items;
        let read = Letter::read(&bytes, self.members())?;
        let packets = packets_of(self.alloc, &read)?;
        let number = self.posted.len() as u64;
        self.text.put_letter(number, letter.to, &packets)?;
        self.posted.push(Posted {
            to: letter.to,
            bytes,
            waits: true,
        })?;
        Ok(())
    }

    fn post_all(&mut self, letters: LetterList) -> Result<(), PlayFault> {
        for letter in letters.items {
            self.post(letter)?;
        }
        Ok(())
    }

    // Writes what comes of a step, where one was taken, and carries it out. At last the replica's term is written.
    fn tell(&mut self, member: u8, out: Option<StepOut>) -> Result<(), PlayFault> {
        if let Some(out) = out {
            self.apply(member, out)?;
        }
        let host = self.hosts.get(usize::from(member));
        host.ok_or(PlayFault::BadMember)?.tell_term(&mut self.text)
    }

    fn apply(&mut self, member: u8, out: StepOut) -> Result<(), PlayFault> {
        let StepOut {
            delta,
            letters,
            learnt,
            call,
        } = out;
        let host = self.hosts.get_mut(usize::from(member));
        let host = host.ok_or(PlayFault::BadMember)?;
        if let Some(delta) = delta {
            host.store(delta, &mut self.text)?;
        }
        self.post_all(letters)?;
        self.text.put_learnt(&learnt.items)?;
        match call {
            Some(row) => self.call(member, row),
            None => Ok(()),
        }
    }

    fn call(&mut self, member: u8, row: SchedRow) -> Result<(), PlayFault> {
        let host = self.hosts.get_mut(usize::from(member));
        host.ok_or(PlayFault::BadMember)?.call(row, &mut self.text)
    }
}
