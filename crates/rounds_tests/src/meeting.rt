//! Where two threads wait for each other, and disks of which two do so.
use disk_model::{ArmedDisk, Disk, DiskFault, FileNo, MemDisk};
use std::alloc::Global;
use std::sync::Arc;
use std::sync::atomic::{AtomicBool, AtomicU64, Ordering};
use std::thread;

// How often a thread looks whether the other has come. Where their replicas don't run at once, this ends the wait.
const LOOKS: u32 = 100_000_000;

/// Waits until somebody has come more often than this. It says whether they have; the limit of looks may end the wait.
pub fn has_come(count: &AtomicU64, before: u64) -> bool {
    'looks: for _look in 0..LOOKS {
        if count.load(Ordering::SeqCst) > before {
            return true;
        }
        thread::yield_now();
    }
    false
}

/// Where two meet.
#[derive(Drop)]
pub struct Meeting {
    // Whether they wait for each other from now on.
    open: AtomicBool,
    // How often each of them waits at most.
    most: u64,
    // How often each has come.
    first: AtomicU64,
    second: AtomicU64,
    // How many waits ended since the other had come, and how many by the limit.
    met: AtomicU64,
    missed: AtomicU64,
}

impl Meeting {
    // A meeting that isn't open, at which each waits so often at most.
    fn with_waits(most: u64) -> Meeting {
        Meeting {
            open: AtomicBool::new(false),
            most,
            first: AtomicU64::new(0),
            second: AtomicU64::new(0),
            met: AtomicU64::new(0),
            missed: AtomicU64::new(0),
        }
    }

    /// A meeting that isn't open, at which each waits as often as it comes.
    pub fn new() -> Meeting {
        Meeting::with_waits(u64::MAX)
    }

    /// A meeting that isn't open, at which each waits when it comes first, and no more.
    pub fn once() -> Meeting {
        Meeting::with_waits(1)
    }

    /// From now on they wait for each other.
    pub fn open(&self) {
        self.open.store(true, Ordering::SeqCst);
    }

    /// How many waits ended since the other had come, and how many by the limit.
    pub fn counts(&self) -> (u64, u64) {
        (
            self.met.load(Ordering::SeqCst),
            self.missed.load(Ordering::SeqCst),
        )
    }

    /// Whoever has this number comes; only 0 and 1 wait, each until the other has come as often.
    pub fn come(&self, who: u8) {
        if who > 1 || !self.open.load(Ordering::SeqCst) {
            return;
        }
        let (mine, other) = if who == 0 {
            (&self.first, &self.second)
        } else {
            (&self.second, &self.first)
        };
        let before = mine.fetch_add(1, Ordering::SeqCst);
        if before >= self.most {
            return;
        }
        if has_come(other, before) {
            self.met.fetch_add(1, Ordering::SeqCst);
        } else {
            self.missed.fetch_add(1, Ordering::SeqCst);
        }
    }
}

/// A disk in memory, of this number. In a sync it comes to the meeting, where 0 and 1 wait for each other.
#[derive(Drop)]
pub struct MeetingDisk {
    disk: MemDisk,
    who: u8,
    meeting: Arc<Meeting, Global>,
}

impl MeetingDisk {
    ghost use Rattle.std.specs.Prelude.{◌≡◌};

    /// The disk takes part in the meeting.
    pub fn new(disk: MemDisk, who: u8, meeting: Arc<Meeting, Global>) -> MeetingDisk
        ensures { result.disk ≡ disk }
    {
        MeetingDisk { disk, who, meeting }
    }
}

impl Disk for MeetingDisk {
    ghost use Rattle.std.specs.Prelude.{◌≡◌};
    ghost use Rattle.std.proofs.Common.{inl, sym, ap};
    ghost use Rattle.disk_model.specs.Left.{seen_left};
    ghost use Rattle.disk_model.specs.MemDisk.{seen_of, done_in};
    ghost use Rattle.disk_model.specs.Past.{only_now};
    ghost use Rattle.rounds_tests.specs.Meets.{view_through};

    ghost view = { view_through (λ disk. disk.disk) };

    ghost counts_now = { λ disk start image honest le now. inl now };

    ghost only_now = { λ disk image honest left. only_now disk.disk.history.items disk.disk.files image left };

    ghost seen_is_left = { λ disk honest. seen_left disk.disk.files };

    ghost done_is_seen = { λ disk told_now is. sym (ap (λ told. done_in told (seen_of disk.disk)) is) };

    fn length(&mut self, file: FileNo) -> Result<u64, DiskFault> {
        self.disk.length(file)
    }

    fn read(&mut self, file: FileNo, at: u64, into: &mut [u8]) -> Result<(), DiskFault> {
        self.disk.read(file, at, into)
    }

    fn write_at(&mut self, file: FileNo, at: u64, bytes: &[u8]) -> Result<(), DiskFault> {
        self.disk.write_at(file, at, bytes)
    }

    fn cut(&mut self, file: FileNo, length: u64) -> Result<(), DiskFault> {
        self.disk.cut(file, length)
    }

    fn sync(&mut self, file: FileNo) -> Result<(), DiskFault> {
        self.meeting.come(self.who);
        self.disk.sync(file)
    }
}

impl ArmedDisk for MeetingDisk {
    ghost use Rattle.std.proofs.Common.{refl};

    ghost tells = { λ disk. refl };

    fn arm(&mut self, pass: u32, image: u32) {
        self.disk.arm(pass, image);
    }

    fn disarm(&mut self) {
        self.disk.disarm();
    }

    fn revive(&mut self) {
        self.disk.revive();
    }
}
