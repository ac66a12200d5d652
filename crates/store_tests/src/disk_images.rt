//! What a stop within each call of a history leaves.
use crate::disk_play::Call::{Cut, Sync, Write};
use crate::disk_play::{Call, make_call, text_of};
use disk_model::FileNo::{AreaA, AreaB, Chooser};
use disk_model::{ArmedDisk, MemDisk};
use std::alloc::{AllocError, Global};
use std::process::Abort;
use std::test::Fail;

// A call, and what a stop within it leaves: what the last syncs left, the files with that write or cut done, and the same
// with a dot at each place that was written since its file's last sync.
struct Stopped {
    call: Call,
    synced: &'static str,
    done: &'static str,
    touched: &'static str,
}

const HISTORY: &[Stopped] = &[
    Stopped {
        call: Write(AreaA, 0, "abcd"),
        synced: "///",
        done: "/abcd//",
        touched: "/....//",
    },
    Stopped {
        call: Sync(AreaA),
        synced: "///",
        done: "/abcd//",
        touched: "/....//",
    },
    Stopped {
        call: Write(AreaA, 2, "XYZ"),
        synced: "/abcd//",
        done: "/abXYZ//",
        touched: "/ab...//",
    },
    Stopped {
        call: Cut(AreaA, 4),
        synced: "/abcd//",
        done: "/abXY//",
        touched: "/ab..//",
    },
    Stopped {
        call: Write(AreaB, 0, "p"),
        synced: "/abcd//",
        done: "/abXY/p/",
        touched: "/ab.././",
    },
    Stopped {
        call: Write(AreaA, 1, "-"),
        synced: "/abcd//",
        done: "/a-XY/p/",
        touched: "/a..././",
    },
    Stopped {
        call: Sync(AreaA),
        synced: "/abcd//",
        done: "/a-XY/p/",
        touched: "/a..././",
    },
    Stopped {
        call: Cut(AreaA, 1),
        synced: "/a-XY//",
        done: "/a/p/",
        touched: "/a/./",
    },
    Stopped {
        call: Write(AreaA, 1, "kl"),
        synced: "/a-XY//",
        done: "/akl/p/",
        touched: "/a.././",
    },
    Stopped {
        call: Sync(AreaB),
        synced: "/a-XY//",
        done: "/akl/p/",
        touched: "/a.././",
    },
    Stopped {
        call: Write(Chooser, 0, "c"),
        synced: "/a-XY/p/",
        done: "c/akl/p/",
        touched: "./a../p/",
    },
    Stopped {
        call: Cut(AreaA, 0),
        synced: "/a-XY/p/",
        done: "c//p/",
        touched: ".//p/",
    },
    Stopped {
        call: Write(AreaA, 0, ""),
        synced: "/a-XY/p/",
        done: "c//p/",
        touched: ".//p/",
    },
    Stopped {
        call: Write(AreaA, 0, "mno"),
        synced: "/a-XY/p/",
        done: "c/mno/p/",
        touched: "./.../p/",
    },
];

impl Stopped {
    // What is left in the image of a number, with its byte in place of each dot.
    fn left(&self, alloc: Global, image: u32) -> Result<Vec<u8>, AllocError> {
        let text = match image % 3 {
            0 => self.synced,
            1 => self.done,
            _ => self.touched,
        };
        let mut bytes = Vec::from_slice(alloc, text.as_bytes())?;
        for place in &mut bytes {
            if *place == b'.' {
                *place = (image / 3 % 256) as u8;
            }
        }
        Ok(bytes)
    }
}

// Makes the calls of the history up to the first one that is refused, and tells how many were made.
fn play_history(disk: &mut MemDisk) -> u32 {
    let mut made = 0u32;
    for stopped in HISTORY {
        if make_call(disk, stopped.call).is_err() {
            return made;
        }
        made = made.saturating_add(1);
    }
    made
}

// A stop after so many calls comes within the call of the row, and leaves its image, from which the history can be played.
fn stops(rt: &impl Abort, alloc: Global, pass: u32, row: &Stopped, image: u32) -> Result<(), Fail> {
    let mut disk = MemDisk::new(alloc, Vec::new(alloc));
    disk.arm(pass, image);
    let made = play_history(&mut disk);
    disk.revive();
    let left = text_of(alloc, &mut disk)?;
    assert_eq!(rt;
        (made, left),
        (pass, row.left(alloc, image)?),
        "{pass}, {image}"
    );
    Ok(())
}

#[test]
fn a_stop_leaves_the_image_of_its_number(rt: HostRuntime) -> Result<(), Fail> {
    for (pass, row) in (0..u32::MAX).zip(HISTORY) {
        for image in [0, 3, u32::MAX, 1, 4, 2, 5, 8, 767, 770] {
            stops(&rt, rt.alloc(), pass, row, image)?;
        }
    }
    Ok(())
}
