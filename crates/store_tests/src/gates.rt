//! Files behind gates.
use crate::area_text::{bodies_of, bytes_of, fill};
use disk_model::FileNo::AreaA;
use disk_model::{ArmedDisk, MemDisk, read_file};
use gate_file::{GateFault, GateFile, ReadGates};
use std::alloc::Global;
use std::process::Abort;
use std::test::Fail;

// An empty disk on which the calls of these numbers fail, but for the area.
fn disk_with(alloc: Global, text: &str, fails: &[u64]) -> Result<MemDisk, Fail> {
    let mut disk = MemDisk::new(alloc, Vec::from_slice(alloc, fails)?);
    fill(&mut disk, AreaA, &bytes_of(alloc, text)?)?;
    Ok(disk)
}

// Attached, the area has these bodies.
fn finds(rt: &impl Abort, alloc: Global, disk: &mut MemDisk, want: &str) -> Result<(), Fail> {
    let gates = GateFile::attach(alloc, disk, AreaA)?;
    assert_eq!(rt; gates.bodies(), bodies_of(alloc, want)?.as_slice());
    Ok(())
}

// The area has the bytes of the text.
fn has(rt: &impl Abort, alloc: Global, disk: &mut MemDisk, text: &str) -> Result<(), Fail> {
    let bytes = read_file(alloc, disk, AreaA)?;
    assert_eq!(rt; bytes, bytes_of(alloc, text)?, "{text}");
    Ok(())
}

// A file, the bodies that it has, and its bytes once it is attached.
struct Attached {
    text: &'static str,
    bodies: &'static str,
    after: &'static str,
}

const FILES: &[Attached] = &[
    Attached {
        text: "",
        bodies: "",
        after: "0",
    },
    Attached {
        text: "1",
        bodies: "",
        after: "0",
    },
    Attached {
        text: "1a",
        bodies: "",
        after: "0a",
    },
    Attached {
        text: "0a1",
        bodies: "",
        after: "0a1",
    },
    Attached {
        text: "1a0",
        bodies: "a",
        after: "1a0",
    },
    Attached {
        text: "1a1",
        bodies: "a",
        after: "1a0",
    },
    Attached {
        text: "5a0",
        bodies: "",
        after: "0a0",
    },
    // What stands behind a closed gate stays.
    Attached {
        text: "1a1d0e1g0",
        bodies: "ad",
        after: "1a1d0e1g0",
    },
    Attached {
        text: "1a9d1e0",
        bodies: "a",
        after: "1a0d1e0",
    },
    Attached {
        text: "1a1d1e",
        bodies: "ad",
        after: "1a1d0e",
    },
];

// It is read twice, and between the two nothing is written.
fn is_read_and_closed(rt: &impl Abort, alloc: Global, row: &Attached) -> Result<(), Fail> {
    let mut disk = disk_with(alloc, row.text, &[])?;
    let read = ReadGates::read(alloc, &mut disk, AreaA)?;
    assert_eq!(rt;
        read.bodies(),
        bodies_of(alloc, row.bodies)?.as_slice(),
        "{}",
        row.text
    );
    has(rt, alloc, &mut disk, row.text)?;
    finds(rt, alloc, &mut disk, row.bodies)?;
    has(rt, alloc, &mut disk, row.after)
}

#[test]
fn an_attached_file_has_the_bodies_behind_open_gates(rt: HostRuntime) -> Result<(), Fail> {
    for row in FILES {
        is_read_and_closed(&rt, rt.alloc(), row)?;
    }
    Ok(())
}

// Attaches the area and appends a body to it, and between the two the disk is armed.
fn append(alloc: Global, disk: &mut MemDisk, pass: u32, image: u32) -> Result<(), GateFault> {
    let mut gates = GateFile::attach(alloc, disk, AreaA)?;
    disk.arm(pass, image);
    gates.append(disk, &[b'd'; 56])
}

#[test]
fn appended_bodies_are_found_in_order(rt: HostRuntime) -> Result<(), Fail> {
    let mut disk = disk_with(rt.alloc(), "", &[])?;
    append(rt.alloc(), &mut disk, 9, 0)?;
    append(rt.alloc(), &mut disk, 9, 0)?;
    finds(&rt, rt.alloc(), &mut disk, "dd")?;
    has(&rt, rt.alloc(), &mut disk, "1d1d0")
}

// A stop after so many of an append's calls, and the bodies that it leaves in the image of a number. Image 1 is the stopped
// call done, and the others have the byte of image / 3 in all that was written since the last sync.
struct Stopped {
    pass: u32,
    image: u32,
    left: &'static str,
}

const STOPS: &[Stopped] = &[
    // within the write of the body and its sync
    Stopped {
        pass: 0,
        image: 1,
        left: "a",
    },
    Stopped {
        pass: 1,
        image: 1,
        left: "a",
    },
    Stopped {
        pass: 1,
        image: 5,
        left: "a",
    },
    // within the write of the gate and its sync
    Stopped {
        pass: 2,
        image: 0,
        left: "a",
    },
    Stopped {
        pass: 2,
        image: 1,
        left: "ad",
    },
    Stopped {
        pass: 2,
        image: 2,
        left: "a",
    },
    Stopped {
        pass: 2,
        image: 5,
        left: "ad",
    },
    Stopped {
        pass: 2,
        image: 8,
        left: "a",
    },
    Stopped {
        pass: 3,
        image: 0,
        left: "a",
    },
    Stopped {
        pass: 3,
        image: 1,
        left: "ad",
    },
    Stopped {
        pass: 3,
        image: 5,
        left: "ad",
    },
];

fn stop(alloc: Global, row: &Stopped) -> Result<MemDisk, Fail> {
    let mut disk = disk_with(alloc, "1a1e", &[])?;
    if append(alloc, &mut disk, row.pass, row.image) != Err(GateFault::Stopped) {
        return Err("the append wasn't stopped".into());
    }
    disk.revive();
    Ok(disk)
}

#[test]
fn a_stop_within_an_append_leaves_its_body_or_not(rt: HostRuntime) -> Result<(), Fail> {
    for row in STOPS {
        let mut disk = stop(rt.alloc(), row)?;
        finds(&rt, rt.alloc(), &mut disk, row.left)?;
    }
    Ok(())
}

// The area is written and synced by calls 0 and 1. Calls 2 to 4 are those of an attaching, and 5 to 8 those of an append.
#[test]
fn a_fault_within_an_append_leaves_its_body_or_not(rt: HostRuntime) -> Result<(), Fail> {
    for (number, digit) in (2u64..).zip(b"0000001") {
        let mut disk = disk_with(rt.alloc(), "1a0", &[number])?;
        let answer = append(rt.alloc(), &mut disk, 9, 0);
        assert_eq!(rt; answer, Err(GateFault::DiskFault), "{number}");
        finds(
            &rt,
            rt.alloc(),
            &mut disk,
            if *digit == b'1' { "ad" } else { "a" },
        )?;
    }
    Ok(())
}

#[test]
fn a_rewritten_file_has_its_new_bodies_alone(rt: HostRuntime) -> Result<(), Fail> {
    for (bodies, after) in [("", "0"), ("gh", "1g1h0"), ("ghie", "1g1h1i1e0")] {
        let mut disk = disk_with(rt.alloc(), "1a1d1e0", &[])?;
        let gates = GateFile::rewrite(
            rt.alloc(),
            &mut disk,
            AreaA,
            bodies_of(rt.alloc(), bodies)?,
        )?;
        assert_eq!(rt; gates.bodies(), bodies_of(rt.alloc(), bodies)?.as_slice());
        has(&rt, rt.alloc(), &mut disk, after)?;
    }
    Ok(())
}
