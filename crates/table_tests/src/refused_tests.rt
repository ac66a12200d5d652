//! Run files that are refused, by the first line that may not stand where it stands.
use crate::rows::{short, sides};
use run_text::{RunFault, read_run};
use std::alloc::Global;
use std::process::Abort;
use std::test::Fail;

// The lines of each row stand between two texts.
struct Refused {
    before: &'static str,
    rows: &'static str,
    behind: &'static str,
}

// The first line, and the number of replicas.
const HEADS: Refused = Refused {
    before: "",
    rows: "\
¶ => line 1: cause 25 at 0
 => line 1: cause 25 at 0
cronrun 2¶ => line 1: cause 25 at 0
cronrun 1 ¶ => line 1: cause 25 at 0
cronrun 1\r¶ => line 1: cause 25 at 0
cronrun 1 => line 2: cause 26 at 0
cronrun 1¶ => line 2: cause 26 at 0
cronrun 1¶¶ => line 2: cause 26 at 0
cronrun 1¶replicas 0¶ => line 2: cause 26 at 0
cronrun 1¶replicas 01¶ => line 2: cause 26 at 0
cronrun 1¶replicas +1¶ => line 2: cause 26 at 0
cronrun 1¶replicas  1¶ => line 2: cause 26 at 0
cronrun 1¶replicas 8¶ => line 2: cause 26 at 0
cronrun 1¶replicas 2¶ => line 3: cause 27 at 0
cronrun 1¶replicas 7 => line 3: cause 27 at 0
cronrun 1¶replicas 1 => line 3: cause 27 at 0
",
    behind: "",
};

// The window, and the minutes of grace.
const TIMES: Refused = Refused {
    before: "cronrun 1\nreplicas 1\n",
    rows: "\
window 2024-03-31T00:00Z 2024-03-31T00:00Z¶ => line 3: cause 27 at 0
window 2024-03-31T01:00Z 2024-03-31T00:00Z¶ => line 3: cause 27 at 0
window 2024-03-31T00:00Z  2024-03-31T01:00Z¶ => line 3: cause 27 at 0
window 2024-03-31T00:00Z¶ => line 3: cause 27 at 0
window 2023-02-29T00:00Z 2023-03-01T00:00Z¶ => line 3: cause 27 at 0
window 1970-12-31T23:59Z 1971-01-01T00:01Z¶ => line 3: cause 27 at 0
window 2199-12-31T23:00Z 2200-01-01T00:01Z¶ => line 3: cause 27 at 0
window 2024-01-01T00:00Z 2025-02-04T00:01Z¶ => line 3: cause 27 at 0
window 2024-01-01T00:00Z 2025-02-04T00:00Z¶ => line 4: cause 28 at 0
window 1971-01-01T00:00Z 1971-01-01T00:01Z¶ => line 4: cause 28 at 0
window 2199-12-31T23:59Z 2200-01-01T00:00Z¶¶ => line 4: cause 28 at 0
window 2024-01-01T00:00Z 2024-01-02T00:00Z¶grace¶ => line 4: cause 28 at 0
window 2024-01-01T00:00Z 2024-01-02T00:00Z¶grace 00¶ => line 4: cause 28 at 0
window 2024-01-01T00:00Z 2024-01-02T00:00Z¶grace -1¶ => line 4: cause 28 at 0
window 2024-01-01T00:00Z 2024-01-02T00:00Z¶grace 525601¶ => line 4: cause 28 at 0
window 2024-01-01T00:00Z 2024-01-02T00:00Z¶grace 525600¶ => line 5: cause 31 at 0
",
    behind: "",
};

// What stands behind the head. The line that opens a section is judged before the lines of its table.
const SECTIONS: Refused = Refused {
    before: "cronrun 1\nreplicas 1\nwindow 2024-03-31T00:00Z 2024-03-31T01:00Z\ngrace 0\n",
    rows: "\
¶script¶end¶ => line 5: cause 31 at 0
# a comment¶script¶end¶ => line 5: cause 31 at 0
script x¶end¶ => line 5: cause 31 at 0
anacrontab anacron UTC¶script¶end¶ => line 5: cause 29 at 0
anacrontabs anacron UTC 0¶script¶end¶ => line 5: cause 31 at 0
zones A¶script¶end¶ => line 5: cause 31 at 0
crontab¶script¶end¶ => line 5: cause 29 at 0
crontab alice UTC¶script¶end¶ => line 5: cause 29 at 0
crontab Alice UTC 0¶script¶end¶ => line 5: cause 29 at 0
crontab 1st UTC 0¶script¶end¶ => line 5: cause 29 at 0
crontab  UTC 0¶script¶end¶ => line 5: cause 29 at 0
crontab alice  0¶script¶end¶ => line 5: cause 29 at 0
crontab alice U:C 0¶script¶end¶ => line 5: cause 29 at 0
crontab alice UTC 00¶script¶end¶ => line 5: cause 29 at 0
crontab alice UTC 65536¶script¶end¶ => line 5: cause 29 at 0
crontab alice UTC 0 ¶script¶end¶ => line 5: cause 29 at 0
system etc UTC 3¶# a¶script => line 5: cause 29 at 0
crontab alice UTC 3¶60 * * * * x¶script => line 5: cause 29 at 0
crontab alice UTC 1¶script¶end¶ => line 6: cause 4 at 0
crontab alice UTC 0 => line 6: cause 31 at 0
crontab alice UTC 1¶* * * * * x => line 7: cause 31 at 0
script => line 6: cause 31 at 0
script¶ => line 6: cause 31 at 0
script¶end x¶ => line 6: cause 30 at 0
script¶¶end¶ => line 6: cause 30 at 0
script¶round 2024-03-31T00:00Z 1¶ => line 7: cause 31 at 0
script¶break 1 1 1¶end¶ => line 6: cause 30 at 0
script¶break¶end¶ => line 6: cause 30 at 0
script¶free¶end¶ => line 6: cause 30 at 0
script¶heal¶ => line 7: cause 31 at 0
script¶rounds¶end¶ => line 6: cause 30 at 0
script¶end¶¶ => line 7: cause 30 at 0
script¶end¶end¶ => line 7: cause 30 at 0
script¶end¶round => line 7: cause 30 at 0
",
    behind: "",
};

// A line of a user's table.
const USER_LINES: Refused = Refused {
    before: "cronrun 1\nreplicas 1\nwindow 2024-03-31T00:00Z 2024-03-31T01:00Z\ngrace 0\ncrontab alice UTC 3\n# a\n0 1 * * * x\n",
    rows: "\
60 * * * * x => line 8: cause 3 at 0
5/2 * * * * x => line 8: cause 7 at 2
5-1 * * * * x => line 8: cause 5 at 0
1 2 3 * * => line 8: cause 11 at 9
1 2 3 => line 8: cause 10 at 5
* * 32 * * x => line 8: cause 3 at 4
  @never x => line 8: cause 13 at 2
@daily => line 8: cause 11 at 6
",
    behind: "\nscript\nend\n",
};

// A line of a system's table.
const SYSTEM_LINES: Refused = Refused {
    before: "cronrun 1\nreplicas 1\nwindow 2024-03-31T00:00Z 2024-03-31T01:00Z\ngrace 0\nsystem etc UTC 1\n",
    rows: "\
* * * * * 1x y => line 6: cause 12 at 10
* * * * * => line 6: cause 12 at 9
* * * * * root => line 6: cause 11 at 14
",
    behind: "\nscript\nend\n",
};

// A line that opens an anacrontab. Two lines are behind it.
const OPENINGS: Refused = Refused {
    before: "cronrun 1\nreplicas 1\nwindow 2024-03-31T00:00Z 2024-03-31T01:00Z\ngrace 0\n",
    rows: "\
anacrontab => line 5: cause 29 at 0
anacrontab a UTC => line 5: cause 29 at 0
anacrontab A UTC 0 => line 5: cause 29 at 0
anacrontab a U:C 0 => line 5: cause 29 at 0
anacrontab a UTC 00 => line 5: cause 29 at 0
anacrontab a UTC 65536 => line 5: cause 29 at 0
anacrontab a UTC 0  => line 5: cause 29 at 0
anacrontab a UTC 3 => line 5: cause 29 at 0
",
    behind: "\nscript\nend\n",
};

// A line of an anacrontab.
const ANACRON_LINES: Refused = Refused {
    before: "cronrun 1\nreplicas 1\nwindow 2024-03-31T00:00Z 2024-03-31T01:00Z\ngrace 0\nanacrontab a UTC 3\n# x\n",
    rows: "\
1 5 => line 7: cause 10 at 3
1 5 a => line 7: cause 11 at 5
0 5 a x => line 7: cause 16 at 0
1 x a x => line 7: cause 17 at 2
1 5 a/b x => line 7: cause 18 at 4
START_HOURS_RANGE=22-3 => line 7: cause 19 at 18
RANDOM_DELAY=10000 => line 7: cause 20 at 13
*/5 * * * * x => line 7: cause 16 at 0
",
    behind: "\n1 5 a x\nscript\nend\n",
};

// Lines that go on: the lines of the file are counted, and a place counts from the first of them. The last line of a table
// isn't continued, whatever is behind it.
const CONTINUED: Refused = Refused {
    before: "cronrun 1\nreplicas 1\nwindow 2024-03-31T00:00Z 2024-03-31T01:00Z\ngrace 0\n",
    rows: "\
anacrontab a UTC 3¶1 5 a \\¶  x¶1 x b x¶ => line 8: cause 17 at 2
anacrontab a UTC 2¶1 5 \\¶a/b x¶ => line 6: cause 18 at 6
anacrontab a UTC 4¶1 5 a \\¶\\¶x¶1 y c x¶ => line 9: cause 17 at 2
anacrontab a UTC 3¶# a \\¶0 0¶0 5 b x¶ => line 8: cause 16 at 0
anacrontab a UTC 1¶1 5 a \\¶x¶ => line 6: cause 11 at 7
anacrontab a UTC 1¶1 5 \\¶a x¶ => line 6: cause 10 at 5
anacrontab a UTC 2¶1 x a x¶0 5 a x¶ => line 6: cause 17 at 2
anacrontab a UTC 9¶1 x a x¶ => line 5: cause 29 at 0
",
    behind: "script\nend\n",
};

// A line of a zone.
const ZONE_LINES: Refused = Refused {
    before: "cronrun 1\nreplicas 1\nwindow 2024-03-31T00:00Z 2024-03-31T01:00Z\ngrace 0\ncrontab alice UTC 0\n",
    rows: "\
zone A fixed => line 6: cause 34 at 0
zone A fixed  => line 6: cause 34 at 0
zone A fixed 01:00 => line 6: cause 34 at 0
zone A fixed +1:00 => line 6: cause 34 at 0
zone A fixed +01:0 => line 6: cause 34 at 0
zone A fixed +01:60 => line 6: cause 34 at 0
zone A fixed +0100 => line 6: cause 34 at 0
zone A fixed +14:01 => line 6: cause 34 at 0
zone A fixed -12:01 => line 6: cause 34 at 0
zone A fixed +24:00 => line 6: cause 34 at 0
zone A fixed ++1:00 => line 6: cause 34 at 0
zone A fixed +01:00  => line 6: cause 34 at 0
zone A fixed  +01:00 => line 6: cause 34 at 0
zone A Fixed +01:00 => line 6: cause 34 at 0
zone => line 6: cause 34 at 0
zone  => line 6: cause 34 at 0
zone A => line 6: cause 34 at 0
zone A posix => line 6: cause 34 at 0
zone A tzif => line 6: cause 34 at 0
zone A tzif  => line 6: cause 34 at 0
zone A tzif 5 => line 6: cause 34 at 0
zone A tzif 545 => line 6: cause 34 at 0
zone A tzif 5g => line 6: cause 34 at 0
zone A tzif 54  => line 6: cause 34 at 0
zone A file /etc/localtime => line 6: cause 34 at 0
zone  fixed +01:00 => line 6: cause 34 at 0
zone A:B fixed +01:00 => line 6: cause 34 at 0
zone UTC fixed +01:00 => line 6: cause 34 at 0
zone aaaaaaaaaaaaaaaaaaaaaaaaaaaaaaaaaaaaaaaaaaaaaaaaaaaaaaaaaaaaaaaaa fixed +00:00 => line 6: cause 34 at 0
",
    behind: "\nscript\nend\n",
};

// Zones beside sections.
const ZONES: Refused = Refused {
    before: "cronrun 1\nreplicas 1\nwindow 2024-03-31T00:00Z 2024-03-31T01:00Z\ngrace 0\n",
    rows: "\
zone A posix X¶crontab alice A 0¶zone A posix X¶ => line 7: cause 34 at 0
zone A posix X¶zone B posix X¶zone A y¶ => line 7: cause 34 at 0
zone A posix X¶anacrontab B A 0¶ => line 6: cause 29 at 0
zone A posix X¶zones¶ => line 6: cause 31 at 0
crontab alice A 2¶zone A posix X¶ => line 6: cause 4 at 0
",
    behind: "script\nend\n",
};

// A line of a version, below version 1.
const VERSION_LINES: Refused = Refused {
    before: "cronrun 1\nreplicas 1\nwindow 2024-03-31T00:00Z 2024-03-31T01:00Z\ngrace 0\nversion 1 2024-03-31T00:30Z\n",
    rows: "\
version => line 6: cause 36 at 0
version  => line 6: cause 36 at 0
version 2 => line 6: cause 36 at 0
version 2  => line 6: cause 36 at 0
version 2 2024-03-31T00:29Z => line 6: cause 36 at 0
version 2 2024-03-31T01:00Z => line 6: cause 36 at 0
version 2 2024-03-30T23:59Z => line 6: cause 36 at 0
version 2 2024-03-31T00:60Z => line 6: cause 36 at 0
version 2 2024-03-31T00:30 => line 6: cause 36 at 0
version 2 20240331T0030Z => line 6: cause 36 at 0
version 2 2024-03-31T00:30Z  => line 6: cause 36 at 0
version 2  2024-03-31T00:30Z => line 6: cause 36 at 0
version 02 2024-03-31T00:30Z => line 6: cause 36 at 0
version +2 2024-03-31T00:30Z => line 6: cause 36 at 0
version 0 2024-03-31T00:30Z => line 6: cause 36 at 0
version 1 2024-03-31T00:30Z => line 6: cause 36 at 0
version 3 2024-03-31T00:30Z => line 6: cause 36 at 0
version 2 2024-03-31T00:30Z¶version 2 2024-03-31T00:30Z => line 7: cause 36 at 0
version 2 2024-03-31T00:59Z¶version 3 2024-03-31T00:30Z => line 7: cause 36 at 0
versions 2 2024-03-31T00:30Z => line 6: cause 31 at 0
Version 2 2024-03-31T00:30Z => line 6: cause 31 at 0
version 2 2024-03-31T00:30Z¶version 3 2024-03-31T00:30Z¶version 4 2024-03-31T00:30Z¶version 5 2024-03-31T00:30Z¶version 6 2024-03-31T00:30Z¶version 7 2024-03-31T00:30Z¶version 8 2024-03-31T00:30Z => line 12: cause 36 at 0
crontab a UTC 1¶version 2 2024-03-31T00:30Z => line 7: cause 4 at 0
script¶version 2 2024-03-31T00:30Z => line 7: cause 30 at 0
",
    behind: "\nscript\nend\n",
};

// What the text is refused for.
fn refusal_of(alloc: Global, text: &str) -> Result<String, Fail> {
    match read_run(alloc, short(text)?) {
        Ok(_) => Err(Fail::from("a run")),
        Err(RunFault::OutOfMemory) => Err(Fail::from("no memory")),
        Err(RunFault::Refused(refusal)) => Ok(format!(in alloc;
            "line {}: cause {} at {}",
            refusal.line, refusal.cause, refusal.place
        )?),
    }
}

// Each row is refused for what it says.
fn assert_refused(rt: &impl Abort, alloc: Global, table: &Refused) -> Result<(), Fail> {
    for row in table.rows.lines() {
        let (lines, want) = sides(alloc, row)?;
        let text = format!(in alloc; "{}{lines}{}", table.before, table.behind)?;
        assert_eq!(rt; refusal_of(alloc, &text)?, want, "{row}");
    }
    Ok(())
}

#[test]
fn refused_texts(rt: HostRuntime) -> Result<(), Fail> {
    for table in TABLES {
        assert_refused(&rt, rt.alloc(), table)?;
    }
    Ok(())
}

const TABLES: &[Refused] = &[
    HEADS,
    TIMES,
    SECTIONS,
    USER_LINES,
    SYSTEM_LINES,
    OPENINGS,
    ANACRON_LINES,
    CONTINUED,
    ZONE_LINES,
    ZONES,
    VERSION_LINES,
];
