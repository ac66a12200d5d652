//! The journals and the summaries of worlds that have played a run.
use crate::worlds::{starts_of, write_journal_of, write_summary_of};
use cron_io::MemSink;
use report_text::ReportFault;
use std::test::*;

// A run file, the numbers of the turns at which its parts begin, and its journal, by `tools/small_world`.
struct Journal {
    file: &'static str,
    starts: &'static [u64],
    text: &'static str,
}

const ALONE: &str = "\
cronrun 1
replicas 1
window 2024-03-31T00:00Z 2024-03-31T01:00Z
grace 0
crontab alice UTC 1
*/20 * * * * echo hi
script
end
";

const FAULTS: &str = "\
cronrun 1
replicas 1
window 2024-03-31T00:00Z 2024-03-31T01:00Z
grace 5
crontab alice UTC 1
30 0 * * * true
script
campaign 0
fate 0 lost-before
round 2024-03-31T00:30Z 2
fate 0 late
round 2024-03-31T00:31Z 1
stop 0
arrive 0
restart 0
end
";

const VOIDS: &str = "\
cronrun 1
replicas 1
window 2024-03-31T00:00Z 2024-03-31T04:00Z
grace 4
crontab alice UTC 3
0 1 * * * a
5 1 * * * b
10,20 1 * * * c
script
round 2024-03-31T01:05Z 1
end
";

const LETTERS: &str = "\
cronrun 1
replicas 2
window 2024-03-31T00:00Z 2024-03-31T01:00Z
grace 60
crontab alice UTC 1
5 0 * * * true
script
campaign 1
round 2024-03-31T00:10Z 1
skew 0 3
round 2024-03-31T00:10Z 2
end
";

const JOURNALS: &[Journal] = &[
    // Three launches of one replica: without a script there is only the walk.
    Journal {
        file: ALONE,
        starts: &[0],
        text: "\
cron journal 1
command end
0 0 campaign
1 0 tick 2024-03-31T00:00Z
2 0 tick 2024-03-31T00:00Z done alice:1@20240331T0000Z launch
3 0 answer
4 0 tick 2024-03-31T00:00Z
5 0 tick 2024-03-31T00:20Z
6 0 tick 2024-03-31T00:20Z done alice:1@20240331T0020Z launch
7 0 answer
8 0 tick 2024-03-31T00:20Z
9 0 tick 2024-03-31T00:40Z
10 0 tick 2024-03-31T00:40Z done alice:1@20240331T0040Z launch
11 0 answer
12 0 tick 2024-03-31T00:40Z
end
",
    },
    // A call that is lost, a late one that arrives, a stop and a start. A part may have no turn.
    Journal {
        file: FAULTS,
        starts: &[0, 1, 1, 3, 3, 4, 5, 6, 7],
        text: "\
cron journal 1
command 1
0 0 campaign
command 2
command 3
1 0 tick 2024-03-31T00:30Z
2 0 tick 2024-03-31T00:30Z lost-before
command 4
command 5
3 0 tick 2024-03-31T00:31Z late
command 6
4 0 stop
command 7
5 - arrive 0
command 8
6 0 restart
command end
7 0 campaign
8 0 tick 2024-03-31T00:31Z
9 0 tick 2024-03-31T00:31Z done alice:1@20240331T0030Z launch
10 0 answer
11 0 tick 2024-03-31T00:31Z
end
",
    },
    // The first instant is given up.
    Journal {
        file: VOIDS,
        starts: &[0, 1],
        text: "\
cron journal 1
command 1
0 0 tick 2024-03-31T01:05Z
command end
1 0 campaign
2 0 tick 2024-03-31T01:05Z
3 0 tick 2024-03-31T01:05Z done alice:1@20240331T0100Z void
4 0 answer
5 0 tick 2024-03-31T01:05Z
6 0 tick 2024-03-31T01:05Z done alice:2@20240331T0105Z launch
7 0 answer
8 0 tick 2024-03-31T01:05Z
9 0 tick 2024-03-31T01:10Z
10 0 tick 2024-03-31T01:10Z done alice:3@20240331T0110Z launch
11 0 answer
12 0 tick 2024-03-31T01:10Z
13 0 tick 2024-03-31T01:20Z
14 0 tick 2024-03-31T01:20Z done alice:3@20240331T0120Z launch
15 0 answer
16 0 tick 2024-03-31T01:20Z
end
",
    },
    // Two replicas that hear each other; one has another clock.
    Journal {
        file: LETTERS,
        starts: &[0, 1, 4, 4, 10],
        text: "\
cron journal 1
command 1
0 1 campaign
command 2
1 0 hear 0
2 0 tick 2024-03-31T00:10Z
3 1 tick 2024-03-31T00:10Z
command 3
command 4
4 0 tick 2024-03-31T00:13Z
5 1 hear 1
6 1 tick 2024-03-31T00:10Z
7 0 hear 2
8 0 tick 2024-03-31T00:13Z
9 1 tick 2024-03-31T00:10Z
command end
10 0 campaign
11 0 tick 2024-03-31T00:13Z
12 1 hear 4
13 1 tick 2024-03-31T00:13Z
14 0 hear 5
15 0 tick 2024-03-31T00:13Z
16 1 tick 2024-03-31T00:13Z
17 0 tick 2024-03-31T00:13Z
18 1 hear 6
19 1 tick 2024-03-31T00:13Z
20 0 hear 7
21 0 tick 2024-03-31T00:13Z done alice:1@20240331T0005Z launch
22 1 tick 2024-03-31T00:13Z
23 0 answer
24 0 tick 2024-03-31T00:13Z
25 1 hear 8
26 1 tick 2024-03-31T00:13Z
27 0 tick 2024-03-31T00:13Z
28 1 hear 9
29 1 tick 2024-03-31T00:13Z
30 0 hear 10
31 0 tick 2024-03-31T00:13Z
32 1 tick 2024-03-31T00:13Z
33 0 tick 2024-03-31T00:13Z
34 1 hear 11
35 1 hear 12
36 1 tick 2024-03-31T00:13Z
end
",
    },
];

#[test]
fn journals_have_their_lines(rt: HostRuntime) -> Result<(), Fail> {
    for journal in JOURNALS {
        let starts = starts_of(&rt, rt.alloc(), journal.file)?;
        assert_eq!(rt; starts.as_slice(), journal.starts);
        let mut sink = MemSink::new(rt.alloc(), 10_000, Vec::new(rt.alloc()))?;
        let written = write_journal_of(&rt, rt.alloc(), journal.file, &mut sink)?;
        assert!(rt; written.is_ok());
        assert_eq!(rt; std::str::from_utf8(sink.bytes())?, journal.text);
    }
    Ok(())
}

#[test]
fn a_fault_leaves_a_front_of_the_journal(rt: HostRuntime) -> Result<(), Fail> {
    // The third write fails.
    let fails = vec![in rt.alloc(); 2]?;
    let mut sink = MemSink::new(rt.alloc(), 10_000, fails)?;
    let written = write_journal_of(&rt, rt.alloc(), ALONE, &mut sink)?;
    assert!(rt; written == Err(ReportFault::WriteFault));
    assert_eq!(rt;
        std::str::from_utf8(sink.bytes())?,
        "cron journal 1\ncommand end\n"
    );
    // The room is a byte too small for the second line.
    let mut small = MemSink::new(rt.alloc(), 26, Vec::new(rt.alloc()))?;
    let cut = write_journal_of(&rt, rt.alloc(), ALONE, &mut small)?;
    assert!(rt; cut == Err(ReportFault::WriteFault));
    assert_eq!(rt; std::str::from_utf8(small.bytes())?, "cron journal 1\n");
    Ok(())
}

const SUMMARY: &str = "\
cron make 1
seed 4294967295
jobs 3
launched 3
void 1
end
";

#[test]
fn a_summary_has_its_lines(rt: HostRuntime) -> Result<(), Fail> {
    let mut sink = MemSink::new(rt.alloc(), 1000, Vec::new(rt.alloc()))?;
    let written = write_summary_of(&rt, rt.alloc(), VOIDS, 4_294_967_295, &mut sink)?;
    assert!(rt; written.is_ok());
    assert_eq!(rt; std::str::from_utf8(sink.bytes())?, SUMMARY);
    Ok(())
}

#[test]
fn a_fault_leaves_a_front_of_the_summary(rt: HostRuntime) -> Result<(), Fail> {
    // The second write fails.
    let fails = vec![in rt.alloc(); 1]?;
    let mut sink = MemSink::new(rt.alloc(), 1000, fails)?;
    let written = write_summary_of(&rt, rt.alloc(), VOIDS, 7, &mut sink)?;
    assert!(rt; written == Err(ReportFault::WriteFault));
    assert_eq!(rt; std::str::from_utf8(sink.bytes())?, "cron make 1\n");
    Ok(())
}
