//! The checks of run files.
use crate::list_rows::{FAULTY, NARROW, Row, WHOLE, run_file, short};
use due_list::{ListFault, write_check};
use run_text::read_frame;
use std::alloc::Global;
use std::test::Fail;

const HOUR: &str = "2024-03-31T00:00Z 2024-03-31T01:00Z";

const TWO_FAULTS: &str = "crontab alice UTC 4
# a
60 * * * * x
5/2 * * * * x
0 * * * * x
";

const TWO_FAULTS_CHECK: &str = "cron check 1
line 7 cause 3 at 0
line 8 cause 7 at 2
faults 2
end
";

const NO_FAULT_CHECK: &str = "cron check 1
faults 0
end
";

// A logical line is told at its first line, and an hour of 25 sets nothing.
const SECTIONS: &str = "anacrontab a UTC 5
START_HOURS_RANGE=25-3
1 5 b \\
x
0 5 \\
c x
system etc UTC 1
0 * * * * 9 x
";

const SECTIONS_CHECK: &str = "cron check 1
line 6 cause 19 at 18
line 9 cause 16 at 0
line 12 cause 12 at 10
faults 3
end
";

const ROWS: &[Row] = &[
    Row {
        window: HOUR,
        parts: TWO_FAULTS,
        into: WHOLE,
        result: Ok(()),
        text: TWO_FAULTS_CHECK,
    },
    Row {
        window: HOUR,
        parts: "crontab alice UTC 1\n0 * * * * x\n",
        into: WHOLE,
        result: Ok(()),
        text: NO_FAULT_CHECK,
    },
    Row {
        window: HOUR,
        parts: SECTIONS,
        into: WHOLE,
        result: Ok(()),
        text: SECTIONS_CHECK,
    },
    Row {
        window: HOUR,
        parts: TWO_FAULTS,
        into: FAULTY,
        result: Err(ListFault::WriteFault),
        text: "",
    },
    Row {
        window: HOUR,
        parts: TWO_FAULTS,
        into: NARROW,
        result: Err(ListFault::WriteFault),
        text: "",
    },
];

fn is_checked(alloc: Global, row: &Row) -> Result<bool, Fail> {
    let text = run_file(alloc, row.window, row.parts)?;
    let frame = read_frame(alloc, short(&text)?)?;
    let mut sink = row.into.sink(alloc)?;
    let result = write_check(alloc, &mut sink, &frame);
    Ok(result == row.result && sink.bytes() == row.text.as_bytes())
}

#[test]
fn frames_have_their_checks(rt: HostRuntime) -> Result<(), Fail> {
    for (place, row) in ROWS.iter().enumerate() {
        let holds = is_checked(rt.alloc(), row)?;
        assert!(rt; holds, "{place}");
    }
    Ok(())
}
