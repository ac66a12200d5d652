//! The due lists of the tables that run files name.
use crate::list_rows::{FAULTY, NARROW, Row, WHOLE, run_file, short};
use due_list::{ListFault, write_due};
use job_table::build_table;
use run_text::read_run;
use std::alloc::Global;
use std::test::Fail;

const HOUR: &str = "2024-03-31T00:00Z 2024-03-31T01:00Z";

const THRICE: &str = "crontab alice UTC 1\n0,20,40 * * * * echo hi\n";

const THRICE_LIST: &str = "cron due 1
job alice:1 version 0 count 3
due alice:1@20240331T0000Z 2024-03-31T00:00
due alice:1@20240331T0020Z 2024-03-31T00:20
due alice:1@20240331T0040Z 2024-03-31T00:40
end
";

const PARIS: &str = "zone Europe/Paris posix CET-1CEST,M3.5.0,M10.5.0/3
crontab alice UTC 2
CRON_TZ=Europe/Paris
30 2 * * * x
";

// The skipped half past two runs at three.
const PARIS_LIST: &str = "cron due 1
job alice:1 version 0 count 1
due alice:1@20240331T0100Z 2024-03-31T03:00
end
";

const KINDS: &str = "anacrontab a UTC 1
1 5 backup x
crontab bob UTC 3
@reboot x
0 5 * * * x
30 0 * * * x
";

const KINDS_LIST: &str = "cron due 1
anacron a/backup version 0
job bob:1 version 0 count 0
job bob:2 version 0 count 0
job bob:3 version 0 count 1
due bob:3@20240331T0030Z 2024-03-31T00:30
end
";

// Two versions, of which the second has another zone and one job more.
const VERSIONS: &str = "crontab alice UTC 1
0,40 * * * * x
version 1 2024-03-31T00:30Z
zone A fixed +00:30
anacrontab b A 1
1 5 c x
crontab alice A 1
40 * * * * x
";

const VERSIONS_LIST: &str = "cron due 1
job alice:1 version 0 count 2
due alice:1@20240331T0000Z 2024-03-31T00:00
due alice:1@20240331T0040Z 2024-03-31T00:40
job b/c version 0 count 0
job alice:1 version 1 count 1
due alice:1@20240331T0010Z 2024-03-31T00:40
anacron b/c version 1
end
";

const ROWS: &[Row] = &[
    Row {
        window: HOUR,
        parts: VERSIONS,
        into: WHOLE,
        result: Ok(()),
        text: VERSIONS_LIST,
    },
    Row {
        window: HOUR,
        parts: "",
        into: WHOLE,
        result: Ok(()),
        text: "cron due 1\nend\n",
    },
    Row {
        window: HOUR,
        parts: THRICE,
        into: WHOLE,
        result: Ok(()),
        text: THRICE_LIST,
    },
    Row {
        window: "2024-03-31T00:00Z 2024-03-31T04:00Z",
        parts: PARIS,
        into: WHOLE,
        result: Ok(()),
        text: PARIS_LIST,
    },
    Row {
        window: HOUR,
        parts: KINDS,
        into: WHOLE,
        result: Ok(()),
        text: KINDS_LIST,
    },
    Row {
        window: HOUR,
        parts: THRICE,
        into: FAULTY,
        result: Err(ListFault::WriteFault),
        text: "",
    },
    Row {
        window: HOUR,
        parts: THRICE,
        into: NARROW,
        result: Err(ListFault::WriteFault),
        text: "",
    },
];

fn is_listed(alloc: Global, row: &Row) -> Result<bool, Fail> {
    let text = run_file(alloc, row.window, row.parts)?;
    let run = read_run(alloc, short(&text)?)?;
    let table = build_table(alloc, &run)?;
    let mut sink = row.into.sink(alloc)?;
    let result = write_due(alloc, &mut sink, &table);
    Ok(result == row.result && sink.bytes() == row.text.as_bytes())
}

#[test]
fn tables_have_their_due_lists(rt: HostRuntime) -> Result<(), Fail> {
    for (place, row) in ROWS.iter().enumerate() {
        let holds = is_listed(rt.alloc(), row)?;
        assert!(rt; holds, "{place}");
    }
    Ok(())
}
