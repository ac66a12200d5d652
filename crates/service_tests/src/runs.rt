//! Run files, their reports and notes.

pub const THREE_LAUNCHES: &str = "cronrun 1
replicas 1
window 2024-03-31T00:00Z 2024-03-31T01:00Z
grace 0
crontab alice UTC 1
0,20,40 * * * * echo hi
script
end
";

pub const THREE_LAUNCHES_REPORT: &str = "cron report 1
window 2024-03-31T00:00Z 2024-03-31T01:00Z
replicas 1
jobs 1
job alice:1 launched 3 void 0
launch alice:1@20240331T0000Z
launch alice:1@20240331T0020Z
launch alice:1@20240331T0040Z
end
";

// Another version of the table from half past on.
pub const TWO_VERSIONS: &str = "cronrun 1
replicas 1
window 2024-03-31T00:00Z 2024-03-31T01:00Z
grace 0
crontab alice UTC 1
0,20,40 * * * * echo hi
version 1 2024-03-31T00:30Z
crontab alice UTC 1
10,50 * * * * echo hi
script
end
";

pub const TWO_VERSIONS_REPORT: &str = "cron report 1
window 2024-03-31T00:00Z 2024-03-31T01:00Z
replicas 1
jobs 1
job alice:1 launched 3 void 0
launch alice:1@20240331T0000Z
launch alice:1@20240331T0020Z
launch alice:1@20240331T0050Z
end
";

// Nobody leads until a quarter to one, so the first version holds until then.
pub const LATE_VERSION: &str = "cronrun 1
replicas 1
window 2024-03-31T00:00Z 2024-03-31T01:00Z
grace 0
crontab alice UTC 1
0,20,40 * * * * echo hi
version 1 2024-03-31T00:30Z
crontab alice UTC 1
10,50 * * * * echo hi
script
round 2024-03-31T00:45Z 1
end
";

pub const LATE_VERSION_REPORT: &str = "job alice:1 launched 1 void 3
void alice:1@20240331T0000Z
void alice:1@20240331T0020Z
void alice:1@20240331T0040Z
launch alice:1@20240331T0050Z
end
";

// Another job from an instant on at which both are due: the first one has it.
pub const RENAMED_JOB: &str = "cronrun 1
replicas 1
window 2024-03-31T00:00Z 2024-03-31T01:00Z
grace 0
crontab alice UTC 1
0,20,40 * * * * echo hi
version 1 2024-03-31T00:20Z
crontab bob UTC 1
* * * * * x
script
end
";

pub const RENAMED_JOB_REPORT: &str = "jobs 2
job alice:1 launched 2 void 0
job bob:1 launched 39 void 0
launch alice:1@20240331T0000Z
launch alice:1@20240331T0020Z
launch bob:1@20240331T0021Z
launch bob:1@20240331T0022Z
";

// The first version after version 0 isn't version 2.
pub const VERSION_LEFT_OUT: &str = "cronrun 1
replicas 1
window 2024-03-31T00:00Z 2024-03-31T01:00Z
grace 0
crontab alice UTC 1
0,20,40 * * * * echo hi
version 2 2024-03-31T00:30Z
crontab alice UTC 1
10,50 * * * * echo hi
script
end
";

pub const THREE_LAUNCHES_LIST: &str = "cron due 1
job alice:1 version 0 count 3
due alice:1@20240331T0000Z 2024-03-31T00:00
due alice:1@20240331T0020Z 2024-03-31T00:20
due alice:1@20240331T0040Z 2024-03-31T00:40
end
";

// An hour that is skipped in Paris.
pub const SKIPPED_HOUR: &str = "cronrun 1
replicas 1
window 2024-03-31T00:00Z 2024-03-31T04:00Z
grace 0
zone Europe/Paris posix CET-1CEST,M3.5.0,M10.5.0/3
crontab alice UTC 2
CRON_TZ=Europe/Paris
30 2 * * * x
script
end
";

pub const SKIPPED_HOUR_LIST: &str = "cron due 1
job alice:1 version 0 count 1
due alice:1@20240331T0100Z 2024-03-31T03:00
end
";

// Two lines at fault, beside one that isn't.
pub const TWO_FAULTS: &str = "cronrun 1
replicas 1
window 2024-03-31T00:00Z 2024-03-31T01:00Z
grace 0
crontab alice UTC 4
# a
60 * * * * x
5/2 * * * * x
0 1 * * * x
script
end
";

pub const TWO_FAULTS_CHECK: &str = "cron check 1
line 7 cause 3 at 0
line 8 cause 7 at 2
faults 2
end
";

pub const NO_FAULTS_CHECK: &str = "cron check 1
faults 0
end
";

pub const NO_SECTION: &str = "cronrun 1
replicas 1
window 2024-03-31T00:00Z 2024-03-31T01:00Z
grace 0
script
end";

pub const NO_SECTION_REPORT: &str = "cron report 1
window 2024-03-31T00:00Z 2024-03-31T01:00Z
replicas 1
jobs 0
end
";

// The 13th or a Friday, the 13th alone, and a 31 February, over October 2024.
pub const DAY_RULE: &str = "cronrun 1
replicas 1
window 2024-10-01T00:00Z 2024-11-01T00:00Z
grace 0
crontab alice UTC 3
0 0 13 * 5 echo either
0 0\t13  * * echo the 13th\t
0 0 31 2 * echo never
script
end
";

pub const DAY_RULE_REPORT: &str = "cron report 1
window 2024-10-01T00:00Z 2024-11-01T00:00Z
replicas 1
jobs 3
job alice:1 launched 5 void 0
job alice:2 launched 1 void 0
job alice:3 launched 0 void 0
launch alice:1@20241004T0000Z
launch alice:1@20241011T0000Z
launch alice:1@20241013T0000Z
launch alice:1@20241018T0000Z
launch alice:1@20241025T0000Z
launch alice:2@20241013T0000Z
end
";

// The same 31 February over 400 days.
pub const NEVER: &str = "cronrun 1
replicas 1
window 2024-01-01T00:00Z 2025-02-04T00:00Z
grace 0
crontab alice UTC 1
0 0 31 2 * echo never
script
end
";

pub const NEVER_REPORT: &str = "cron report 1
window 2024-01-01T00:00Z 2025-02-04T00:00Z
replicas 1
jobs 1
job alice:1 launched 0 void 0
end
";

// A system table over two days.
pub const SYSTEM: &str = "cronrun 1
replicas 1
window 2024-03-31T00:00Z 2024-04-02T00:00Z
grace 0
system etc UTC 6
# m h dom mon dow user command
MAILTO = ops
@hourly root run-parts /etc/cron.hourly
0 3 * * * www-data /usr/bin/certbot -q renew
30 0 1 * * root logrotate
15 2 1 4 Mon root cat%one%two
script
end
";

pub const SYSTEM_JOBS: &str = "jobs 4
job etc:1 launched 48 void 0
job etc:2 launched 2 void 0
job etc:3 launched 1 void 0
job etc:4 launched 1 void 0
";

// A job whose minute and hour are its own choice.
pub const CHOICE: &str = "cronrun 1
replicas 1
window 2024-03-31T00:00Z 2024-04-01T00:00Z
grace 0
crontab a UTC 1
? ? * * * b
script
end
";

pub const CHOICE_JOBS: &str = "jobs 1
job a:1 launched 1 void 0
launch a:1@20240331T0546Z
end
";

// The line of a zone that isn't named, one whose name is taken, and one whose rule is none.
pub const FOREIGN_ZONE: &str = "cronrun 1
replicas 1
window 2024-03-31T00:00Z 2024-03-31T01:00Z
grace 0
crontab alice UTC 2
CRON_TZ=Mars/Base
0,20,40 * * * * echo hi
script
end
";

pub const ZONE_LINE: &str = "cronrun 1
replicas 1
window 2024-03-31T00:00Z 2024-03-31T01:00Z
grace 0
zone UTC fixed +05:30
script
end
";

pub const ZONE_RULE: &str = "cronrun 1
replicas 1
window 2024-03-31T00:00Z 2024-03-31T01:00Z
grace 0
zone I fixed +05:30
zone J posix no rule
script
end
";

// Two sections under one label.
pub const ONE_LABEL: &str = "cronrun 1
replicas 1
window 2024-03-31T00:00Z 2024-03-31T01:00Z
grace 0
crontab alice UTC 1
0 0 * * * echo one
crontab alice UTC 1
0 0 * * * echo two
script
end
";

pub const CUT: &str = "cronrun 1
replicas 1
window 2024-03-31T00:00Z 2024-03-31T01:00Z
grace 0
crontab alice UTC 1
0,20,40 * * * * echo hi
script
";

pub const ZERO_BYTE: &str = "cronrun 1
replicas 1
window 2024-03-31T00:00Z 2024-03-31T01:00Z
grace 0
crontab alice UTC 1
0,20,40 * * * * echo \0
script
end
";

pub const TOO_LARGE: &str = "cron_cluster: line 0: cause 33 at 0\n";

pub const USAGE: &str =
    "cron_cluster: usage: cron_cluster [--journal] [--lanes N] [--make SEED] [--list] [--check] [--watch] [--audit]\n";

/// The first byte of its second line is none of UTF-8.
pub const NOT_TEXT: &[u8] = b"cronrun 1\n\xff\n";
