//! Run files of anacrontabs, and their reports.

// The anacrontab of cronie, over forty days.
pub const CRONIE: &str = "cronrun 1
replicas 1
window 2024-03-01T00:00Z 2024-04-10T00:00Z
grace 0
anacrontab anacron UTC 6
SHELL=/bin/sh
RANDOM_DELAY=45
START_HOURS_RANGE=3-22
1\t5\tcron.daily\t\tnice run-parts /etc/cron.daily
7\t25\tcron.weekly\t\tnice run-parts /etc/cron.weekly
@monthly 45\tcron.monthly\t\tnice run-parts /etc/cron.monthly
script
end
";

pub const CRONIE_REPORT: &str = "cron report 1
window 2024-03-01T00:00Z 2024-04-10T00:00Z
replicas 1
jobs 3
job anacron/cron.daily launched 40 void 0
job anacron/cron.weekly launched 6 void 0
job anacron/cron.monthly launched 2 void 0
launch anacron/cron.daily@2024-03-01
launch anacron/cron.daily@2024-03-02
launch anacron/cron.daily@2024-03-03
launch anacron/cron.daily@2024-03-04
launch anacron/cron.daily@2024-03-05
launch anacron/cron.daily@2024-03-06
launch anacron/cron.daily@2024-03-07
launch anacron/cron.daily@2024-03-08
launch anacron/cron.daily@2024-03-09
launch anacron/cron.daily@2024-03-10
launch anacron/cron.daily@2024-03-11
launch anacron/cron.daily@2024-03-12
launch anacron/cron.daily@2024-03-13
launch anacron/cron.daily@2024-03-14
launch anacron/cron.daily@2024-03-15
launch anacron/cron.daily@2024-03-16
launch anacron/cron.daily@2024-03-17
launch anacron/cron.daily@2024-03-18
launch anacron/cron.daily@2024-03-19
launch anacron/cron.daily@2024-03-20
launch anacron/cron.daily@2024-03-21
launch anacron/cron.daily@2024-03-22
launch anacron/cron.daily@2024-03-23
launch anacron/cron.daily@2024-03-24
launch anacron/cron.daily@2024-03-25
launch anacron/cron.daily@2024-03-26
launch anacron/cron.daily@2024-03-27
launch anacron/cron.daily@2024-03-28
launch anacron/cron.daily@2024-03-29
launch anacron/cron.daily@2024-03-30
launch anacron/cron.daily@2024-03-31
launch anacron/cron.daily@2024-04-01
launch anacron/cron.daily@2024-04-02
launch anacron/cron.daily@2024-04-03
launch anacron/cron.daily@2024-04-04
launch anacron/cron.daily@2024-04-05
launch anacron/cron.daily@2024-04-06
launch anacron/cron.daily@2024-04-07
launch anacron/cron.daily@2024-04-08
launch anacron/cron.daily@2024-04-09
launch anacron/cron.weekly@2024-03-01
launch anacron/cron.weekly@2024-03-08
launch anacron/cron.weekly@2024-03-15
launch anacron/cron.weekly@2024-03-22
launch anacron/cron.weekly@2024-03-29
launch anacron/cron.weekly@2024-04-05
launch anacron/cron.monthly@2024-03-01
launch anacron/cron.monthly@2024-04-01
end
";

pub const SLASH: &str = "cronrun 1
replicas 1
window 2024-03-01T00:00Z 2024-04-10T00:00Z
grace 0
anacrontab anacron UTC 2
SHELL=/bin/sh
1 5 a/b x
script
end
";

pub const HOURS: &str = "cronrun 1
replicas 1
window 2024-03-01T00:00Z 2024-04-10T00:00Z
grace 0
anacrontab anacron UTC 2
START_HOURS_RANGE=22-3
1 5 a x
script
end
";

// A job whose first minute is 03:43, in a window up to that minute and one that has it.
pub const UP_TO_THE_FIRST_MINUTE: &str = "cronrun 1
replicas 1
window 2024-03-01T00:00Z 2024-03-01T03:43Z
grace 0
anacrontab l UTC 4
RANDOM_DELAY=45
START_HOURS_RANGE=3-22
1 5 a x
1 5 foobar y
script
end
";

pub const UP_TO_THE_FIRST_MINUTE_JOBS: &str = "jobs 2
job l/a launched 0 void 0
job l/foobar launched 1 void 0
launch l/foobar@2024-03-01
end
";

pub const WITH_THE_FIRST_MINUTE: &str = "cronrun 1
replicas 1
window 2024-03-01T00:00Z 2024-03-01T03:44Z
grace 0
anacrontab l UTC 4
RANDOM_DELAY=45
START_HOURS_RANGE=3-22
1 5 a x
1 5 foobar y
script
end
";

pub const WITH_THE_FIRST_MINUTE_JOBS: &str = "jobs 2
job l/a launched 1 void 0
job l/foobar launched 1 void 0
launch l/a@2024-03-01
launch l/foobar@2024-03-01
end
";
