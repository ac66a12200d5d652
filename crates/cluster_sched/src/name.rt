ghost use Rattle.std.specs.Prelude.{◌≡◌, ◌≢◌, ◌↔◌, ◌<◌, ◌≤◌, ◌+◌, ℕ, ℤ, ◌∷◌, ◌++◌, length, IsTrue, IfSome, IfNone, OnOk, OnErr, string_bytes, string_len, string_capacity};
ghost use Rattle.due_set.specs.Table.{IsSound, is_by_period, job_name};
ghost use Rattle.cluster_sched.specs.Names.{IsCalendarTime, IsNameIn, IsTimeNear, LacksAt, name_text, time_text};
ghost use Rattle.cluster_sched.specs.declared.row.Name.{Name};

use crate::row::Name;
use cron_io::OutOfMemory;
use due_set::JobTable;
use zone_minutes::{Minute, day_of, read_basic_stamp, read_date, write_basic_stamp, write_date};

/// Whether a name is one of a launch of the table's jobs.
pub fn is_name_in(table: &JobTable, name: Name) -> bool
    ensures { IsTrue result ↔ IsNameIn table.now name }
{
    name.job < table.jobs() && is_time_near(table, name)
}

// Whether the launch is on a day near the window, or at an instant of it.
fn is_time_near(table: &JobTable, name: Name) -> bool
    requires { name.job < length table.now.jobs }
    ensures { IsTrue result ↔ IsTimeNear table.now.window (is_by_period table.now name.job) name.at }
{
    let window = table.window();
    if table.is_anacron(name.job) {
        let first = day_of(window.from.0);
        let last = day_of(window.until.0 - 1);
        first - 2 <= name.at && name.at <= last + 2
    } else {
        window.contains(Minute(name.at))
    }
}

/// Appends a launch's name as a text: its job's name, `@`, and when it is, as alice:1@20240331T0100Z or, of a job that
/// runs by its period, backup@2024-03-31. `into` is unchanged without memory, which can be wanting only where it has no room.
pub fn write_name(table: &JobTable, name: Name, into: &mut String) -> Result<(), OutOfMemory>
    requires { IsNameIn table.now name }
    ensures ok { OnOk result (string_bytes into.new ≡ string_bytes into.old ++ name_text table.now name) }
    ensures err { OnErr result (string_bytes into.new ≡ string_bytes into.old) }
    ensures full { OnErr result (string_capacity into.old < string_len into.old + length (name_text table.now name)) }
{
    let job = table.name(name.job);
    // With room for the job's name, `@` and what comes after it nothing can be cut short.
    into.reserve(job.len() + 1 + time_len(table, name.job))?;
    into.push_str(job)?;
    into.push('@')?;
    write_time(table, name, into)
}

// How many bytes a name has after its `@`: those of a date or of a stamp.
fn time_len(table: &JobTable, job: u32) -> usize
    requires { job < length table.now.jobs }
    ensures len { (at : ℤ) → length (time_text (is_by_period table.now job) at) ≡ result }
    ensures bound { result ≤ 14 }
{
    if table.is_anacron(job) { 10 } else { 14 }
}

// Appends what a name has after its `@`.
fn write_time(table: &JobTable, name: Name, into: &mut String) -> Result<(), OutOfMemory>
    requires job { name.job < length table.now.jobs }
    requires calendar { IsCalendarTime (is_by_period table.now name.job) name.at }
    ensures ok { OnOk result (string_bytes into.new ≡ string_bytes into.old ++ time_text (is_by_period table.now name.job) name.at) }
    ensures err { OnErr result (string_bytes into.new ≡ string_bytes into.old) }
    ensures full { OnErr result (string_capacity into.old < string_len into.old + length (time_text (is_by_period table.now name.job) name.at)) }
{
    if table.is_anacron(name.job) {
        write_date(name.at, into)
    } else {
        write_basic_stamp(Minute(name.at), into)
    }
}

/// The launch of the table's jobs that has this name, or `None` where no launch has it.
pub fn read_name(table: &JobTable, text: &str) -> Option<Name>
    ensures read { IfSome result (λ name. IsNameIn table.now name × (text.now ≡ name_text table.now name)) }
    ensures none { IfNone result ((name : Name) → IsNameIn table.now name → text.now ≢ name_text table.now name) }
{
    let (job, time) = split_name(text)?;
    let job = job_named(table, job)?;
    let at = read_time(table, job, time)?;
    let name = Name { job, at };
    if is_time_near(table, name) {
        Some(name)
    } else {
        None
    }
}

// What stands before and after the last `@`.
fn split_name(text: &str) -> Option<(&str, &str)>
    ensures parts { IfSome result (λ parts. text.now ≡ parts.0.now ++ 64 ∷ parts.1.now) }
    ensures last { IfSome result (λ parts. LacksAt parts.1.now) }
    ensures none { IfNone result (LacksAt text.now) }
{
    text.rsplit_once('@')
}

// The number of the job that has this name.
fn job_named(table: &JobTable, name: &str) -> Option<u32>
    ensures found { IfSome result (λ job. (job < length table.now.jobs) × (job_name table.now job ≡ name.now)) }
    ensures one { IfSome result (λ job. (other : ℕ) → other < length table.now.jobs → job_name table.now other ≡ name.now → other ≡ job) }
    ensures none { IfNone result ((job : ℕ) → job < length table.now.jobs → job_name table.now job ≢ name.now) }
    ensures sound { IsSound table.now }
{
    for job in 0..table.jobs() {
        if table.name(job) == name {
            return Some(job);
        }
    }
    None
}

// When a launch of the job is, by what its name has after the `@`.
fn read_time(table: &JobTable, job: u32, time: &str) -> Option<i64>
    requires { job < length table.now.jobs }
    ensures read { IfSome result (λ at. IsCalendarTime (is_by_period table.now job) at × (time.now ≡ time_text (is_by_period table.now job) at)) }
    ensures none { IfNone result ((at : ℤ) → IsCalendarTime (is_by_period table.now job) at → time.now ≢ time_text (is_by_period table.now job) at) }
{
    if table.is_anacron(job) {
        read_date(time)
    } else {
        let at = read_basic_stamp(time)?;
        Some(at.0)
    }
}
