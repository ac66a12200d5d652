//! The calendar: civil minutes to dates and back, stamps, months and years, local time by a zone. Dates are those of
//! the proleptic Gregorian calendar, counted day by day (`civil_of`: `civil_at`; `weekday_of`, `first_of_month`,
//! `first_of_year`). A text is read as a stamp exactly if it is the stamp of an instant of the years 0000 to 9999,
//! and as a date exactly if it is that of a day of these years (`read_stamp`, `read_basic_stamp`, `read_date` and
//! the calls that write them; `stamps_differ`). Local time is what `jiff` gives for the zone, of a fixed offset, a
//! TZ rule or a TZif file (`ZoneRuns::local`, `zones_read_alike`). A zone that was built is one that `jiff` reads,
//! and one that is refused for another cause than memory is one that `jiff` refuses (`ZoneRuns::build`, clauses
//! `read`, `refused`, `unread`). `ZoneRuns::run_at` is the longest stretch of known instants round one over which
//! the clocks are neither put forward nor back (`IsRunAt`).
#![tactic(auto)]

mod civil;
mod listing;
mod minute;
mod run;
mod source;
mod stamp;
mod zone;

pub use civil::{
    Civil, a_later_month_begins_later, civil_of, day_of, first_of_month, first_of_year, number_of,
    weekday_of,
};
pub use minute::{Minute, Window};
pub use run::Run;
pub use source::{ZoneFault, ZoneSource};
pub use stamp::{
    read_basic_stamp, read_date, read_stamp, stamps_differ, stamps_have_one_length,
    write_basic_stamp, write_date, write_stamp,
};
pub use zone::{
    ZoneRuns, fixed_offset_is_added, no_source_is_read_and_refused, utc_is_its_own_local_time,
    zones_read_alike,
};
