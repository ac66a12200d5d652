ghost use Rattle.std.specs.Prelude.{◌≡◌, ◌<◌, ◌||◌, ◌↔◌, IsTrue};

/// Which of the five fields of a crontab line, with the numbers that crontab(5) gives it.
#[derive(Clone, Copy, Debug, PartialEq, Eq)]
pub enum FieldKind {
    /// 0 to 59.
    Minute,
    /// 0 to 23.
    Hour,
    /// 1 to 31.
    MonthDay,
    /// 1 to 12.
    Month,
    /// 0 to 7, where both 0 and 7 are Sunday.
    WeekDay,
}

/// The values of one field. Bit `v` of `bits` says that value `v` is in the field; Sunday is bit 0.
#[derive(Clone, Copy, Debug, PartialEq, Eq)]
pub struct FieldSet {
    pub bits: u64,
    /// The field begins with `*`.
    pub star: bool,
    /// The field is `?`, and its one value is picked by a hash.
    pub hashed: bool,
}

impl FieldSet {
    ghost use Rattle.cron_fields.specs.FieldSet.{Has};

    /// The value is in the field.
    pub fn has(&self, value: u8) -> bool
        requires { value < 64 }
        ensures { IsTrue result ↔ Has self.now value }
    {
        self.bits & (1 << value) != 0
    }
}

/// The five fields of a crontab line.
#[derive(Clone, Copy, Debug, PartialEq, Eq)]
pub struct Fields {
    pub minute: FieldSet,
    pub hour: FieldSet,
    pub month_day: FieldSet,
    pub month: FieldSet,
    pub week_day: FieldSet,
}

impl Fields {
    ghost use Rattle.cron_fields.specs.Match.{MatchesDate, MatchesDay, MatchesTime, is_frequent};

    /// The fields match a date: its month (1 to 12), its day of the month (1 to 31) and its weekday, with Sunday
    /// as 0. crontab(5): if either day field begins with `*`, both day fields have to match, and otherwise one of
    /// them is enough.
    pub fn matches_date(&self, month: u8, month_day: u8, week_day: u8) -> bool
        requires month { month < 64 }
        requires month_day { month_day < 64 }
        requires week_day { week_day < 64 }
        ensures { IsTrue result ↔ MatchesDate self.now month month_day week_day }
    {
        self.month.has(month) && self.matches_day(month_day, week_day)
    }

    /// The fields match a time of day: its hour (0 to 23) and its minute (0 to 59).
    pub fn matches_time(&self, hour: u8, minute: u8) -> bool
        requires hour { hour < 64 }
        requires minute { minute < 64 }
        ensures { IsTrue result ↔ MatchesTime self.now hour minute }
    {
        self.hour.has(hour) && self.minute.has(minute)
    }

    /// The minute or the hour begins with `*`. cron(8) of cronie treats such a job otherwise when the clock changes.
    pub fn is_frequent(&self) -> bool
        ensures { result ≡ is_frequent self.now }
    {
        self.minute.star || self.hour.star
    }

    // The day rule of crontab(5).
    fn matches_day(&self, month_day: u8, week_day: u8) -> bool
        requires month_day { month_day < 64 }
        requires week_day { week_day < 64 }
        ensures { IsTrue result ↔ MatchesDay self.now month_day week_day }
    {
        let month_day_in = self.month_day.has(month_day);
        let week_day_in = self.week_day.has(week_day);
        if self.month_day.star || self.week_day.star {
            month_day_in && week_day_in
        } else {
            month_day_in || week_day_in
        }
    }
}
