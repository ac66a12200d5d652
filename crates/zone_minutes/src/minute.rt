/// An instant: whole minutes since 1970-01-01T00:00Z.
#[derive(Clone, Copy, Debug, PartialEq, Eq, PartialOrd, Ord, Hash)]
pub struct Minute(pub i64);

// 1971-01-01T00:00Z.
const EARLIEST: i64 = 525_600;

// 2200-01-01T00:00Z.
const LATEST: i64 = 120_968_640;

// 400 days, in minutes.
const LONGEST: i64 = 576_000;

/// The instants from `from` on and before `until`.
#[derive(Clone, Copy, Debug, PartialEq, Eq)]
pub struct Window {
    pub from: Minute,
    pub until: Minute,
}

impl Window {
    ghost use Rattle.std.specs.Prelude.{◌↔◌, IsTrue};
    ghost use Rattle.zone_minutes.specs.Window.{IsInWindow, IsWithinLimits};

    /// Whether the instant is in the window.
    pub fn contains(&self, instant: Minute) -> bool
        ensures { IsTrue result ↔ IsInWindow self.now instant.0 }
    {
        self.from <= instant && instant < self.until
    }

    /// Whether the window is from 1971 on, up to 2200, not empty and of at most 400 days.
    pub fn is_within_limits(&self) -> bool
        ensures { IsTrue result ↔ IsWithinLimits self.now }
    {
        let (from, until) = (self.from.0, self.until.0);
        if from < EARLIEST || until > LATEST {
            return false;
        }
        from < until && until - from <= LONGEST
    }
}
