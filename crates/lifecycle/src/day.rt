// The day on which rows are judged: its midnight stands for all of its instants, so that no row's days are rounded by a division.
ghost use Rattle.std.specs.Prelude.{◌≡◌, ◌≤◌};
ghost use Rattle.calendar.specs.Calendar.{latest};
ghost use Rattle.calendar.specs.Periods.{day_start};
ghost use Rattle.lifecycle.specs.Days.{over};

// An instant, and the midnight at which its day began.
#[derive(Clone, Copy)]
pub struct Day {
    pub instant: u64,
    pub midnight: u64,
    ghost begun: { midnight ≡ day_start instant },
}

impl Day {
    // The day of an instant.
    pub fn of(instant: u64) -> Day
        ensures { result.instant ≡ instant }
    {
        Day {
            instant,
            midnight: calendar::day_start(instant),
        }
    }

    // The days stand for an action, and by this midnight they have expired since an instant.
    pub fn is_over(self, days: u64, since: u64) -> bool
        requires { (since ≤ latest) × (days ≤ 36500) }
        ensures { result ≡ over days since self.midnight }
    {
        days != 0 && calendar::has_expired(since, days, self.midnight)
    }
}
