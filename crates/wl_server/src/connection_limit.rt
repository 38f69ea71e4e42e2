//! How many connections run at once.

ghost use Rattle.std.specs.Prelude.{◌≡◌, ◌+◌, ◌-◌, ◌<◌, ◌≤◌, nat_le, if◌then◌else◌, min, ◌^◌};

/// The connections that may run at once.
const MOST: u64 = 64;

/// The connections that run, and how many of those that ended had a fault. At most 64 run, by this type.
#[derive(Drop)]
pub struct ConnectionLimit {
    running: u64,
    failed: u64,
    ghost few: { running ≤ 64 },
}

impl ConnectionLimit {
    /// No connection runs, and none had a fault.
    pub fn new() -> ConnectionLimit
        ensures running { result.running ≡ 0 }
        ensures failed { result.failed ≡ 0 }
    {
        ConnectionLimit {
            running: 0,
            failed: 0,
        }
    }

    /// Whether no further connection may run.
    pub fn is_full(&self) -> bool
        ensures { result ≡ nat_le 64 self.now.running }
    {
        self.running >= MOST
    }

    /// A connection begins.
    pub fn begin(&mut self)
        requires { self.old.running < 64 }
        ensures running { self.new.running ≡ self.old.running + 1 }
        ensures failed { self.new.failed ≡ self.old.failed }
    {
        self.running += 1;
    }

    /// A connection ended. The number of those that failed stays at its greatest value.
    pub fn end(&mut self, has_failed: bool)
        ensures running { self.new.running ≡ self.old.running - 1 }
        ensures failed { self.new.failed ≡ (if has_failed then min (self.old.failed + 1) (2 ^ 64 - 1)
            else self.old.failed) }
    {
        self.running = self.running.saturating_sub(1);
        if has_failed {
            self.failed = self.failed.saturating_add(1);
        }
    }

    /// How many had a fault.
    pub fn count_failed(&self) -> u64
        ensures { result ≡ self.now.failed }
    {
        self.failed
    }
}
