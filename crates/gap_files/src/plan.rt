//! Which calls are to fail.
ghost use Rattle.std.specs.Prelude.{◌≡◌, ◌↔◌, IsTrue};
ghost use Rattle.gap_files.specs.Plan.{next_call, IsToFail};

/// How many calls were begun, and the numbers of those that are to fail, counted from 1.
#[derive(Drop)]
pub(crate) struct Plan {
    calls: u64,
    fail: Vec<u64>,
}

impl Plan {
    pub(crate) fn new(fail: Vec<u64>) -> Plan
        ensures calls { result.calls ≡ 0 }
        ensures fail { result.fail ≡ fail }
    {
        Plan { calls: 0, fail }
    }

    /// Counts a call, and answers whether it is to fail.
    pub(crate) fn begin(&mut self) -> bool
        ensures answer { IsTrue result ↔ IsToFail self.old.fail.items self.old.calls }
        ensures calls { self.new.calls ≡ next_call self.old.calls }
        ensures fail { self.new.fail ≡ self.old.fail }
    {
        self.calls = self.calls.saturating_add(1);
        self.fail.contains(&self.calls)
    }
}
