ghost use Rattle.std.specs.Prelude.{◌≡◌, ◌≤◌, None, Some};
ghost use Rattle.web_outside.specs.Causes.{Rose};
ghost use Rattle.web_disk.specs.Fates.{Counts};

/// Which calls fail. They are counted from 0.
#[derive(Drop)]
pub struct Plan {
    failing: Vec<u64>,
    // The number of calls after which each one fails.
    stop: Option<u64>,
    made: u64,
    faults: u64,
}

/// What becomes of a call.
#[derive(Clone, Copy, Debug, PartialEq, Eq)]
pub enum Fate {
    /// It does its work.
    Done,
    /// It fails, and may have done some of its work.
    Fails,
    /// It fails and does nothing.
    Stopped,
}

impl Plan {
    /// The calls of these numbers fail. None was made.
    pub fn new(failing: Vec<u64>) -> Plan
        ensures failing { result.failing.items ≡ failing.items }
        ensures stop { result.stop ≡ None }
        ensures made { result.made ≡ 0 }
        ensures faults { result.faults ≡ 0 }
    {
        Plan {
            failing,
            stop: None,
            made: 0,
            faults: 0,
        }
    }

    /// How many calls failed, up to the type's end.
    pub fn faults(&self) -> u64
        ensures { result ≡ self.now.faults }
    {
        self.faults
    }

    /// Lets so many calls be made, counted from the first; each later one fails and does nothing.
    pub fn stop_at(&mut self, calls: u64)
        ensures { self.new ≡ record self.old { stop = Some calls } }
    {
        self.stop = Some(calls);
    }

    /// Lets calls be made without a stop again, and counts faults from 0.
    pub fn begin_anew(&mut self)
        ensures { self.new ≡ record self.old { stop = None; faults = 0 } }
    {
        self.stop = None;
        self.faults = 0;
    }

    /// Counts a call and tells what becomes of it.
    pub fn count_call(&mut self) -> Fate
        ensures counts { Counts self.old self.new result }
        ensures later { self.old.faults ≤ self.new.faults }
        ensures rose { (result ≡ Fate.Done → ⊥) → Rose self.old.faults self.new.faults }
    {
        let number = self.made;
        self.made = number.saturating_add(1);
        let stopped = self.stop.is_some_and(|stop| stop <= number);
        let fails = self.failing.contains(&number);
        if stopped || fails {
            self.faults = self.faults.saturating_add(1);
        }
        if stopped {
            Fate::Stopped
        } else if fails {
            Fate::Fails
        } else {
            Fate::Done
        }
    }
}
