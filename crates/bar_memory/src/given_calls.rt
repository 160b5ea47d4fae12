ghost use Rattle.std.specs.Prelude.{◌≡◌, IfOk};
ghost use Rattle.bar_memory.specs.Memory.{Calls, next_fails, one_call_more};

use bar_base::NoMemory;
use std::alloc::Global;
use std::marker::Model;

/// The numbers of the calls at which an object in memory is to fail, counted from 1, and how many calls were made.
#[derive(Debug, Drop)]
pub(crate) struct GivenCalls {
    failing: Vec<u64>,
    made: u64,
}

impl Model for GivenCalls {
    ghost Value = { Calls };

    ghost view = { λ c. record { failing = c.failing.items; made = c.made } };
}

impl GivenCalls {
    /// These numbers, before the first call.
    pub(crate) fn new(alloc: Global, failing: &[u64]) -> Result<GivenCalls, NoMemory>
        ensures fresh { IfOk result (λ calls. calls ≡ record { failing = failing.now; made = 0 }) }
    {
        let failing = failing.to_vec(alloc)?;
        Ok(GivenCalls { failing, made: 0 })
    }

    /// Counts one more call, and says whether it is to fail.
    pub(crate) fn next(&mut self) -> bool
        ensures given { result ≡ next_fails self.old }
        ensures counted { self.new ≡ one_call_more self.old }
    {
        let made = self.made;
        self.made = made.saturating_add(1);
        self.failing
            .iter()
            .any(|number| *number > made && *number - made == 1)
    }
}
