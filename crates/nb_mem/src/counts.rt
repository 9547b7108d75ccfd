ghost use Rattle.std.specs.Prelude.{◌≡◌, ◌↔◌, IsTrue, IsErr, OnOk, OnErr, alloc_error};
ghost use Rattle.nb_host.specs.Causes.{CountsFault, own_count};
ghost use Rattle.nb_mem.specs.Memory.{raised, is_due};

use nb_host::HostFault;
use std::alloc::AllocError;

/// Which calls fail, and how many there were and failed. A count stands still at its last value.
#[derive(Drop)]
pub struct Counts {
    pub calls: u64,
    pub faults: u64,
    pub shortages: u64,
    pub failing: Vec<u64>,
    pub stop: Option<u64>,
}

fn raised(count: u64) -> u64
    ensures { result ≡ raised count }
{
    count.saturating_add(1)
}

impl Counts {
    pub fn new(failing: Vec<u64>, stop: Option<u64>) -> Counts
        ensures { result ≡ record { calls = 0; faults = 0; shortages = 0; failing = failing; stop = stop } }
    {
        Counts {
            calls: 0,
            faults: 0,
            shortages: 0,
            failing,
            stop,
        }
    }

    /// Whether the call of that number is to fail.
    fn is_due(&self, number: u64) -> bool
        ensures { result ≡ is_due self.now.failing.items self.now.stop number }
    {
        self.failing.contains(&number) || self.stop.is_some_and(|stop| stop <= number)
    }

    /// Counts a call, and fails it where it is to fail.
    pub fn enter(&mut self) -> Result<(), HostFault>
        ensures cause { CountsFault result (own_count self.old.faults) (own_count self.new.faults) }
        ensures due { IsTrue (is_due self.old.failing.items self.old.stop (raised self.old.calls)) ↔ IsErr result }
        ensures ok { OnOk result (self.new ≡ record self.old { calls = raised self.old.calls }) }
        ensures err { OnErr result (self.new ≡ record self.old { calls = raised self.old.calls; faults = raised self.old.faults }) }
    {
        self.calls = raised(self.calls);
        if self.is_due(self.calls) {
            self.faults = raised(self.faults);
            return Err(HostFault);
        }
        Ok(())
    }

    /// Counts a fault where memory ran out.
    pub fn settle(&mut self, outcome: Result<(), AllocError>) -> Result<(), HostFault>
        ensures cause { CountsFault result (own_count self.old.faults) (own_count self.new.faults) }
        ensures ok { OnOk result ((outcome ≡ Ok tt) × (self.new ≡ self.old)) }
        ensures err { OnErr result ((outcome ≡ Err alloc_error) × (self.new ≡ record self.old { faults = raised self.old.faults; shortages = raised self.old.shortages })) }
    {
        match outcome {
            Ok(()) => Ok(()),
            Err(AllocError) => {
                self.faults = raised(self.faults);
                self.shortages = raised(self.shortages);
                Err(HostFault)
            }
        }
    }
}
