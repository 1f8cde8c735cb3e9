//! The state machine of a certified plan. A state of the machine is a *world*: the pools, the
//! clients and the live jobs of the plan, and the number of refused submits.

ghost use Rattle.std.specs.Prelude.{IsTrue};
ghost use Rattle.job_bodies.specs.WellFormed.{IsWellFormed};
ghost use Rattle.soundness.specs.Accepted.{accepted};

use crate::ViewedWorld;
use cert_check::Certified;
use held_machines::Machine;
use interleaving::{Event, Outcome};
use std::alloc::{AllocError, Global};

/// The machine of a plan that a certificate accepts. It borrows the plan and the certificate.
#[derive(Clone, Copy, Drop)]
pub struct CertifiedWorld<'a> {
    certified: &'a Certified,
    ghost well_formed: { IsWellFormed certified.now.plan },
    ghost accepted: { IsTrue (accepted certified.now.plan certified.now.cert) },
}

impl<'a> CertifiedWorld<'a> {
    ghost use Rattle.std.specs.Prelude.{◌≡◌};

    pub fn new(certified: &'a Certified) -> CertifiedWorld<'a>
        ensures { result.certified.now ≡ certified.now }
    {
        let _pools = certified.plan().pools();
        let _cert = certified.cert();
        CertifiedWorld { certified }
    }
}

/// A state of the machine: a world, and the outcome of the last event. The outcome shows which job,
/// if any, the event started, queued or took from a queue.
#[derive(Drop)]
pub struct TracedWorld {
    pub world: ViewedWorld,
    /// The outcome of the last event, or `None` before the first event.
    pub outcome: Option<Outcome>,
}

impl Machine for CertifiedWorld<'_> {
    ghost use Rattle.interleaving.specs.LiveView.{live_view};
    ghost use Rattle.locked_runner.specs.Trace.{StateWithOutcome, start, next};

    type State = TracedWorld;

    type Event = Event;

    ghost SpecState = { StateWithOutcome };

    ghost first = { λ machine. start machine.certified.now.plan };

    ghost next = { λ machine. next machine.certified.now.plan };

    ghost stored_state = { λ machine t. record { world = live_view machine.certified.now.plan t.state; outcome = t.outcome } };

    fn start(&self, alloc: Global) -> Result<TracedWorld, AllocError> {
        Ok(TracedWorld {
            world: ViewedWorld::start(alloc, self.certified.plan())?,
            outcome: None,
        })
    }

    fn step(&self, state: &mut TracedWorld, event: Event) -> Result<bool, AllocError> {
        let Some(outcome) = state.world.step(self.certified.plan(), event)? else {
            return Ok(false);
        };
        state.outcome = Some(outcome);
        Ok(true)
    }
}
