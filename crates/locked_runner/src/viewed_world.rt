//! A wrapper of a [`World`] with simpler contracts. They mention only the live jobs, the pools and
//! the clients of the world, and its number of refused submits.

ghost use Rattle.std.specs.Prelude.{◌≡◌, IfOk, OnErr};
ghost use Rattle.job_bodies.specs.WellFormed.{IsWellFormed};
ghost use Rattle.pool_machine.specs.State.{State};
ghost use Rattle.pool_machine.specs.Reach.{start, IsReached};
ghost use Rattle.interleaving.specs.LiveView.{live_view};
ghost use Rattle.interleaving.specs.ViewAnswers.{AnswersAs};

use interleaving::{Event, Outcome, World};
use job_bodies::Plan;
use std::alloc::{AllocError, Global};
use std::marker::Model;

/// A [`World`] whose contracts mention only its live jobs, pools and clients, and its number of
/// refused submits. A `World` also has *places* in memory for live jobs, some of which can be free.
/// The contracts do not mention the number of places, because the state of the plan does not
/// determine it.
#[derive(Drop)]
pub struct ViewedWorld {
    world: World,
}

impl Model for ViewedWorld {
    ghost use Rattle.interleaving.specs.LiveView.{View};

    ghost Value = { View };

    ghost view = { λ seen. seen.world.view };
}

impl ViewedWorld {
    ghost use Rattle.interleaving.specs.OfPlan.{IsReachableView};
    ghost use Rattle.interleaving.specs.Answers.{AnswersIn};

    /// Creates the world in the initial state of the plan.
    ///
    /// # Errors
    ///
    /// Returns `AllocError` if there is not enough memory.
    pub fn start(alloc: Global, plan: &Plan) -> Result<ViewedWorld, AllocError>
        ensures { IfOk result (λ world. world ≡ live_view plan.now (start plan.now)) }
    {
        Ok(ViewedWorld {
            world: World::start(alloc, plan)?,
        })
    }

    /// Returns the wrapped [`World`], whose contracts also mention its number of places for live
    /// jobs.
    pub fn world(&self) -> &World
        ensures { result.now.view ≡ self.now }
    {
        &self.world
    }

    /// Performs the event and returns its outcome, as [`World::step`] does. Returns `None` if the
    /// event is not possible.
    ///
    /// # Errors
    ///
    /// Returns `AllocError` if [`World::step`] does. The world is then unchanged.
    pub fn step(&mut self, plan: &Plan, event: Event) -> Result<Option<Outcome>, AllocError>
        requires { IsReachableView plan.now self.old }
        ensures answered { IfOk result (λ answer.
            (s : State)
            → IsReached plan.now s
            → live_view plan.now s ≡ self.old
            → AnswersAs plan.now s event answer self.new) }
        ensures in_view { IfOk result
            (λ answer. AnswersIn plan.now self.old event answer self.new) }
        ensures of_plan { IsReachableView plan.now self.new }
        ensures well_formed { IsWellFormed plan.now }
        ensures error_unchanged { OnErr result (self.new ≡ self.old) }
    {
        self.world.step(plan, event)
    }
}
