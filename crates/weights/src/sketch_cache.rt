//! A cache of the sketches of one search. A sketch has the weights that determine the total of a
//! vector.

ghost use Rattle.std.specs.Prelude.{◌<◌, ◌≤◌, IfOk, vec_len};

use crate::Levels;
use crate::sketch::Sketch;
use crate::target::Target;
use job_bodies::Plan;
use std::alloc::{AllocError, Global};

/// The weight of a worker of each pool, and the sketch for these weights.
#[derive(Drop)]
struct CachedSketch {
    workers: Vec<u64>,
    sketch: Sketch,
}

/// A cache of the sketches of one target, by worker weights.
#[derive(Drop)]
pub(crate) struct SketchCache<'a> {
    alloc: Global,
    pub(crate) plan: &'a Plan,
    levels: &'a Levels,
    pub(crate) target: &'a Target<'a>,
    sketches: Vec<CachedSketch>,
}

impl<'a> SketchCache<'a> {
    /// Creates an empty cache for the sketches of the target.
    pub(crate) fn new(
        alloc: Global,
        plan: &'a Plan,
        levels: &'a Levels,
        target: &'a Target<'a>,
    ) -> SketchCache<'a> {
        SketchCache {
            alloc,
            plan,
            levels,
            target,
            sketches: Vec::new(alloc),
        }
    }

    /// Returns the index of the sketch for these worker weights. Computes the sketch if the cache
    /// does not have it.
    pub(crate) fn index_of(&mut self, workers: &[u64]) -> Result<usize, AllocError>
        ensures in_range { IfOk result (λ place. place < vec_len self.new.sketches) }
        ensures kept { vec_len self.old.sketches ≤ vec_len self.new.sketches }
    {
        let known = self
            .sketches
            .iter()
            .position(|cached| cached.workers.as_slice() == workers);
        if let Some(place) = known {
            return Ok(place);
        }
        let place = self.sketches.len();
        let sketch = Sketch::of(self.alloc, self.plan, self.levels, self.target, workers)?;
        let workers = Vec::from_slice(self.alloc, workers)?;
        self.sketches.push(CachedSketch { workers, sketch })?;
        Ok(place)
    }

    /// Returns the number of *overweight* classes for these worker weights. A class is overweight
    /// if it is never submitted and has a weight above `MAX_WEIGHT`. Computes the sketch anew and
    /// does not cache it.
    pub(crate) fn overweight_unsubmitted(&self, workers: &[u64]) -> Result<usize, AllocError> {
        let sketch = Sketch::of(self.alloc, self.plan, self.levels, self.target, workers)?;
        Ok(sketch.overweight_unsubmitted)
    }

    /// Returns the sketch at this index.
    pub(crate) fn sketch(&self, place: usize) -> &Sketch
        requires { place < vec_len self.now.sketches }
    {
        &self.sketches[place].sketch
    }

    /// Consumes the cache and returns the sketch at this index.
    pub(crate) fn into_sketch(mut self, place: usize) -> Sketch
        requires { place < vec_len self.sketches }
    {
        self.sketches.swap_remove(place).sketch
    }
}
