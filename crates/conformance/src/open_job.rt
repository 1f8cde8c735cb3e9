//! The open jobs of a path.

ghost use Rattle.std.specs.Prelude.{◌≡◌, ◌<◌, ◌==◌, false, length, position, IfSome, IsTrue};
ghost use Rattle.conformance.specs.MissingJob.{first_in};
ghost use Rattle.conformance.specs.Path as spec;

/// A job of a path that is submitted and not yet got.
#[derive(Clone, Copy)]
pub struct OpenJob {
    /// The index of its submit in the path.
    pub job: usize,
    pub class: usize,
}

/// Returns the number of jobs in `jobs` that have the class.
pub(crate) fn count_in(class: usize, jobs: &[OpenJob]) -> usize
    ensures { result ≡ spec.count_in class jobs.now }
{
    jobs.iter().filter(|one| one.class == class).count()
}

/// Returns the first job in `jobs` that has the class, as the index of its submit in the path.
/// Returns `None` if no job has the class.
pub(crate) fn first_in(class: usize, jobs: &[OpenJob]) -> Option<usize>
    ensures { result ≡ first_in class jobs.now }
{
    match jobs.iter().find(|one| one.class == class) {
        Some(one) => Some(one.job),
        None => None,
    }
}

/// Returns true if the two lists are equal.
pub(crate) fn are_same(one: &[OpenJob], other: &[OpenJob]) -> bool
    ensures same { IsTrue result → one.now ≡ other.now }
    ensures differ { result ≡ false → ¬ (one.now ≡ other.now) }
{
    if one.len() != other.len() {
        return false;
    }
    for index in 0..one.len() {
        if one[index].job != other[index].job || one[index].class != other[index].class {
            return false;
        }
    }
    true
}

/// Removes a job from `jobs` and returns its class. `job` is the index of the job's submit in the
/// path. Returns `None` if the job is not in `jobs`.
pub(crate) fn take_job(jobs: &mut Vec<OpenJob>, job: usize) -> Option<usize>
    ensures class { result ≡ spec.open_class job jobs.old.items }
    ensures jobs { jobs.new.items ≡ spec.without job jobs.old.items }
{
    match index_of(jobs, job) {
        Some(index) => {
            let one = jobs.remove(index);
            Some(one.class)
        }
        None => None,
    }
}

fn index_of(jobs: &[OpenJob], job: usize) -> Option<usize>
    ensures value { result ≡ position (λ one. one.job == job) jobs.now }
    ensures bound { IfSome result (λ index. index < length jobs.now) }
{
    jobs.iter().position(|one| one.job == job)
}
