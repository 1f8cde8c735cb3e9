//! Stable sizes. Sizes are *stable* if a new search finds a certificate that accepts the plan with
//! these sizes.

ghost use Rattle.std.specs.Prelude.{IfOk, OnOk};
ghost use Rattle.size_search.specs.Causes.{IsWithoutCause};
ghost use Rattle.job_bodies.specs.WellFormed.{IsWellFormed};
ghost use Rattle.size_search.specs.Sized.{IsSized, IsFound};

use crate::attempt::growth;
use crate::fit_steady::fit_steady;
use crate::found::{Obstacle, SizesFound};
use crate::least_sizes::least_sizes;
use crate::search::unchecked_certificate;
use cert_check::accepts;
use cert_text::Cert;
use job_bodies::Plan;
use std::alloc::{AllocError, Global};

/// The maximum number of times that the search is repeated.
const MAX_TURNS: usize = 4;

/// The result of a new search for a certificate, made for the plan with the sizes that were found.
#[derive(Clone, Copy)]
enum Recheck {
    /// The search found a certificate that accepts the plan with these sizes, or the search was
    /// skipped because no size was raised.
    Same,
    /// The search found a certificate that needs larger sizes than these, and there are such sizes.
    More,
    /// The search found no certificate, or no sizes are enough for the certificate.
    Nothing,
}

/// Searches for stable sizes. Sizes are *stable* if a new search finds a certificate that accepts
/// the plan with these sizes. Returns the plan with the resulting sizes, and a certificate that
/// accepts this plan. `fit` is `plan` with the sizes that were found, and `cert` is a certificate
/// that accepts `fit`.
///
/// 1. If no size of `fit` is larger than in `plan`, or if a new search finds a certificate that
///    accepts `fit`, returns `fit` and `cert`.
/// 2. If the new search finds a certificate that needs larger sizes, repeats step 1 with this
///    certificate and these sizes. There are at most [`MAX_TURNS`] new searches.
/// 3. In all other cases, returns the least sizes for the steady certificate. If these sizes are
///    too large, returns the last `fit` and `cert`.
pub(crate) fn stabilize(
    alloc: Global,
    plan: &Plan,
    fit: Plan,
    cert: Cert,
) -> Result<SizesFound, AllocError>
    requires free { IsWithoutCause plan.now }
    requires well_formed { IsWellFormed plan.now }
    requires sized { IsSized plan.now cert fit }
    ensures { IfOk result (IsFound plan.now) }
{
    let mut fit = fit;
    let mut cert = cert;
    if raise_until_stable(alloc, plan, &mut fit, &mut cert)? {
        return Ok(SizesFound::Found { plan: fit, cert });
    }
    match fit_steady(alloc, plan, Obstacle::Unknown)? {
        SizesFound::NotFound(_) => Ok(SizesFound::Found { plan: fit, cert }),
        found => Ok(found),
    }
}

/// Executes the steps 1 and 2 of [`stabilize`], which replace `fit` and `cert`. Returns whether the
/// resulting sizes are stable.
fn raise_until_stable(
    alloc: Global,
    plan: &Plan,
    fit: &mut Plan,
    cert: &mut Cert,
) -> Result<bool, AllocError>
    requires { IsSized plan.now cert.old fit.old }
    ensures { OnOk result (IsSized plan.now cert.new fit.new) }
{
    for _turn in 0..MAX_TURNS {
        match recheck_sizes(alloc, plan, fit, cert)? {
            Recheck::Same => return Ok(true),
            Recheck::More => {}
            Recheck::Nothing => break,
        }
    }
    Ok(false)
}

/// Searches anew for a certificate of `fit`, which is `plan` with the sizes that were found. If the
/// search finds a certificate that needs larger sizes, stores it in `cert`, and `plan` with these
/// sizes in `fit`. If no size of `fit` is larger than in `plan`, skips the search and returns
/// [`Recheck::Same`].
fn recheck_sizes(
    alloc: Global,
    plan: &Plan,
    fit: &mut Plan,
    cert: &mut Cert,
) -> Result<Recheck, AllocError>
    requires { IsSized plan.now cert.old fit.old }
    ensures { OnOk result (IsSized plan.now cert.new fit.new) }
{
    if growth(plan, fit) == 0 {
        return Ok(Recheck::Same);
    }
    let Ok(more) = unchecked_certificate(alloc, fit)? else {
        return Ok(Recheck::Nothing);
    };
    if accepts(fit, &more) {
        return Ok(Recheck::Same);
    }
    match least_sizes(alloc, plan, &more)? {
        Ok(wider) => {
            *fit = wider;
            *cert = more;
            Ok(Recheck::More)
        }
        Err(_obstacle) => Ok(Recheck::Nothing),
    }
}
