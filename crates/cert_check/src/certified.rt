//! A plan with a certificate that accepts it.

ghost use Rattle.std.specs.Prelude.{◌≡◌, ◌↔◌, IsOk, IfOk, IfErr, IsTrue};
ghost use Rattle.soundness.specs.Accepted.{accepted};
ghost use Rattle.soundness.specs.Headline.{Promises};
ghost use Rattle.cert_check.specs.Certified as spec;

use crate::accepts;
use cert_text::Cert;
use job_bodies::Plan;
use std::marker::Model;

/// A plan with a certificate that accepts it. Only [`Certified::check`] creates one.
#[derive(Drop)]
pub struct Certified {
    plan: Plan,
    cert: Cert,
}

impl Model for Certified {
    ghost Value = { spec.Certified };

    ghost view = { λ c. record { plan = c.plan; cert = c.cert } };

    ghost invariant = { λ c. spec.IsCertified c.plan c.cert };
}

impl Certified {
    /// Pairs the plan with the certificate if the certificate accepts the plan. Allocates no
    /// memory.
    ///
    /// # Errors
    ///
    /// Returns both arguments if the certificate does not accept the plan.
    pub fn check(plan: Plan, cert: Cert) -> Result<Certified, (Plan, Cert)>
        ensures exact { IsOk result ↔ IsTrue (accepted plan cert) }
        ensures holds { IfOk result (λ certified. certified ≡ record { plan = plan; cert = cert }) }
        ensures back { IfErr result (λ back. (back.0 ≡ plan) × (back.1 ≡ cert)) }
        ensures promises { IfOk result (λ certified. Promises certified.plan certified.cert) }
    {
        if accepts(&plan, &cert) {
            Ok(Certified { plan, cert })
        } else {
            Err((plan, cert))
        }
    }

    /// Returns the plan.
    pub fn plan(&self) -> &Plan
        ensures plan { result.now ≡ self.now.plan }
        ensures promises { Promises self.now.plan self.now.cert }
    {
        &self.plan
    }

    /// Returns the certificate, which accepts the plan.
    pub fn cert(&self) -> &Cert
        ensures cert { result.now ≡ self.now.cert }
        ensures accepted { IsTrue (accepted self.now.plan self.now.cert) }
    {
        &self.cert
    }
}
