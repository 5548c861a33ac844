//! What a machine is given to run.

ghost use Rattle.std.specs.Prelude.{◌≡◌};
ghost use Rattle.job_steps.specs.Jobs.{IsName};
ghost use Rattle.job_steps.specs.Reached.{IsVerifiedBySome};

use std::alloc::Allocator;
use std::marker::Model;
use vcode_base::{Limits, Sequence};
use verifier::Verified;

/// The name of a job: its bytes.
pub type JobName<A> = Sequence<u8, A>;

/// A verified program, with its name, which has 1 to 64 bytes, and its limits.
#[derive(Drop)]
#[derive_where(PartialEq, Eq)]
pub struct Job<A: Allocator> {
    name: JobName<A>,
    verified: Verified<A>,
    limits: Limits,
}

impl<A: Allocator> Model for Job<A> {
    ghost use Rattle.std.specs.Coded.{codes};
    ghost use Rattle.job_steps.specs.Jobs.{IsName, job_code};
    ghost use Rattle.job_steps.specs.States.{JobValue};

    ghost Value = { JobValue };

    ghost coded = { job_code (Prim.hlevel codes) (Prim.hlevel codes) (Prim.hlevel codes) };

    ghost view = { λ j. record { name = j.name; verified = j.verified; limits = j.limits } };

    ghost invariant = { λ j. IsName j.name };

    ghost inverse = { λ j. record { name = j.name; verified = j.verified; limits = j.limits } };
}

impl<A: Allocator> Job<A> {
    /// The job of this name, of 1 to 64 bytes, that runs a program within these limits.
    pub fn new(name: JobName<A>, verified: Verified<A>, limits: Limits) -> Job<A>
        requires { IsName name }
        ensures { result ≡ record { name = name; verified = verified; limits = limits } }
    {
        Job {
            name,
            verified,
            limits,
        }
    }

    /// The bytes of its name.
    pub fn name(&self) -> &[u8]
        ensures name { result.now ≡ self.now.name }
        ensures length { IsName self.now.name }
    {
        self.name.as_slice()
    }

    /// What it runs, with the kinds that the functions take and give.
    #[inline(always)]
    pub fn verified(&self) -> &Verified<A>
        ensures same { result.now ≡ self.now.verified }
        // Some signatures verify the program, whose bodies are proper.
        ensures verified_program { IsVerifiedBySome self.now.verified }
    {
        let _functions = self.verified.program().functions();
        &self.verified
    }

    /// What it may use.
    #[inline(always)]
    pub fn limits(&self) -> Limits
        ensures { result ≡ self.now.limits }
    {
        self.limits
    }

    /// The same job within other limits.
    pub fn with_limits(self, limits: Limits) -> Job<A>
        ensures { result ≡ record self { limits = limits } }
    {
        let mut job = self;
        job.limits = limits;
        job
    }
}
