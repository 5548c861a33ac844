ghost use Rattle.std.specs.Prelude.{◌≤◌};
ghost use Rattle.vcode_base.specs.declared.limits.TheConstants.{MOST_WORDS, MOST_WORKERS};
ghost use Rattle.job_lanes.specs.declared.lanes.TheConstants.{MOST_LANES};

use crate::schedule::Item;

/// How a batch is run.
#[derive(PartialEq, Eq, Debug, Drop)]
pub struct Options {
    /// The words of the region that the jobs share, or of the region of each lane, at least 1 and at most
    /// [`MOST_WORDS`](vcode_base::limits::MOST_WORDS).
    pub region: u32,
    /// The worker threads that run the jobs if there is one lane and no schedule is given, at least 1 and at most
    /// [`MOST_WORKERS`](vcode_base::limits::MOST_WORKERS).
    pub workers: u32,
    /// The lanes on which jobs run apart if no schedule is given, at least 1 and at most [`MOST_LANES`]. With 1 all
    /// share one region.
    pub lanes: u32,
    /// The turns that the jobs take before they are run out, if any are asked for.
    pub schedule: Option<Vec<Item>>,
    pub ghost region_fits: { (1 ≤ region) × (region ≤ MOST_WORDS) },
    pub ghost workers_fit: { (1 ≤ workers) × (workers ≤ MOST_WORKERS) },
    pub ghost lanes_fit: { (1 ≤ lanes) × (lanes ≤ MOST_LANES) },
}
