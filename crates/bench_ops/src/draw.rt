//! Numbers in no order, the same on every machine.

ghost use Rattle.std.specs.Prelude.{◌<◌, ◌≤◌};

/// The seed of the first number.
pub const SEED: u64 = 7;

/// The next of a sequence of numbers in no order.
pub fn next(seed: u64) -> u64 {
    seed.wrapping_mul(6_364_136_223_846_793_005)
        .wrapping_add(1_442_695_040_888_963_407)
}

/// A number below `below` that the seed gives.
pub fn pick(seed: u64, below: usize) -> usize
    requires { 1 ≤ below }
    ensures { result < below }
{
    (seed >> 33) as usize % below
}
