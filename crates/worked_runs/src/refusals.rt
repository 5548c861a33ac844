//! Refused memory, growth by growth, and devices that fail.
//!
//! A heap of `test_support` refuses one growth. Tests let each growth of a call fail in turn, counting upwards until
//! the call meets no refusal, and look at the state afterwards: of whole runs, on the calling thread, by workers and on
//! lanes, of memories, of machines and their calls. Readers and writers that fail do so at each of their calls in turn,
//! on the calling thread, by workers and on lanes.

mod batches;
mod calls;
mod copies;
mod devices;
mod failures;
mod gates;
mod greatest;
mod heaps;
mod memories;
mod replays;
mod runs;
mod snapshots;
mod sums;
mod ways;
mod workers;
