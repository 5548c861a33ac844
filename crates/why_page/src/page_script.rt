//! What draws the page.

use crate::script_base::BASE;
use crate::script_calls::CALLS;
use crate::script_code::CODE;
use crate::script_ending::ENDING;
use crate::script_jobs::JOBS;
use crate::script_over_time::OVER_TIME;

/// The script of the page, in parts that follow one another.
pub(crate) fn script() -> &'static [&'static str] {
    &[BASE, ENDING, OVER_TIME, CALLS, CODE, JOBS]
}
