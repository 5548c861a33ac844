//! How a job goes on after a turn.

ghost use Rattle.std.specs.Prelude.{◌≡◌, if◌then◌else◌};
ghost use Rattle.job_slots.specs.declared.course.Course.TheVariants as courses;

/// How a job goes on after a turn, in which it executed an instruction, or passed over an `ELSE` or an `ENDIF`.
#[derive(Clone, Copy)]
pub(crate) enum Course {
    /// In the function in which it was.
    Within,
    /// In another call: it called a function or returned from one.
    Across,
    /// At its next instruction: it has executed nothing.
    Settled,
    /// Not at all: its run is over.
    Over,
}

impl Course {
    /// After an instruction that neither calls nor returns.
    #[inline(always)]
    pub(crate) fn within(goes_on: bool) -> Course
        ensures { result ≡ (if goes_on then courses.Within else courses.Over) }
    {
        if goes_on {
            Course::Within
        } else {
            Course::Over
        }
    }

    /// After a `CALL` or a `RET`.
    #[inline(always)]
    pub(crate) fn across(goes_on: bool) -> Course
        ensures { result ≡ (if goes_on then courses.Across else courses.Over) }
    {
        if goes_on {
            Course::Across
        } else {
            Course::Over
        }
    }
}
