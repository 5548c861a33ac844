//! Laws over the definitions alone: each is the contract of a function that does nothing.
ghost use Rattle.shown_text.specs.Laws.{ControlsAreNotPrintable, ShownIsPrintable};

/// Each character of what is shown is printable, whatever the bytes are.
#[tactic(auto, using(crate::proofs::Printable::shown_is_printable))]
pub fn shown_is_printable()
    ensures { ShownIsPrintable }
{}

/// No control character is printable, as LF, ESC and DEL, nor is a separator of lines or what turns the direction of
/// reading.
#[tactic(auto, using(crate::proofs::Printable::controls_are_not_printable))]
pub fn controls_are_not_printable()
    ensures { ControlsAreNotPrintable }
{}
