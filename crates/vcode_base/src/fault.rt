ghost use Rattle.std.specs.Prelude.{◌≡◌};
ghost use Rattle.vcode_base.specs.Texts.{data_fault_text, memory_fault_text};

use std::alloc::AllocError;

/// Why an instruction has no results at its operands.
#[derive(Clone, Copy, PartialEq, Eq, Debug)]
pub enum DataFault {
    /// Operands of an elementwise instruction differ in length.
    LengthsDiffer,
    /// An operand's length is not the total of its descriptor.
    SegmentTotal,
    /// An operand has not one element for each segment.
    SegmentCount,
    /// A divisor is 0.
    ZeroDivisor,
    /// A shift is outside `0..=63`.
    BadShift,
    /// An index is outside its segment.
    BadIndex,
    /// Two elements of a segment go to one index.
    IndexTwice,
    /// A segment length is negative, or the total of the lengths is above 4,294,967,295.
    BadLength,
    /// The condition of an IF has not one element.
    NotSingle,
}

/// Which of its limits a job would have passed.
#[derive(Clone, Copy, PartialEq, Eq, Debug)]
pub enum MemoryFault {
    /// The words of the distinct vectors on the stack, with those of the results.
    Words,
    /// The entries of the stack.
    Cells,
    /// The active calls.
    Calls,
}

impl DataFault {
    /// The name that the report prints.
    pub fn text(self) -> &'static str
        ensures { result.now ≡ data_fault_text self }
    {
        match self {
            DataFault::LengthsDiffer => "F1 LENGTHS_DIFFER",
            DataFault::SegmentTotal => "F2 SEGMENT_TOTAL",
            DataFault::SegmentCount => "F3 SEGMENT_COUNT",
            DataFault::ZeroDivisor => "F4 ZERO_DIVISOR",
            DataFault::BadShift => "F5 BAD_SHIFT",
            DataFault::BadIndex => "F6 BAD_INDEX",
            DataFault::IndexTwice => "F7 INDEX_TWICE",
            DataFault::BadLength => "F8 BAD_LENGTH",
            DataFault::NotSingle => "F9 NOT_SINGLE",
        }
    }
}

impl MemoryFault {
    /// The name that the report prints.
    pub fn text(self) -> &'static str
        ensures { result.now ≡ memory_fault_text self }
    {
        match self {
            MemoryFault::Words => "M1 WORDS",
            MemoryFault::Cells => "M2 CELLS",
            MemoryFault::Calls => "M3 CALLS",
        }
    }
}

/// Why a text gives nothing: there was no memory for it, or it has this fault at the line of this
/// number.
#[derive(Clone, Copy, PartialEq, Eq, Debug)]
pub enum TextFault<F> {
    Memory,
    At(F, u64),
}

impl<F> From<AllocError> for TextFault<F> {
    ghost use Rattle.std.specs.Prelude.{◌≡◌};
    ghost use Rattle.vcode_base.specs.declared.fault.TextFault.TheVariants.{Memory};

    ghost from_gives = { λ _ fault. fault ≡ Memory };

    fn from(_: AllocError) -> TextFault<F> {
        TextFault::Memory
    }
}
