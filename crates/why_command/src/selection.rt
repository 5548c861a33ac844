//! Which of the instructions that were executed are listed.

/// A choice of instructions. Numbers of instructions are counted from 1.
#[derive(Clone, Copy, Drop)]
pub struct Selection {
    /// The number of the first instruction.
    pub from: u64,
    /// The number of the last instruction.
    pub to: u64,
    /// The lines on which these are, if not all.
    pub lines: Option<LineRange>,
    /// Of these every how many-th is chosen.
    pub every: u64,
    /// How many of these are listed from the first on, if not all.
    pub first: Option<u64>,
    /// How many of these are listed up to the last, if not all.
    pub last: Option<u64>,
    /// Whether what each made is shown.
    pub values: bool,
}

/// Lines from one number to another.
#[derive(Clone, Copy, Drop)]
pub struct LineRange {
    /// The first line.
    pub first: u64,
    /// The last line, which may be before the first.
    pub last: u64,
}

/// The lines `A-B`, or `A` alone.
pub(crate) fn line_range(text: &str) -> Option<LineRange> {
    let (first, last) = match text.split_once('-') {
        Some((first, last)) => (first, last),
        None => (text, text),
    };
    let (Ok(first), Ok(last)) = (first.parse::<u64>(), last.parse::<u64>()) else {
        return None;
    };
    Some(LineRange { first, last })
}

/// Counts the instructions that are chosen, but for the first and the last ones.
#[derive(Clone, Copy, Drop)]
pub struct Picker {
    selection: Selection,
    /// How many more instructions on the lines are left out before the next one.
    wait: u64,
    /// How many were chosen.
    pub taken: u64,
}

impl Picker {
    /// A picker that has seen no instruction.
    pub fn new(selection: Selection) -> Picker {
        Picker {
            selection,
            wait: 0,
            taken: 0,
        }
    }

    /// Whether an instruction on this line is on the lines that are chosen.
    fn has_line(self, line: u64) -> bool {
        match self.selection.lines {
            Some(range) => line >= range.first && line <= range.last,
            None => true,
        }
    }

    /// Whether the next instruction, which is on this line, is chosen.
    pub fn takes(&mut self, line: u64) -> bool {
        if !self.has_line(line) {
            return false;
        }
        if self.wait > 0 {
            self.wait -= 1;
            return false;
        }
        self.wait = self.selection.every.saturating_sub(1);
        self.taken = self.taken.saturating_add(1);
        true
    }

    /// Whether the instruction that was chosen last is listed, if this many are chosen in all.
    pub fn is_listed(self, total: u64) -> bool {
        match (self.selection.first, self.selection.last) {
            (None, None) => true,
            (first, last) => {
                let before_last = total.saturating_sub(last.unwrap_or(0));
                self.taken <= first.unwrap_or(0) || self.taken > before_last
            }
        }
    }

    /// How many are left out from the instruction that was chosen last up to the last ones, if that is the first of
    /// them.
    pub fn left_out(self, total: u64) -> Option<u64> {
        let last = self.selection.last?;
        let first = self.selection.first.unwrap_or(0);
        if self.taken.checked_sub(1)? == first {
            return Some(total.saturating_sub(first).saturating_sub(last));
        }
        None
    }

    /// Whether what an instruction made is shown.
    pub fn shows_values(self) -> bool {
        self.selection.values
    }

    /// Whether no later instruction is listed.
    pub fn is_done(self) -> bool {
        match (self.selection.first, self.selection.last) {
            (Some(first), None) => self.taken >= first,
            _ => false,
        }
    }
}
