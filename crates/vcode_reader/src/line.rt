use vcode_base::Instruction;

/// A line of the code: an instruction, an `IF`, its `ELSE` or its `ENDIF`.
///
/// The code of every IF has an `ELSE` between its two parts, on the line of its `IF`.
#[derive(PartialEq, Eq, Debug, Drop)]
pub enum CodeItem<I> {
    Do(I),
    If,
    Else,
    Endif,
}

/// An item of the code and the number of its line: that of its first word.
#[derive(PartialEq, Eq, Debug, Drop)]
pub struct Numbered<I> {
    pub item: I,
    pub number: u64,
}

/// A line whose list or name lies with its function.
pub type CodeLine<'a> = Numbered<CodeItem<Instruction<'a>>>;
