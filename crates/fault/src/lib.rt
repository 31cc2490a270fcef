// Refusals: the faults of the refusal table, and a fault with the place where it is found.
#![tactic(auto)]

ghost use Rattle.std.specs.Prelude.{◌≡◌};
ghost use Rattle.fault.specs.Fault.{number_of};

/// The refusal table.
#[derive(Clone, Copy, Debug, PartialEq, Eq)]
pub enum Fault {
    /// The file read, or the output to be written, is longer than the limit.
    TooLong = 1,
    /// A field needs more bytes than remain.
    Short = 2,
    /// Wrong signature, version or closing tag.
    WrongTag = 3,
    /// Unknown colour space, block type, model, item type, form or unit.
    Unknown = 4,
    /// A field outside its stated range.
    OutOfRange = 5,
    /// Bytes left over after the end.
    LeftOver = 6,
    /// The two ACO lists disagree.
    ListsDiffer = 7,
    /// A name badly closed.
    BadlyClosed = 8,
    /// Groups unbalanced.
    Unbalanced = 9,
    /// Nested too deep.
    TooDeep = 10,
    /// The lent output is shorter than the exact need.
    NoRoom = 11,
    /// No record or page of that number.
    NoRecord = 12,
    /// ASE block length disagrees with its content.
    WrongLength = 13,
    /// A colour has no counterpart in the other format.
    NoCounterpart = 14,
}

impl Fault {
    /// Its number in the table.
    pub fn number(self) -> u32
        ensures { result ≡ number_of self }
    {
        self as u32
    }
}

/// A fault, and the place of the field that has it.
#[derive(Clone, Copy, Debug, PartialEq, Eq)]
pub struct Refusal(pub Fault, pub usize);
