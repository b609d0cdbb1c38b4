//! Why a call says no.
ghost use Rattle.std.specs.Prelude.{◌≡◌, Some};
ghost use Rattle.std.specs.Fmt.{decimal};
ghost use Rattle.sheets.specs.Refusals.{number_of};

use std::error::Error;
use std::fmt;

/// The reason for which a call is refused; each has a number.
#[derive(Clone, Copy, PartialEq, Eq, Debug)]
pub enum Refusal {
    /// a runbook's text is over 8,192 bytes
    LongText = 1,
    /// a byte that is in no word and is no space or line end
    StrayByte = 2,
    /// a word over 12 bytes
    LongWord = 3,
    /// a line that has none of the four forms, or no line end
    BadLine = 4,
    /// a column is read or written before any step, or a fence line has a step that was not named
    NoStep = 5,
    /// a name is given twice
    RepeatedName = 6,
    /// one step more than the limit
    TooManySteps = 7,
    /// a word that is no column, or a column above 31
    BadColumn = 8,
    /// a fence of a step with itself
    SelfFence = 9,
    /// a step that is not below the count, or a cell that is not below the width
    OutOfRange = 10,
    /// next, where no orientation is left
    NoneLeft = 11,
    /// look, where the walk stands at no orientation
    NotStanding = 12,
    /// a buffer that is too short for what is to be written
    ShortBuffer = 13,
    /// bytes that are no walk's bookmark
    UnsoundBookmark = 14,
    /// a bookmark of another count or of other clashes
    ForeignBookmark = 15,
    /// a list that is not each step exactly once and nothing else
    NotEachOnce = 16,
    /// contents of another length than the width
    WrongWidth = 17,
    /// a shelf step that drops and raises one mark
    OpposedMarks = 18,
}

impl Refusal {
    /// The number by which users know the refusal.
    pub fn number(&self) -> u8
        ensures { result ≡ number_of self.now }
    {
        *self as u8
    }
}

/// A refusal is shown by its number.
impl fmt::Display for Refusal {
    ghost output = { λ refusal. Some (decimal (number_of refusal)) };

    fn fmt<W: fmt::Write>(&self, f: &mut fmt::Formatter<W>) -> fmt::Result {
        write!(f, "{}", self.number())
    }
}

impl Error for Refusal {}
