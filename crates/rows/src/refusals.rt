// Why a call is refused. Each refusal has a number, as the documents give it (26 to 29 are ours), and a place: the row at fault where
// there is one, and else 0.
ghost use Rattle.std.specs.Prelude.{◌≡◌, ◌<◌};
ghost use Rattle.rows.specs.Refusals.{number_of, place_of};

#[derive(Clone, Copy, PartialEq, Eq, Debug)]
pub enum Refusal {
    // Shorter than the two sizes.
    TooShort,
    // A size outside its limits.
    SizeOutside,
    // Wrong length.
    WrongLength,
    // A row's kind.
    BadKind(usize),
    // A quantifier's number.
    BadNumber(usize),
    // A number bound twice.
    BoundTwice(usize),
    // A literal unbound.
    Unbound(usize),
    // The rows are not one tree.
    NotOneTree(usize),
    // Not tidy.
    NotTidy(usize),
    // The variable is not in the prefix.
    NotInPrefix,
    // The variable is not in the innermost block, or not one block out.
    WrongBlock,
    // The variable may not be settled.
    NotSettled,
    // No room for the sheet.
    NoRoom,
    // Too many variables to try.
    TooManyToTry,
    // A text's header.
    BadHeader,
    // A text that is not lists of numbers ended by 0.
    BadLists,
    // A variable or a number of clauses that a text's header doesn't allow.
    BeyondHeader,
    // Fewer unused numbers than variables to copy.
    NoNumbersLeft,
    // More raw rows than the ceiling.
    AboveCeiling,
    // Not of the clause profile.
    NoClauses,
    // A value other than 0 and 1.
    BadValue,
    // As many values as variables, or more; for Split and Join, more.
    TooManyValues,
    // The root is not AND.
    RootNotAnd,
    // Outside the limits of a narrow sheet.
    NotNarrow,
    // Counts that don't add up.
    WrongCounts,
    // Not a strategy over the sheet's prefix.
    NotAStrategy,
    // A function that reads what it may not.
    ReadsBeyond(usize),
    // Not as many answers as lists of values.
    WrongAnswers,
    // An answer other than 0, 1 and 2.
    BadAnswer,
}

impl Refusal {
    // The refusal's number.
    pub fn number(self) -> usize
        ensures { (result ≡ number_of self) × (result < 30) }
    {
        match self {
            Refusal::TooShort => 1,
            Refusal::SizeOutside => 2,
            Refusal::WrongLength => 3,
            Refusal::BadKind(_) => 4,
            Refusal::BadNumber(_) => 5,
            Refusal::BoundTwice(_) => 6,
            Refusal::Unbound(_) => 7,
            Refusal::NotOneTree(_) => 8,
            Refusal::NotTidy(_) => 9,
            Refusal::NotInPrefix => 10,
            Refusal::WrongBlock => 11,
            Refusal::NotSettled => 12,
            Refusal::NoRoom => 13,
            Refusal::TooManyToTry => 14,
            Refusal::BadHeader => 15,
            Refusal::BadLists => 16,
            Refusal::BeyondHeader => 17,
            Refusal::NoNumbersLeft => 18,
            Refusal::AboveCeiling => 19,
            Refusal::NoClauses => 20,
            Refusal::BadValue => 21,
            Refusal::TooManyValues => 22,
            Refusal::RootNotAnd => 23,
            Refusal::NotNarrow => 24,
            Refusal::WrongCounts => 25,
            Refusal::NotAStrategy => 26,
            Refusal::ReadsBeyond(_) => 27,
            Refusal::WrongAnswers => 28,
            Refusal::BadAnswer => 29,
        }
    }

    // The row at fault, or 0.
    pub fn place(self) -> usize
        ensures { result ≡ place_of self }
    {
        match self {
            Refusal::BadKind(row)
            | Refusal::BadNumber(row)
            | Refusal::BoundTwice(row)
            | Refusal::Unbound(row)
            | Refusal::NotOneTree(row)
            | Refusal::NotTidy(row)
            | Refusal::ReadsBeyond(row) => row,
            _ => 0,
        }
    }
}
