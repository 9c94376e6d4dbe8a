//! Why a text is not a list of commands.
ghost use Rattle.std.specs.Prelude.{◌≡◌};
ghost use Rattle.vr_amsparse_grammar.specs.Cause.{cause_number};

/// The causes for which a command text is refused, numbered from 1 in this order.
#[derive(Clone, Copy, PartialEq, Eq)]
pub enum AmsCause {
    /// The word is no command.
    UnknownCommand,
    /// A parenthesis is missing.
    ParenthesisMissing,
    /// The word is no parameter of the command.
    UnknownParameter,
    /// The parameter was given before.
    ParameterTwice,
    /// A parameter was given before that excludes this one.
    ParametersExclude,
    /// The command lacks a required parameter.
    ParameterMissing,
    /// Not a name, or not one that may stand there.
    BadName,
    /// Not a number of at most 19 digits.
    BadNumber,
    /// The number is out of its range.
    NumberOutOfRange,
    /// Too few values, or too many.
    WrongCount,
    /// Neither a literal nor a word.
    BadLiteral,
    /// What Access Method Services has, and this program leaves out.
    LeftOut,
    /// THEN is missing.
    ThenMissing,
    /// ELSE without IF.
    ElseAlone,
    /// DO without END, or END without DO.
    DoOrEndAlone,
    /// More than 10 IFs in each other.
    TooManyIfs,
    /// INFILE names no data of the step.
    NoSuchData,
    /// Text after the command's end.
    TextAfterEnd,
}

impl AmsCause {
    /// Its number, 1 to 18.
    pub fn number(self) -> u8
        ensures { result ≡ cause_number self }
    {
        self as u8 + 1
    }
}
