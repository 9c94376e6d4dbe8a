//! The codes that IF tests and SET sets.
ghost use Rattle.std.specs.Prelude.{◌≡◌};
ghost use Rattle.vr_ams_run.specs.Codes as stated;

use vr_amsparse::{CodeVariable, Comparison, Condition, Setting};

/// LASTCC and MAXCC: the code of the last command that ended, and the greatest of the step.
#[derive(Clone, Copy)]
pub(crate) struct Codes {
    pub(crate) last: u8,
    pub(crate) greatest: u8,
}

/// Before the first command.
pub(crate) fn no_codes() -> Codes
    ensures { result ≡ stated.no_codes }
{
    Codes {
        last: 0,
        greatest: 0,
    }
}

/// Whether a code compares with a number so.
fn compares(comparison: Comparison, code: u64, number: u64) -> bool
    ensures { result ≡ stated.compares comparison code number }
{
    match comparison {
        Comparison::Equal => code == number,
        Comparison::NotEqual => code != number,
        Comparison::Greater => code > number,
        Comparison::Less => code < number,
        Comparison::NotLess => code >= number,
        Comparison::NotGreater => code <= number,
    }
}

fn code_for(variable: CodeVariable, codes: Codes) -> u8
    ensures { result ≡ stated.code_for variable codes }
{
    match variable {
        CodeVariable::LastCode => codes.last,
        CodeVariable::MaxCode => codes.greatest,
    }
}

/// Whether what IF tests holds.
pub(crate) fn holds(condition: Condition, codes: Codes) -> bool
    ensures { result ≡ stated.holds condition codes }
{
    let code = code_for(condition.variable, codes);
    compares(condition.comparison, u64::from(code), condition.number)
}

/// The codes after a command that ended with this one.
pub(crate) fn with_code(code: u8, codes: Codes) -> Codes
    ensures { result ≡ stated.with_code code codes }
{
    Codes {
        last: code,
        greatest: codes.greatest.max(code),
    }
}

/// The codes after SET.
pub(crate) fn set_by(setting: Setting, codes: Codes) -> Codes
    ensures { result ≡ stated.set_by setting codes }
{
    let code = setting.code.min(16);
    match setting.variable {
        CodeVariable::LastCode => with_code(code, codes),
        CodeVariable::MaxCode => Codes {
            last: codes.last,
            greatest: code,
        },
    }
}

/// Whether a SET ends the commands of the step.
pub(crate) fn ends(setting: Setting) -> bool
    ensures { result ≡ stated.ends setting }
{
    setting.code >= 16
}
