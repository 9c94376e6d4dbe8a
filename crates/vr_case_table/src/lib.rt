//! What the programs of cases share: a table of lines `QUESTION -> WANTED`, which `run` asks a desk
//! (`Desk`) line by line, the words of a line, what an answer is written to (`Answers`), and all
//! small questions beside a plain program (`Beside`, `judge`). It stands on `vr_types` and `hex`.
//! It promises that it is safe and ends.
#![tactic(auto)]

mod answers;
mod beside;
mod stop;
mod table;
mod words;

pub use answers::Answers;
pub use beside::{Beside, Both, judge, judge_up_to};
pub use stop::{Answer, Stop};
pub use table::{Desk, run};
pub use words::{
    byte_of, digits_of, long_of, longs_of, numbers_of, parted, size_of, small_of, word_of,
};
