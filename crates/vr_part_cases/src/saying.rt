//! How a record is written.

use vr_case_table::Answers;

/// Writes a record by its runs of one byte: `=a*160`.
pub fn say_record(record: &[u8], out: &mut Answers) {
    out.say("=");
    let mut run = 1u64;
    for (at, byte) in record.iter().enumerate() {
        if record.get(at.saturating_add(1)) == Some(byte) {
            run = run.saturating_add(1);
        } else {
            out.say_char(char::from(*byte));
            out.say_number("*", run);
            run = 1;
        }
    }
}
