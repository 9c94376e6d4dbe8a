//! What calls of devices answer.

use vr_case_table::{Answer, Answers, Stop};
use vr_device::ImageNo;
use vr_types::{DeviceFault, Failed};

/// Writes what a call of a device answers.
pub fn say_done(done: Result<(), Failed>, out: &mut Answers) {
    out.say(if done.is_ok() { "ok" } else { "failed" });
}

/// Writes what a call of blocks answers.
pub fn say_fault(done: Result<(), DeviceFault>, out: &mut Answers) {
    out.say(match done {
        Ok(()) => "ok",
        Err(DeviceFault::Read) => "read fault",
        Err(DeviceFault::Write) => "write fault",
    });
}

/// Writes why there is no image.
pub fn say_no_image(no: ImageNo, out: &mut Answers) -> Answer {
    match no {
        ImageNo::Choice { block } => {
            out.say_number("choice ", u64::from(block));
            Ok(())
        }
        ImageNo::Memory => Err(Stop::Memory),
    }
}
