//! Questions to the reader of `vr_ci`.

use crate::block::{edited, say_debug};
use std::alloc::Global;
use vr_case_table::{Answer, Answers, parted, size_of, small_of};
use vr_ci::{CiFault, CiView, Form, Shape};

/// The block as a plain control interval: `EDIT..`.
pub fn plain(alloc: Global, block: &[u8], edits: &str, out: &mut Answers) -> Answer {
    let bytes = edited(alloc, block, edits)?;
    say_interval(Form::Plain, bytes.as_slice(), out);
    Ok(())
}

/// The block as a control interval of slots: `LENGTH EDIT..`.
pub fn slots(alloc: Global, block: &[u8], rest: &str, out: &mut Answers) -> Answer {
    let (length, edits) = parted(rest);
    let length = small_of(length)?;
    let bytes = edited(alloc, block, edits)?;
    say_interval(Form::Slots { length }, bytes.as_slice(), out);
    Ok(())
}

fn say_interval(form: Form, bytes: &[u8], out: &mut Answers) {
    match CiView::read(form, bytes) {
        Ok(view) => say_view(&view, out),
        Err(fault) => say_fault(fault, out),
    }
}

fn say_view(view: &CiView<'_>, out: &mut Answers) {
    say_shape(view.shape(), view.busy(), out);
    for (bytes, live) in view.iter() {
        out.say(if live { " +" } else { " -" });
        out.say_digits(bytes);
    }
}

fn say_fault(fault: CiFault, out: &mut Answers) {
    match fault {
        CiFault::Size { at } => out.say_number("size ", at as u64),
        CiFault::Cidf { at } => out.say_number("cidf ", at as u64),
        CiFault::Chain { at } => out.say_number("chain ", at as u64),
        CiFault::Lengths { at } => out.say_number("lengths ", at as u64),
    }
}

fn say_shape(shape: Shape, busy: bool, out: &mut Answers) {
    match shape {
        Shape::Records => out.say("records"),
        Shape::Segment { piece, number } => {
            say_debug(&piece, out);
            out.say_number(" ", u64::from(number));
        }
        Shape::EndOfFile => out.say("end"),
    }
    out.say(if busy { " busy true" } else { " busy false" });
}

/// How many items the plain block has, and the one of a number: `ITEM`.
pub fn item(block: &[u8], word: &str, out: &mut Answers) -> Answer {
    let at = size_of(word)?;
    match CiView::read(Form::Plain, block) {
        Ok(view) => say_item(&view, at, out),
        Err(fault) => say_fault(fault, out),
    }
    Ok(())
}

fn say_item(view: &CiView<'_>, at: usize, out: &mut Answers) {
    out.say_number("of ", view.count() as u64);
    if at >= view.count() {
        return out.say(" none");
    }
    out.say(if view.live(at) { " +" } else { " -" });
    out.say_digits(view.item(at));
}
