//! Commands as text.

use crate::orders::{say_alter, say_define, say_delete, say_text};
use vr_amsparse::{
    Branch, BuildCommand, CodeVariable, Command, Comparison, Condition, From, ListCommand, Node,
    PrintCommand, PrintForm, ReproCommand, Setting, Source, To, Within,
};
use vr_case_table::Answers;
use vr_text::write_literal;
use vr_types::Bytes;

/// Each command, with its line and its branch, after a bar.
pub fn say_nodes(nodes: &[Node], out: &mut Answers) {
    for node in nodes {
        if !out.is_empty() {
            out.say(" | ");
        }
        out.say("L");
        out.say_number(" ", node.line as u64);
        say_within(node.within, out);
        out.say(" ");
        say_command(&node.command, out);
    }
}

fn say_within(within: Option<Within>, out: &mut Answers) {
    match within {
        None => {},
        Some(within) => {
            out.say(match within.branch {
                Branch::Then => " then",
                Branch::Else => " else",
            });
            out.say_number(" ", within.node as u64)
        }
    }
}

fn say_command(command: &Command, out: &mut Answers) {
    match command {
        Command::Define(define) => say_define(define, out),
        Command::Alter(alter) => say_alter(alter, out),
        Command::Delete(delete) => say_delete(delete, out),
        Command::Repro(repro) => say_repro(repro, out),
        Command::BuildIndex(build) => say_build(build, out),
        Command::Print(print) => say_print(print, out),
        Command::ListCatalog(list) => say_list(list, out),
        Command::Verify(name) => {
            out.say("VERIFY");
            say_text(name.as_slice(), out)
        }
        Command::Examine(name) => {
            out.say("EXAMINE");
            say_text(name.as_slice(), out)
        }
        Command::If(condition) => say_condition(*condition, out),
        Command::Set(setting) => say_setting(*setting, out),
    }
}

fn say_repro(repro: &ReproCommand, out: &mut Answers) {
    out.say("REPRO");
    match &repro.source {
        Source::Data(data) => {
            out.say(" DATA");
            say_text(data.as_slice(), out);
        }
        Source::DataSet(name) => say_text(name.as_slice(), out),
    }
    say_text(repro.target.as_slice(), out);
    say_from(&repro.from, out);
    say_to(&repro.to, out);
    out.say(if repro.replace { " REPLACE" } else { "" })
}

fn say_from(from: &From, out: &mut Answers) {
    match from {
        From::Start => {},
        From::Key(key) => {
            out.say(" FROM");
            say_literal(key, out)
        }
        From::Skip(number) => {
            out.say(" SKIP");
            out.say_number(" ", *number)
        }
    }
}

fn say_to(to: &To, out: &mut Answers) {
    match to {
        To::End => {},
        To::Key(key) => {
            out.say(" TO");
            say_literal(key, out)
        }
        To::Count(number) => {
            out.say(" COUNT");
            out.say_number(" ", *number)
        }
    }
}

fn say_build(build: &BuildCommand, out: &mut Answers) {
    out.say("BLDINDEX");
    say_text(build.base.as_slice(), out);
    say_text(build.alternate.as_slice(), out)
}

fn say_print(print: &PrintCommand, out: &mut Answers) {
    out.say("PRINT");
    say_text(print.source.as_slice(), out);
    out.say(match print.form {
        PrintForm::Character => " CHARACTER",
        PrintForm::Hex => " HEX",
        PrintForm::Dump => " DUMP",
    });
    say_from(&print.from, out);
    say_to(&print.to, out)
}

fn say_list(list: &ListCommand, out: &mut Answers) {
    out.say("LISTCAT");
    for name in list.entries.as_slice() {
        say_text(name.as_slice(), out);
    }
    out.say(if list.all { " ALL" } else { " NAME" })
}

fn say_variable(variable: CodeVariable, out: &mut Answers) {
    out.say(match variable {
        CodeVariable::LastCode => " LASTCC",
        CodeVariable::MaxCode => " MAXCC",
    })
}

fn say_condition(condition: Condition, out: &mut Answers) {
    out.say("IF");
    say_variable(condition.variable, out);
    out.say(match condition.comparison {
        Comparison::Equal => " =",
        Comparison::NotEqual => " NE",
        Comparison::Greater => " >",
        Comparison::Less => " <",
        Comparison::NotLess => " >=",
        Comparison::NotGreater => " <=",
    });
    out.say_number(" ", condition.number)
}

fn say_setting(setting: Setting, out: &mut Answers) {
    out.say("SET");
    say_variable(setting.variable, out);
    out.say_number(" ", setting.code as u64)
}

/// Writes a blank and bytes as a literal.
fn say_literal(bytes: &Bytes, out: &mut Answers) {
    let mut literal = Bytes::new(out.alloc());
    match write_literal(bytes.as_slice(), &mut literal) {
        Ok(()) => say_text(literal.as_slice(), out),
        Err(_) => out.note_no_memory(),
    }
}
