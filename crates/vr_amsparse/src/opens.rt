//! The IFs that are open at a point of a command text.
ghost use Rattle.std.specs.Prelude.{◌≡◌, ◌∷◌, [], length, slice_get, OnOk, OnErr};
ghost use Rattle.vr_amsparse.specs.Opens.{completed, settled, without_top, dropped, top_of};
ghost use Rattle.vr_amsparse.specs.Opens.{with_top, last_group, ends_if, marked, is_group, is_done};
ghost use Rattle.vr_amsparse.specs.Opens.{group_or, group_after};

use crate::command::Branch;
use std::alloc::Global;
use std::marker::Model;
use vr_types::OutOfMemory;

/// What part of its branch an IF is in.
#[derive(Clone, Copy)]
pub enum Stage {
    /// The branch is a single command, or a group whose END has come.
    Single,
    /// In a group. The number is that of the token DO.
    Group(usize),
    /// The branch of THEN is complete: ELSE may come.
    Done,
}

/// An open IF: which node of the tree it is, and where in it the text is.
#[derive(Clone, Copy)]
pub struct Open {
    pub node: usize,
    pub branch: Branch,
    pub stage: Stage,
}

/// The open IFs. Contracts see them innermost first.
#[derive(Drop)]
pub struct Opens {
    items: Vec<Open>,
}

impl Model for Opens {
    ghost use Rattle.std.specs.Prelude.{List, reverse};
    ghost use Rattle.vr_amsparse.specs.declared.opens.Open.{Open};

    ghost Value = { List Open };

    ghost view = { λ opens. reverse opens.items.items };
}

impl Opens {
    /// None, without allocating.
    pub(crate) fn new(alloc: Global) -> Opens
        ensures { result ≡ [] }
    {
        Opens {
            items: Vec::new(alloc),
        }
    }

    /// How many there are.
    pub(crate) fn len(&self) -> usize
        ensures { result ≡ length self.now }
    {
        self.items.len()
    }

    /// The innermost one.
    pub(crate) fn top(&self) -> Option<Open>
        ensures { result ≡ top_of self.now }
    {
        match self.items.last() {
            None => None,
            Some(one) => Some(*one),
        }
    }

    /// Closes the innermost one.
    pub(crate) fn pop(&mut self)
        ensures { self.new ≡ without_top self.old }
    {
        let _ = self.items.pop();
    }

    /// Opens one within all others. Where memory runs out, nothing changes.
    pub(crate) fn push(&mut self, one: Open) -> Result<(), OutOfMemory>
        ensures ok { OnOk result (self.new ≡ one ∷ self.old) }
        ensures err { OnErr result (self.new ≡ self.old) }
    {
        self.items.push(one)?;
        Ok(())
    }

    /// Puts this in the place of the innermost one, if there is one.
    pub(crate) fn set_top(&mut self, one: Open)
        ensures { self.new ≡ with_top one self.old }
    {
        match self.items.pop() {
            None => {}
            Some(_) => self.items.push_reserved(one),
        }
    }
}

/// Whether the end of a command ends this IF too: it is in the single command of ELSE.
fn ends_if(one: Open) -> bool
    ensures { result ≡ ends_if one }
{
    match (one.branch, one.stage) {
        (Branch::Else, Stage::Single) => true,
        _ => false,
    }
}

/// An IF whose branch of THEN is complete, if it was in its single command.
fn marked(one: Open) -> Open
    ensures { result ≡ marked one }
{
    match one.stage {
        Stage::Single => Open {
            node: one.node,
            branch: one.branch,
            stage: Stage::Done,
        },
        Stage::Group(_) | Stage::Done => one,
    }
}

/// Whether it is in a group.
fn is_group(one: Open) -> bool
    ensures { result ≡ is_group one }
{
    match one.stage {
        Stage::Group(_) => true,
        Stage::Single | Stage::Done => false,
    }
}

/// Whether its branch of THEN is complete.
fn is_done(one: Open) -> bool
    ensures { result ≡ is_done one }
{
    match one.stage {
        Stage::Done => true,
        Stage::Single | Stage::Group(_) => false,
    }
}

/// The token DO of a group, or else this one.
fn group_or(one: Open, other: Option<usize>) -> Option<usize>
    ensures { result ≡ group_or one other }
{
    match one.stage {
        Stage::Group(at) => Some(at),
        Stage::Single | Stage::Done => other,
    }
}

/// A command has ended.
pub(crate) fn complete(opens: &mut Opens)
    ensures { opens.new ≡ completed opens.old }
{
    while let Some(one) = opens.top() {
        if !ends_if(one) {
            opens.set_top(marked(one));
            return;
        }
        opens.pop();
    }
}

/// Closes all IFs up to the innermost one that is in a group.
fn drop_singles(opens: &mut Opens)
    ensures { opens.new ≡ dropped opens.old }
{
    while let Some(one) = opens.top() {
        if is_group(one) {
            return;
        }
        opens.pop();
    }
}

/// Something else than ELSE follows: where ELSE might have come, IFs are complete.
pub(crate) fn settle(opens: &mut Opens)
    ensures { opens.new ≡ settled opens.old }
{
    match opens.top() {
        None => {}
        Some(one) => {
            if is_done(one) {
                drop_singles(opens);
            }
        }
    }
}

/// The token DO of the outermost group. Closes all.
pub(crate) fn outermost_group(opens: &mut Opens) -> Option<usize>
    ensures { result ≡ last_group opens.old }
{
    let mut found = None;
    while let Some(one) = opens.top() {
        found = group_or(one, found);
        opens.pop();
    }
    found
}
