//! The rules of rosters and of intervals, in the order of their numbers.
ghost use Rattle.std.specs.Prelude.{◌≡◌, ◌<◌, ◌↔◌, ℕ, List, IsTrue, IfOk, IfErr, IfSome, MatchOption};
ghost use Rattle.std.specs.Prelude.{false, length};
ghost use Rattle.vr_types.specs.Geometry.{area_count};
ghost use Rattle.vr_ci.specs.Interval as ci;
ghost use Rattle.vr_ci_match.specs.declared.form.Form.{Form as FormOf};
ghost use Rattle.vr_ci_match.specs.declared.form.Form.TheVariants as forms;
ghost use Rattle.vr_ci_match.specs.declared.form.Shape.TheVariants as shapes;
ghost use Rattle.vr_seqset.specs.Reading.{roster_in};
ghost use Rattle.vr_space.specs.Rosters.{Numbered};
ghost use Rattle.vr_space.specs.Entries.{IsEntries};
ghost use Rattle.vr_space.specs.Numbered.{IsFilled};
ghost use Rattle.vr_space.specs.Slots.{IsSlots};
ghost use Rattle.vr_attach.specs.Chain.{EntriesBreak, FilledBreaks, HasEntries, RosterBreaks};
ghost use Rattle.vr_attach.specs.Chain.{SlotsBreak, SpellsRecords, SpellsRoster};
ghost use Rattle.vr_attach.specs.Damage.{IsLeastBroken};
ghost use Rattle.vr_chained.specs.Walked.{IsGoodRoster, IsReadOf};

use vr_attach::Rule;
use vr_ci::{CiView, Form, Shape};
use vr_seqset::RosterView;
use vr_slots::interval_of;
use vr_space::ChainLayout;

/// What the walk goes on by: how many intervals of an area are used, and which area is next.
#[derive(Clone, Copy)]
pub(crate) struct AreaRoster {
    pub used: u32,
    pub next: Option<u32>,
}

/// Whether the area that a roster leads to, where it leads to one, is one of the volume.
fn leads_there(layout: &ChainLayout, view: &RosterView<'_>) -> bool
    ensures { IsTrue result
        ↔ IfSome view.now.next (λ next. next < area_count layout.now.geometry) }
{
    match view.next() {
        Some(next) => next < layout.geometry.areas(),
        None => true,
    }
}

/// Whether a roster leads on only where its area is used whole.
fn leads_whole(layout: &ChainLayout, view: &RosterView<'_>) -> bool
    ensures { IsTrue result
        ↔ IfSome view.now.next (λ next. view.now.used ≡ layout.now.geometry.area) }
{
    view.next().is_none() || u32::from(view.used()) == layout.geometry.area
}

/// The same as `roster_of`, of a roster that was read.
fn view_rule(layout: &ChainLayout, view: &RosterView<'_>) -> Option<Rule>
    ensures { (top : List ℕ) → SpellsRoster layout.now top → roster_in top ≡ view.now
        → MatchOption result (IsGoodRoster layout.now top)
        (IsLeastBroken (RosterBreaks layout.now top)) }
{
    if !leads_there(layout, view) {
        return Some(Rule::AreaNumber);
    }
    if view.part() != layout.part.0 {
        return Some(Rule::PartNumber);
    }
    if !leads_whole(layout, view) {
        return Some(Rule::Roster);
    }
    None
}

/// What is read of a roster, or the least rule that it breaks.
pub(crate) fn roster_of(layout: &ChainLayout, top: &[u8]) -> Result<AreaRoster, Rule>
    requires { length top.now ≡ layout.now.geometry.size }
    ensures read { IfOk result (λ roster. IsReadOf layout.now top.now roster.used roster.next) }
    ensures broken { IfErr result (IsLeastBroken (RosterBreaks layout.now top.now)) }
{
    let Ok(view) = RosterView::read(top, layout.geometry.area as u16) else {
        return Err(Rule::Roster);
    };
    match view_rule(layout, &view) {
        Some(rule) => Err(rule),
        None => Ok(AreaRoster {
            used: u32::from(view.used()),
            next: view.next(),
        }),
    }
}

/// Whether a block is an interval of slots of some length, where it is no interval of records of
/// any lengths. It tries each length, since a block that isn't one of its part's is damaged anyhow.
fn is_of_slots(block: &[u8]) -> bool
    requires { length block.now < 65536 }
    ensures some { IsTrue result → (form : FormOf) × (value : ci.Interval)
        × ci.IsInterval form block.now value }
    ensures none { result ≡ false → (most : ℕ) (value : ci.Interval) → most < length block.now
        → ci.IsInterval (forms.Slots most) block.now value → ⊥ }
{
    for most in 0..block.len() as u16 {
        let form = Form::Slots { length: most };
        if CiView::read(form, block).is_ok() {
            return true;
        }
    }
    false
}

/// The least rule that a used interval breaks, which is none of slots of the part's length.
fn rule_of_other(block: &[u8]) -> Rule
    requires { length block.now < 65536 }
    ensures { (part : Numbered) → length block.now ≡ part.geometry.size
        → (IsSlots part block.now → ⊥) → IsLeastBroken (SlotsBreak part block.now) result }
{
    match CiView::read(Form::Plain, block) {
        Ok(view) => match view.shape() {
            Shape::EndOfFile => Rule::EndOfFile,
            _ => Rule::Slots,
        },
        Err(_) => {
            if is_of_slots(block) {
                Rule::Slots
            } else {
                Rule::ControlInterval
            }
        }
    }
}

/// The least rule that a used interval of a relative part breaks.
fn slots_rule(layout: &ChainLayout, block: &[u8]) -> Option<Rule>
    requires size { length block.now ≡ layout.now.geometry.size }
    requires small { length block.now < 65536 }
    ensures { MatchOption result (IsSlots layout.now block.now)
        (IsLeastBroken (SlotsBreak layout.now block.now)) }
{
    match interval_of(layout, block) {
        Some(_) => None,
        None => Some(rule_of_other(block)),
    }
}

/// Whether an interval of records has items alone that the part may have, and isn't busy.
fn has_entries(layout: &ChainLayout, view: &CiView<'_>) -> bool
    requires { view.now.shape ≡ shapes.Records }
    ensures { IsTrue result ↔ HasEntries layout.now view.now }
{
    if view.busy() {
        return false;
    }
    for (bytes, _) in view.iter() {
        if bytes.len() > usize::from(layout.most) {
            return false;
        }
    }
    true
}

/// The least rule that an interval of records breaks which was read, where it breaks one.
fn records_rule(layout: &ChainLayout, view: &CiView<'_>) -> Option<Rule>
    ensures { (block : List ℕ) → SpellsRecords layout.now block view.now → MatchOption result
        (HasEntries layout.now view.now)
        (IsLeastBroken (EntriesBreak layout.now block)) }
{
    match view.shape() {
        Shape::EndOfFile => Some(Rule::EndOfFile),
        Shape::Segment { .. } => Some(Rule::Record),
        Shape::Records => {
            if has_entries(layout, view) {
                None
            } else {
                Some(Rule::Record)
            }
        }
    }
}

/// The least rule that a used interval of an entry-sequenced part breaks.
fn entries_rule(layout: &ChainLayout, block: &[u8]) -> Option<Rule>
    requires size { length block.now ≡ layout.now.geometry.size }
    ensures { MatchOption result (IsEntries layout.now block.now)
        (IsLeastBroken (EntriesBreak layout.now block.now)) }
{
    let Ok(view) = CiView::read(Form::Plain, block) else {
        return Some(Rule::ControlInterval);
    };
    records_rule(layout, &view)
}

/// The least rule that a used interval breaks.
pub(crate) fn filled_rule(layout: &ChainLayout, block: &[u8]) -> Option<Rule>
    requires size { length block.now ≡ layout.now.geometry.size }
    requires small { length block.now < 65536 }
    ensures { MatchOption result (IsFilled layout.now block.now)
        (IsLeastBroken (FilledBreaks layout.now block.now)) }
{
    if layout.relative {
        slots_rule(layout, block)
    } else {
        entries_rule(layout, block)
    }
}
