//! Writing a control interval into a block.

ghost use Rattle.std.specs.Prelude.{◌≡◌, ◌+◌, ◌-◌, ◌*◌, ◌<◌, ◌≤◌, ◌↔◌, Bool, ℕ, List, [], ◌∷◌};
ghost use Rattle.std.specs.Prelude.{◌++◌, length, IsErr, OnOk, OnErr, IfErr};
ghost use Rattle.vr_ci_match.specs.declared.form.Shape.TheVariants as shapes;
ghost use Rattle.vr_types.specs.BlockSize.{IsBlockSize};

use crate::no_room::NoRoom;
use crate::put::{extend_run, goes_on, put_cidf, put_item, put_rdf, put_zeros, run_started};
use vr_ci_match::{Form, Rdf};

/// Writes records into a block, one after the other. The block is a control interval once `end` is
/// called.
#[derive(Drop)]
pub struct CiWriter<'a> {
    out: &'a mut [u8],
    form: Form,
    front: usize,
    back: usize,
    added: usize,
    run_length: u16,
    run_count: usize,
    ghost least: { 512 ≤ length out.now },
    ghost most: { length out.now ≤ 32768 },
    ghost room: { front + 3 * added + 4 ≤ length out.now },
    ghost control: { length out.now ≤ back + 4 + 3 * added },
    ghost back_in: { back + 4 ≤ length out.now },
    ghost run: { run_count ≤ added },
}

impl<'a> CiWriter<'a> {
    ghost use Rattle.vr_ci.specs.Interval.{Item, IsInterval, room};
    ghost use Rattle.vr_ci.specs.Writer.{Holds, IsSlotLength, IsItemLength, IsComplete, written};
    ghost use Rattle.vr_ci.specs.Writer.{size_of, buffer_of, form_of, block_of, added_of};

    /// Begins a control interval in a block, whatever it held before.
    pub fn begin(form: Form, out: &'a mut [u8]) -> CiWriter<'a>
        requires size { IsBlockSize (length out.old) }
        requires slot { IsSlotLength form }
        ensures empty { Holds result [] }
        ensures none { added_of result ≡ 0 }
        ensures form { form_of result ≡ form }
        ensures size { size_of result ≡ length out.old }
        ensures buffer { buffer_of result ≡ out.entry.ghost_name }
    {
        let back = out.len() - 4;
        CiWriter {
            out,
            form,
            front: 0,
            back,
            added: 0,
            run_length: 0,
            run_count: 0,
        }
    }

    /// Adds a record, or the next slot. Of a withdrawn record and an empty slot the length alone is
    /// kept.
    ///
    /// `NoRoom` comes exactly where the records would need more room than the block has: three
    /// bytes for each beside its own. Nothing is changed then.
    pub fn add(&mut self, item: &[u8], live: bool) -> Result<(), NoRoom>
        requires { IsItemLength (form_of self.old) (length item.now) }
        ensures ok { (items : List Item) → Holds self.old items
            → OnOk result (Holds self.new (items ++ written item.now live ∷ [])) }
        ensures full { (items : List Item) → Holds self.old items
            → (IsErr result ↔ (size_of self.old - 4 < room items + (length item.now + 3))) }
        ensures room { (items : List Item) → Holds self.old items
            → IfErr result (λ e. (e.need ≡ length item.now + 3)
            × (e.free ≡ size_of self.old - 4 - room items)) }
        ensures err { (items : List Item) → Holds self.old items
            → OnErr result (Holds self.new items) }
        ensures untouched { OnErr result
            ((block_of self.new ≡ block_of self.old) × (added_of self.new ≡ added_of self.old)) }
        ensures count { OnOk result (added_of self.new ≡ added_of self.old + 1) }
        ensures form { form_of self.new ≡ form_of self.old }
        ensures size { size_of self.new ≡ size_of self.old }
        ensures buffer { buffer_of self.new ≡ buffer_of self.old }
    {
        let need = item.len() + 3;
        let free = self.out.len() - 4 - self.front - 3 * self.added;
        if need > free {
            return Err(NoRoom { need, free });
        }
        let length = item.len() as u16;
        let at = self.front;
        self.front += item.len();
        self.added += 1;
        put_item(self.out, at, item, live);
        if goes_on(live, length, self.run_length, self.run_count) {
            self.back = extend_run(self.out, self.back, self.run_count);
            self.run_count += 1;
        } else {
            self.back -= 3;
            put_rdf(self.out, self.back, Rdf::Single { live, length });
            self.run_length = length;
            self.run_count = run_started(self.form, live);
        }
        Ok(())
    }

    /// Ends the control interval: fills the free space with zeros and writes the CIDF. The block is
    /// then the one of the items that were added.
    pub fn end(self, busy: bool)
        requires { IsComplete self }
        ensures interval { (items : List Item) → Holds self.entry items
            → IsInterval (form_of self.entry) self.exit.0.now
            (record { shape = shapes.Records; items = items; busy = busy }) }
        ensures size { length self.exit.0.now ≡ size_of self.entry }
    {
        let CiWriter {
            out,
            front,
            back,
            ..
        } = self;
        put_zeros(out, front, back);
        put_cidf(out, front, back - front, busy);
    }
}
