// Whether the slots of an accepted image stand in an order in which no message holds itself. Most do, and then nothing has
// to be walked.
#![tactic(auto)]

ghost use Rattle.std.specs.Prelude.{◌≡◌, List, Bool, true, false, ℕ, ◌<◌, ltb};
ghost use Rattle.std.specs.Bool.{then_some};
ghost use Rattle.number.specs.Grammar.{done, read};
ghost use Rattle.tree.specs.Tree.{Tree, Leaf, leaf_kind, leaf_number};
ghost use Rattle.slot.specs.Field.{type_at, limit_at, Field, field_at, fields_at};
ghost use Rattle.image.specs.Schema.{slot_of};
ghost use Rattle.reader.specs.Reading.{schema_of};
ghost use Rattle.reader.specs.Promise.{Promise};
ghost use Rattle.order.specs.Order.{rank, bare_leaf, bare_type, bare_fields, bare_slot, ordered, is_ordered};
ghost use Rattle.order.specs.Steps.{onward, Within, PassesTyped};

use image::Frame;
use number::{Next, Ranged};
use slot::Short;
use tree::{Head, Sort};
use view::Part;

// A slot of an accepted image, and which way its bare names are to lead: `up`, to later slots, and else to earlier ones.
#[derive(Clone, Copy)]
struct Origin<'a> {
    image: &'a [u8],
    starts: &'a [usize],
    frame: Frame,
    slot: usize,
    up: bool,
}

fn is_lower(up: bool, id: u64, slot: u64) -> bool
    requires { slot < 512 }
    ensures { result ≡ ltb (rank up id) (rank up slot) }
{
    if up { slot < id } else { id < slot }
}

// Whether a type's kind is that of a bare name. Its caller only leans on the answer `false`.
fn is_name(image: &[u8], at: usize) -> bool
    ensures { result ≡ false → (test : ℕ → Bool) (names : ℕ) (t : Tree) (end : ℕ) → read (type_at names) image.now at ≡ done t end → bare_type test t ≡ true }
{
    match number::read_below(image, at, 17) {
        Ranged::Value(kind, _) => kind == 3,
        Ranged::Refused(_, _) => true,
    }
}

impl Origin<'_> {
    fn name_leads_on(&self, id: u64) -> bool
        requires { Within self.now }
        ensures { result ≡ onward self.now id }
    {
        if is_lower(self.up, id, self.slot as u64) || self.frame.slots <= id {
            return true;
        }
        match view::slot_part(self.image, self.starts, id as usize) {
            Part::At(kind, _) => !matches!(kind, 1 | 5),
            Part::Missing => true,
        }
    }

    fn leaf_leads_on(&self, kind: u64, number: u64) -> bool
        requires { Within self.now }
        ensures { (l : Leaf) → leaf_kind l ≡ kind → leaf_number l ≡ number → result ≡ bare_leaf (onward self.now) l }
    {
        kind != 3 || self.name_leads_on(number)
    }

    // The position after a type, if its bare name leads on or it is none.
    fn pass_type(&self, at: usize) -> Option<usize>
        requires { Within self.now }
        ensures { (t : Tree) (end : ℕ) → read (type_at self.now.frame.names) self.now.image.now at ≡ done t end → result ≡ then_some (bare_type (onward self.now) t) end }
    {
        let names = self.frame.names;
        if is_name(self.image, at) {
            if let Head::Leaf(kind, _, number, next) = tree::read_head(
                self.image,
                at,
                Sort::Resolved,
                names,
            ) {
                return self.leaf_leads_on(kind, number).then_some(next);
            }
        }
        Some(view::place_of(tree::read_tree(self.image, at, 32, Sort::Resolved, names)))
    }

    // The same of a long field, up to its limit.
    fn pass_long_field(&self, at: usize) -> Option<usize>
        requires { Within self.now }
        ensures { (x : Field) (end : ℕ) → read (field_at self.now.frame.edition self.now.frame.names) self.now.image.now at ≡ done x end → PassesTyped (onward self.now) self.now.frame.edition self.now.image.now x end result }
    {
        let name = number::skip_below(self.image, at, self.frame.names);
        self.pass_type(view::place_of(tree::skip_encoding(self.image, name)))
    }

    // Of any field, up to its limit.
    fn pass_typed(&self, at: usize) -> Option<usize>
        requires { Within self.now }
        ensures { (x : Field) (end : ℕ) → read (field_at self.now.frame.edition self.now.frame.names) self.now.image.now at ≡ done x end → PassesTyped (onward self.now) self.now.frame.edition self.now.image.now x end result }
    {
        match slot::short_field(self.image, at, self.frame.names) {
            Short::Is(_, kind, number) => self.leaf_leads_on(kind, number).then_some(at + 4),
            Short::Other => self.pass_long_field(at),
        }
    }

    // Of a field with its limit.
    fn pass_field(&self, at: usize) -> Option<usize>
        requires { Within self.now }
        ensures { (x : Field) (end : ℕ) → read (field_at self.now.frame.edition self.now.frame.names) self.now.image.now at ≡ done x end → result ≡ then_some (bare_type (onward self.now) x.type) end }
    {
        let behind = self.pass_typed(at)?;
        let edition = self.frame.edition;
        Some(view::place_of(slot::skip_limit(self.image, Next::At(behind), edition)))
    }

    // Fields: their count, and the fields.
    fn fields_lead_on(&self, at: usize) -> bool
        requires { Within self.now }
        ensures { (fs : List Field) (end : ℕ) → read (fields_at self.now.frame.edition self.now.frame.names) self.now.image.now at ≡ done fs end → result ≡ bare_fields (onward self.now) fs }
    {
        let Ranged::Value(count, first) = number::read_below(self.image, at, 65537) else {
            return true;
        };
        let mut here = first;
        for _ in 0..count {
            let Some(next) = self.pass_field(here) else {
                return false;
            };
            here = next;
        }
        true
    }

    // Do the slot's bare names all lead on?
    fn leads_on(&self) -> bool
        requires { Within self.now }
        ensures { result ≡ bare_slot (onward self.now) (slot_of (schema_of self.now.frame.edition self.now.image.now) self.now.slot) }
    {
        let Part::At(kind, body) = view::slot_part(self.image, self.starts, self.slot) else {
            return true;
        };
        match kind {
            1 => self.fields_lead_on(view::slot_inside(self.image, self.starts, self.slot)),
            5 => self.pass_type(body).is_some(),
            _ => true,
        }
    }
}

// Do all bare names lead to earlier slots, or `up`, to later ones?
fn goes_one_way(image: &[u8], starts: &[usize], frame: Frame, up: bool) -> bool
    requires { Promise image.now starts.now frame }
    ensures { result ≡ ordered up (schema_of frame.edition image.now) }
{
    for slot in 0..frame.slots as usize {
        let origin = Origin {
            image,
            starts,
            frame,
            slot,
            up,
        };
        if !origin.leads_on() {
            return false;
        }
    }
    true
}

// Do the slots stand in an order: by bare names that all lead to earlier slots, or all to later ones?
pub fn is_ordered(image: &[u8], starts: &[usize], frame: Frame) -> bool
    requires { Promise image.now starts.now frame }
    ensures { result ≡ is_ordered (schema_of frame.edition image.now) }
{
    goes_one_way(image, starts, frame, false) || goes_one_way(image, starts, frame, true)
}
