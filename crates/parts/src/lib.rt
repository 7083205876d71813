// Lists the names that the types of an accepted image's slots hold, in order, in a table.
#![tactic(auto)]

ghost use Rattle.std.specs.Prelude.{◌≡◌, ℕ, ◌≤◌, ◌<◌};
ghost use Rattle.number.specs.Grammar.{counted, done, read};
ghost use Rattle.slot.specs.Field.{type_at, limit_at, Field, field_at, fields_at};
ghost use Rattle.slot.specs.declared.Edition.{Edition};
ghost use Rattle.image.specs.Schema.{slot_of};
ghost use Rattle.reader.specs.Reading.{schema_of};
ghost use Rattle.reader.specs.Promise.{Promise};
ghost use Rattle.parts.specs.Names.{all_of, leaf_names, type_names, field_names, variant_names};
ghost use Rattle.parts.specs.Lists.{table, push, push_all, levels_at, Lists, ListsSlot, Listable, Tabled};

use image::Frame;
use number::{Next, Ranged};
use slot::Edition;
use tree::{Head, Sort};
use view::Part;

// The names listed so far: a table, of which so many places are used.
#[derive(Drop)]
struct Names<'a> {
    parts: &'a mut [u16],
    used: usize,
}

impl<'a> Names<'a> {
    // A table that is full stays as it is.
    fn add(&mut self, part: u16)
        ensures added { table self.new ≡ push part (table self.old) }
        ensures same_table { self.new.parts.ghost_name ≡ self.old.parts.ghost_name }
    {
        if self.used < self.parts.len() {
            self.parts[self.used] = part;
            self.used += 1;
        }
    }

    // A type without children. Kind 3 is a name.
    fn add_leaf(&mut self, kind: u64, number: u64, top: u16)
        requires { top ≤ 1 }
        ensures added { table self.new ≡ push_all (leaf_names kind number top) (table self.old) }
        ensures same_table { self.new.parts.ghost_name ≡ self.old.parts.ghost_name }
    {
        if kind == 3 && number < 512 {
            self.add(number as u16 * 2 + top);
        }
    }
}

// A type, and the position after it. `top` is 1 where it stands bare; what another type holds does not.
fn list_type(
    image: &[u8],
    at: usize,
    levels: usize,
    names: u64,
    top: u16,
    listed: &mut Names<'_>,
) -> usize
    requires { top ≤ 1 }
    ensures listed { Lists (levels_at names levels) (type_names top) image.now at (table listed.old) (table listed.new) result }
    ensures same_table { listed.new.parts.ghost_name ≡ listed.old.parts.ghost_name }
{
    if levels == 0 {
        return at;
    }
    match tree::read_head(image, at, Sort::Resolved, names) {
        Head::Leaf(kind, _, number, next) => {
            listed.add_leaf(kind, number, top);
            next
        }
        Head::One(_, body) => list_type(image, body, levels - 1, names, 0, listed),
        Head::Two(_, body) => {
            let second = list_type(image, body, levels - 1, names, 0, listed);
            list_type(image, second, levels - 1, names, 0, listed)
        }
        Head::Sized(body) => {
            let size = list_type(image, body, levels - 1, names, 0, listed);
            view::place_of(number::skip_whole(image, size))
        }
        Head::Generic(_, body) => list_type(image, body, levels - 1, names, 0, listed),
        Head::Refused(_, next) => next,
    }
}

// Where the type of a field stands. The limit follows the type.
fn type_place(image: &[u8], at: usize, names: u64) -> usize
    ensures { (ed : Edition) (x : Field) (end : ℕ) → read (field_at ed names) image.now at ≡ done x end → (n : ℕ) × (read (type_at names) image.now result ≡ done x.type n) × (read (limit_at ed) image.now n ≡ done x.limit end) }
{
    let name = number::skip_below(image, at, names);
    view::place_of(tree::skip_encoding(image, name))
}

// Fields: their count, and the fields.
fn list_fields(
    image: &[u8],
    at: usize,
    edition: Edition,
    names: u64,
    top: u16,
    listed: &mut Names<'_>,
) -> usize
    requires { top ≤ 1 }
    ensures listed { Lists (fields_at edition names) (all_of (field_names top)) image.now at (table listed.old) (table listed.new) result }
    ensures same_table { listed.new.parts.ghost_name ≡ listed.old.parts.ghost_name }
{
    let Ranged::Value(count, first) = number::read_below(image, at, 65537) else {
        return at;
    };
    let mut here = first;
    for _ in 0..count {
        let place = type_place(image, here, names);
        let behind = list_type(image, place, 32, names, top, listed);
        here = view::place_of(slot::skip_limit(image, Next::At(behind), edition));
    }
    here
}

// Variants: their count, and the fields of each.
fn list_variants(
    image: &[u8],
    at: usize,
    edition: Edition,
    names: u64,
    listed: &mut Names<'_>,
) -> usize
    ensures listed { Lists (counted (fields_at edition names)) (all_of variant_names) image.now at (table listed.old) (table listed.new) result }
    ensures same_table { listed.new.parts.ghost_name ≡ listed.old.parts.ghost_name }
{
    let Ranged::Value(count, first) = number::read_below(image, at, 65537) else {
        return at;
    };
    let mut here = first;
    for _ in 0..count {
        here = list_fields(image, here, edition, names, 0, listed);
    }
    here
}

// A slot: the fields of a message, the variants of a union, the inner type of a newtype. Is it a message?
fn list_slot(
    image: &[u8],
    starts: &[usize],
    frame: Frame,
    slot: usize,
    listed: &mut Names<'_>,
) -> bool
    requires { Promise image.now starts.now frame × (slot < frame.slots) }
    ensures listed { ListsSlot (slot_of (schema_of frame.edition image.now) slot) (table listed.old) (table listed.new) result }
    ensures same_table { listed.new.parts.ghost_name ≡ listed.old.parts.ghost_name }
{
    let Part::At(kind, body) = view::slot_part(image, starts, slot) else {
        return false;
    };
    match kind {
        1 => {
            let place = view::slot_inside(image, starts, slot);
            list_fields(image, place, frame.edition, frame.names, 1, listed);
        }
        4 => {
            let place = view::slot_inside(image, starts, slot);
            list_variants(image, place, frame.edition, frame.names, listed);
        }
        5 => {
            list_type(image, body, 32, frame.names, 1, listed);
        }
        _ => {}
    }
    kind == 1
}

// All slots: which are messages, where the names of each start and, one place on, end, and the names.
pub fn list_slots(
    image: &[u8],
    starts: &[usize],
    frame: Frame,
    messages: &mut [bool],
    first: &mut [u16],
    parts: &mut [u16],
)
    requires { Listable image.now starts.now frame messages.old first.old parts.old }
    ensures { Tabled (schema_of frame.edition image.now).slots messages.new first.new parts.old parts.new }
{
    let mut listed = Names { parts, used: 0 };
    for i in 0..frame.slots as usize {
        messages[i] = list_slot(image, starts, frame, i, &mut listed);
        first[i + 1] = listed.used as u16;
    }
}
