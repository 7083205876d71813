// Marks what the slots of an accepted image are made of, in rows of bits, and which of them are declared messages and unions.
#![tactic(auto)]

ghost use Rattle.std.specs.Prelude.{◌≡◌, List, false, ℕ, ◌+◌, ◌*◌, ◌<◌, ◌≤◌, length, replicate};
ghost use Rattle.number.specs.Grammar.{counted, done, below};
ghost use Rattle.tree.specs.Tree.{leaf};
ghost use Rattle.tree.specs.Short.{short_leaf};
ghost use Rattle.slot.specs.Field.{type_at, field_at, fields_at};
ghost use Rattle.slot.specs.Short.{short_at, short_encoding};
ghost use Rattle.slot.specs.declared.Short.{Short};
ghost use Rattle.slot.specs.declared.Edition.{Edition};
ghost use Rattle.image.specs.Schema.{slot_of};
ghost use Rattle.loops.specs.Marks.{Led, Filled};
ghost use Rattle.reader.specs.Reading.{schema_of};
ghost use Rattle.reader.specs.Promise.{Promise};
ghost use Rattle.sizes.specs.Lengths.{type_parts, encoded_parts, field_parts, fields_parts, variants_parts, parts_of};
ghost use Rattle.sizes.specs.Reached.{is_sizable, part_leads};
ghost use Rattle.settling.specs.Steps.{Holds, plain_at};
ghost use Rattle.marks.specs.Marks.{Marks, FieldTo, Begun, Started};

use image::Frame;
use number::{Next, Ranged};
use settling::Coded;
use slot::{Edition, Short};
use tree::Sort;
use view::Part;

// What the fields and types of an image are read by.
#[derive(Clone, Copy)]
struct Source<'a> {
    image: &'a [u8],
    edition: Edition,
    names: u64,
}

// A field of four bytes and its limit, by those bytes: a plain name is its one part.
fn mark_short(encoding: u64, kind: u64, number: u64, rows: &mut [u64], row: usize)
    requires { row * 8 + 8 ≤ length rows.old }
    ensures { (names at : ℕ) (s : List ℕ) → short_at names s at ≡ Short.Is encoding kind number → Led rows.old row (encoded_parts (short_encoding encoding) (leaf (short_leaf kind number))) rows.new }
{
    if encoding == 0 && kind == 3 {
        graph::mark(rows, row, number);
    }
}

impl Source<'_> {
    // What a type is made of.
    fn mark_type(&self, at: usize, rows: &mut [u64], row: usize) -> usize
        requires { row * 8 + 8 ≤ length rows.old }
        ensures { Marks (type_at self.now.names) type_parts self.now.image.now at row rows.old rows.new result }
    {
        loops::mark_tree(
            self.image,
            at,
            32,
            Sort::Resolved,
            self.names,
            &[0],
            rows,
            row,
        )
    }

    // The position after a field whose type is not gone into.
    fn pass_field(&self, at: usize) -> usize
        ensures { FieldTo self.now.edition self.now.names self.now.image.now at result }
    {
        let behind = tree::read_tree(self.image, at, 32, Sort::Resolved, self.names);
        view::place_of(slot::skip_limit(self.image, behind, self.edition))
    }

    // A plain field from its type on, where no limit bears on elements.
    fn mark_whole(&self, at: usize, rows: &mut [u64], row: usize) -> usize
        requires { row * 8 + 8 ≤ length rows.old }
        ensures { Marks (plain_at self.now.edition self.now.names) (λ x. type_parts x.type) self.now.image.now at row rows.old rows.new result }
    {
        let behind = self.mark_type(at, rows, row);
        view::place_of(slot::skip_limit(self.image, Next::At(behind), self.edition))
    }

    // An array, a set or a map: its elements are parts if it has a limit.
    fn mark_elements(
        &self,
        at: usize,
        kind: u64,
        body: usize,
        rows: &mut [u64],
        row: usize,
    ) -> usize
        requires { (below 17 self.now.image.now at ≡ done kind body) × Holds kind × (row * 8 + 8 ≤ length rows.old) }
        ensures { Marks (plain_at Edition.Two self.now.names) field_parts self.now.image.now at row rows.old rows.new result }
    {
        let limit = settling::limit_behind(self.image, at, self.names);
        if limit.most == 0 {
            return limit.next;
        }
        let second = self.mark_type(body, rows, row);
        if kind == 8 {
            self.mark_type(second, rows, row);
        }
        limit.next
    }

    // A plain field of edition two: its limit bears on the elements of its own type.
    fn mark_limited(&self, at: usize, rows: &mut [u64], row: usize) -> usize
        requires { row * 8 + 8 ≤ length rows.old }
        ensures { self.now.edition ≡ Edition.Two → Marks (plain_at Edition.Two self.now.names) field_parts self.now.image.now at row rows.old rows.new result }
    {
        let Ranged::Value(kind, body) = number::read_below(self.image, at, 17) else {
            return at;
        };
        match kind {
            5 | 7 | 8 => self.mark_elements(at, kind, body, rows, row),
            _ => self.mark_whole(at, rows, row),
        }
    }

    // A field that neither Varint nor ZigZag governs, from its type on. Edition one has no limits.
    fn mark_plain(&self, at: usize, rows: &mut [u64], row: usize) -> usize
        requires { row * 8 + 8 ≤ length rows.old }
        ensures { Marks (plain_at self.now.edition self.now.names) field_parts self.now.image.now at row rows.old rows.new result }
    {
        match self.edition {
            Edition::One => self.mark_whole(at, rows, row),
            Edition::Two => self.mark_limited(at, rows, row),
        }
    }

    // A Varint or ZigZag field has no parts.
    fn mark_long(&self, at: usize, rows: &mut [u64], row: usize) -> usize
        requires { row * 8 + 8 ≤ length rows.old }
        ensures { Marks (field_at self.now.edition self.now.names) field_parts self.now.image.now at row rows.old rows.new result }
    {
        match settling::field_type(self.image, at, self.names) {
            Coded::Plain(place) => self.mark_plain(place, rows, row),
            Coded::Varint(place) => self.pass_field(place),
            Coded::ZigZag(place) => self.pass_field(place),
        }
    }

    fn mark_field(&self, at: usize, rows: &mut [u64], row: usize) -> usize
        requires { row * 8 + 8 ≤ length rows.old }
        ensures { Marks (field_at self.now.edition self.now.names) field_parts self.now.image.now at row rows.old rows.new result }
    {
        match slot::short_field(self.image, at, self.names) {
            Short::Is(encoding, kind, number) => {
                mark_short(encoding, kind, number, rows, row);
                view::place_of(slot::skip_limit(self.image, Next::At(at + 4), self.edition))
            }
            Short::Other => self.mark_long(at, rows, row),
        }
    }

    // Fields: their count, and the fields.
    fn mark_fields(&self, at: usize, rows: &mut [u64], row: usize) -> usize
        requires { row * 8 + 8 ≤ length rows.old }
        ensures { Marks (fields_at self.now.edition self.now.names) fields_parts self.now.image.now at row rows.old rows.new result }
    {
        let Ranged::Value(count, first) = number::read_below(self.image, at, 65537) else {
            return at;
        };
        let mut here = first;
        for _ in 0..count {
            here = self.mark_field(here, rows, row);
        }
        here
    }

    // Variants: their count, and the fields of each.
    fn mark_variants(&self, at: usize, rows: &mut [u64], row: usize) -> usize
        requires { row * 8 + 8 ≤ length rows.old }
        ensures { Marks (counted (fields_at self.now.edition self.now.names)) variants_parts self.now.image.now at row rows.old rows.new result }
    {
        let Ranged::Value(count, first) = number::read_below(self.image, at, 65537) else {
            return at;
        };
        let mut here = first;
        for _ in 0..count {
            here = self.mark_fields(here, rows, row);
        }
        here
    }
}

// A slot: the fields of a message, the variants of a union, the terminal type of a newtype.
fn mark_slot(image: &[u8], starts: &[usize], frame: Frame, slot: usize, rows: &mut [u64])
    requires { Promise image.now starts.now frame × (slot < frame.slots) × (slot * 8 + 8 ≤ length rows.old) }
    ensures { Led rows.old slot (parts_of (schema_of frame.edition image.now) slot) rows.new }
{
    let Part::At(kind, _) = view::slot_part(image, starts, slot) else {
        return;
    };
    let source = Source {
        image,
        edition: frame.edition,
        names: frame.names,
    };
    let inside = view::slot_inside(image, starts, slot);
    match kind {
        1 => {
            source.mark_fields(inside, rows, slot);
        }
        4 => {
            source.mark_variants(inside, rows, slot);
        }
        5 => {
            source.mark_type(inside, rows, slot);
        }
        _ => {}
    }
}

// All slots.
pub fn mark_parts(image: &[u8], starts: &[usize], frame: Frame, rows: &mut [u64])
    requires { Promise image.now starts.now frame × (frame.slots * 8 ≤ length rows.old) }
    ensures { Filled rows.old (part_leads (schema_of frame.edition image.now)) frame.slots rows.new }
{
    for slot in 0..frame.slots as usize {
        mark_slot(image, starts, frame, slot, rows);
    }
}

// Is slot i a message or a union?
fn is_sizable(image: &[u8], starts: &[usize], frame: Frame, i: usize) -> bool
    requires { Promise image.now starts.now frame × (i < frame.slots) }
    ensures { result ≡ is_sizable (slot_of (schema_of frame.edition image.now) i) }
{
    match view::slot_part(image, starts, i) {
        Part::At(kind, _) => matches!(kind, 1 | 4),
        Part::Missing => false,
    }
}

// A slot of the declaration list: one that is not there is passed over.
fn mark_start(image: &[u8], starts: &[usize], frame: Frame, slot: u32, marks: &mut [bool])
    requires { Promise image.now starts.now frame × (frame.slots ≤ length marks.old) }
    ensures { Begun (schema_of frame.edition image.now) frame.slots slot marks.old marks.new }
{
    if u64::from(slot) < frame.slots && is_sizable(image, starts, frame, slot as usize) {
        marks[slot as usize] = true;
    }
}

// The declared messages and unions.
pub fn mark_starts(image: &[u8], starts: &[usize], frame: Frame, marks: &mut [bool])
    requires { Promise image.now starts.now frame × (marks.old ≡ replicate (length marks.old) false) × (frame.slots ≤ length marks.old) }
    ensures { Started (schema_of frame.edition image.now) frame.slots marks.old marks.new }
{
    let mut here = frame.declared;
    for _ in 0..frame.declarations {
        let slot = view::take(image, here);
        mark_start(image, starts, frame, slot.value, marks);
        here = slot.next;
    }
}
