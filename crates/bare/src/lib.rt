// Whether no slot of an accepted image leads back to itself by bare names. Then no message holds itself, though the slots may
// stand in no order, and nothing has to be walked.
#![tactic(auto)]

ghost use Rattle.std.specs.Prelude.{◌≡◌, ◌+◌, ◌*◌, ◌<◌, ◌≤◌, length};
ghost use Rattle.tree.specs.Tree.{Leaf, leaf_kind, leaf_number};
ghost use Rattle.slot.specs.Field.{type_at, field_at, fields_at};
ghost use Rattle.graph.specs.Ways.{lowest_looped};
ghost use Rattle.graph.specs.Table.{grid};
ghost use Rattle.image.specs.Schema.{slot_of};
ghost use Rattle.loops.specs.Leads.{leaf_slots};
ghost use Rattle.loops.specs.Marks.{Led, Filled};
ghost use Rattle.reader.specs.Reading.{schema_of};
ghost use Rattle.reader.specs.Promise.{Promise};
ghost use Rattle.reach.specs.Order.{Rows};
ghost use Rattle.bare.specs.Bare.{type_names, fields_names, bare_names, bare_leads, is_nowhere, is_free};
ghost use Rattle.bare.specs.Steps.{Marks, Typed};

use image::Frame;
use number::{Next, Ranged};
use reach::Walked;
use slot::{Edition, Short};
use tree::{Head, Sort};
use view::Part;

// What the fields and types of an image are read by.
#[derive(Clone, Copy)]
struct Source<'a> {
    image: &'a [u8],
    edition: Edition,
    names: u64,
}

// Kind 3 is a name.
fn mark_leaf(kind: u64, number: u64, rows: &mut [u64], row: usize)
    requires { row * 8 + 8 ≤ length rows.old }
    ensures { (l : Leaf) → leaf_kind l ≡ kind → leaf_number l ≡ number → Led rows.old row (leaf_slots l) rows.new }
{
    if kind == 3 {
        graph::mark(rows, row, number);
    }
}

impl Source<'_> {
    // A type: a bare name is marked, any other passed over.
    fn mark_type(&self, at: usize, rows: &mut [u64], row: usize) -> usize
        requires { row * 8 + 8 ≤ length rows.old }
        ensures { Marks (type_at self.now.names) type_names self.now.image.now at row rows.old rows.new result }
    {
        if let Head::Leaf(kind, _, number, next) = tree::read_head(
            self.image,
            at,
            Sort::Resolved,
            self.names,
        ) {
            mark_leaf(kind, number, rows, row);
            return next;
        }
        view::place_of(tree::read_tree(self.image, at, 32, Sort::Resolved, self.names))
    }

    // A long field, up to its limit.
    fn mark_long(&self, at: usize, rows: &mut [u64], row: usize) -> usize
        requires { row * 8 + 8 ≤ length rows.old }
        ensures { Typed self.now.names self.now.image.now at row rows.old rows.new result }
    {
        let name = number::skip_below(self.image, at, self.names);
        let place = view::place_of(tree::skip_encoding(self.image, name));
        self.mark_type(place, rows, row)
    }

    // A field, up to its limit. Its encoding does not matter.
    fn mark_typed(&self, at: usize, rows: &mut [u64], row: usize) -> usize
        requires { row * 8 + 8 ≤ length rows.old }
        ensures { Typed self.now.names self.now.image.now at row rows.old rows.new result }
    {
        match slot::short_field(self.image, at, self.names) {
            Short::Is(_, kind, number) => {
                mark_leaf(kind, number, rows, row);
                at + 4
            }
            Short::Other => self.mark_long(at, rows, row),
        }
    }

    // A field with its limit.
    fn mark_field(&self, at: usize, rows: &mut [u64], row: usize) -> usize
        requires { row * 8 + 8 ≤ length rows.old }
        ensures { Marks (field_at self.now.edition self.now.names) (λ x. type_names x.type) self.now.image.now at row rows.old rows.new result }
    {
        let behind = self.mark_typed(at, rows, row);
        view::place_of(slot::skip_limit(self.image, Next::At(behind), self.edition))
    }

    // Fields: their count, and the fields.
    fn mark_fields(&self, at: usize, rows: &mut [u64], row: usize) -> usize
        requires { row * 8 + 8 ≤ length rows.old }
        ensures { Marks (fields_at self.now.edition self.now.names) fields_names self.now.image.now at row rows.old rows.new result }
    {
        let Ranged::Value(count, first) = number::read_below(self.image, at, 65537) else {
            return at;
        };
        let mut here = first;
        for _ in 0..count {
            here = self.mark_field(here, rows, row);
        }
        here
    }
}

// A slot: a message's fields stand inside it, a newtype's inner type at its start.
fn mark_slot(image: &[u8], starts: &[usize], frame: Frame, slot: usize, rows: &mut [u64])
    requires { Promise image.now starts.now frame × (slot < frame.slots) × (slot * 8 + 8 ≤ length rows.old) }
    ensures { Led rows.old slot (bare_names (slot_of (schema_of frame.edition image.now) slot)) rows.new }
{
    let Part::At(kind, body) = view::slot_part(image, starts, slot) else {
        return;
    };
    let source = Source {
        image,
        edition: frame.edition,
        names: frame.names,
    };
    match kind {
        1 => {
            let place = view::slot_inside(image, starts, slot);
            source.mark_fields(place, rows, slot);
        }
        5 => {
            source.mark_type(body, rows, slot);
        }
        _ => {}
    }
}

// All slots.
fn mark_bare(image: &[u8], starts: &[usize], frame: Frame, rows: &mut [u64])
    requires { Promise image.now starts.now frame × (frame.slots * 8 ≤ length rows.old) }
    ensures { Filled rows.old (bare_leads (schema_of frame.edition image.now)) frame.slots rows.new }
{
    for slot in 0..frame.slots as usize {
        mark_slot(image, starts, frame, slot, rows);
    }
}

// Does no number below `count` lead back to itself? Then all can be put in order.
fn has_order(rows: &[u64], count: usize) -> bool
    requires { Rows rows.now count }
    ensures { result ≡ is_nowhere (lowest_looped (grid rows.now) count) }
{
    let all = [true; 512];
    let mut seen = [false; 512];
    let mut stack = [0u16; 512];
    let mut order = [0u16; 512];
    match reach::arrange(
        rows,
        count,
        &all,
        &mut seen[0..count],
        &mut stack,
        &mut order,
    ) {
        Walked::Done(_) => true,
        Walked::Back(_) => false,
    }
}

// Does no slot lead back to itself by bare names?
pub fn is_free(image: &[u8], starts: &[usize], frame: Frame) -> bool
    requires { Promise image.now starts.now frame }
    ensures { result ≡ is_free (schema_of frame.edition image.now) }
{
    let mut rows = [0u64; 4096];
    mark_bare(image, starts, frame, &mut rows);
    let count = frame.slots as usize;
    has_order(&rows, count)
}
