// Sizes of types, names, fields, messages and unions, from the bytes of an accepted image.
#![tactic(auto)]

ghost use Rattle.std.specs.Prelude.{◌≡◌, ◌+◌, ◌*◌, ◌<◌, ◌≤◌, length};
ghost use Rattle.number.specs.Grammar.{many, counted};
ghost use Rattle.slot.specs.Field.{type_at, field_at, fields_at};
ghost use Rattle.reader.specs.Reading.{schema_of};
ghost use Rattle.reader.specs.Promise.{Promise};
ghost use Rattle.sizes.specs.Sizes.{type_size, field_alone, fields_size, union_size};
ghost use Rattle.settling.specs.Steps.{frame_of, element_at, plain_at};
ghost use Rattle.wiresize.specs.Rows.{row_at};
ghost use Rattle.wiresize.specs.Asked.{Asked, Ready, Meant, Walks, WorksOut, Counts, Varies, Names, Held, Owns, turned_as};

use number::Ranged;
use settling::{Decided, Limited, Plain, Scope, Settled, Walked};
use sizes::{Layout, Operation, Size, Worked};
use total::Step;
use tree::Sort;
use view::Part;

// What a row of the size table says of a name.
#[derive(Clone, Copy)]
pub enum Row {
    Known(Worked),
    None,
}

// What variants come to: their extremes, and the size of the last one.
#[derive(Clone, Copy)]
pub enum Varied {
    Sized(Size, Size),
    Over(Operation),
}

// A turn of a declared slot; Other is neither a message nor a union.
#[derive(Clone, Copy)]
pub enum Turned {
    Sized(Size),
    Over(Operation),
    Other,
}

// What the table says of a slot: nothing of a message or union that has no stored size yet, nor of other slots.
pub fn known_size(rows: &[u64], slot: usize) -> Row
    requires { 3 * slot + 3 ≤ length rows.now }
    ensures { result ≡ row_at rows.now slot }
{
    let first = 3 * slot;
    let kind = rows[first];
    let a = rows[first + 1];
    let b = rows[first + 2];
    match kind {
        1 => Row::Known(Worked::Sized(Size::Fixed(a))),
        2 => Row::Known(Worked::Sized(Size::Bounded(a, b))),
        3 => Row::Known(Worked::Sized(Size::Open(a))),
        4 => Row::Known(Worked::Sized(Size::Fixed(a))),
        5 => Row::Known(measures::multiply_wire_size(Size::Fixed(a), 8)),
        _ => Row::None,
    }
}

// A type. Its frame is kept small: types nest.
#[cycle(wire_size)]
fn compute_resolved_type_wire_size(
    image: &[u8],
    starts: &[usize],
    scope: Scope,
    rows: &[u64],
    at: usize,
    working: &[bool; 512],
) -> Walked
    requires { Asked (type_at scope.names) image.now starts.now (frame_of scope) rows.now working.now at }
    ensures { Walks (Meant scope.layout (schema_of scope.edition image.now) rows.now working.now) (type_at scope.names) type_size image.now at result }
{
    let names = scope.names;
    let head = tree::read_head(image, at, Sort::Resolved, names);
    match settling::head_wire_size(head) {
        Decided::Leaf(size, next) => Walked {
            worked: Worked::Sized(size),
            next,
        },
        Decided::Pass(size) => settling::pass_type(image, at, names, size),
        Decided::Name(id, next) => {
            let worked = named_type_wire_size(image, starts, scope, rows, id, working);
            Walked { worked, next }
        }
        Decided::One(kind, body) => {
            let child = compute_resolved_type_wire_size(image, starts, scope, rows, body, working);
            settling::close_one(image, kind, child)
        }
        Decided::Sides(body) => {
            let ok = compute_resolved_type_wire_size(image, starts, scope, rows, body, working);
            let worked = ok.worked;
            let Worked::Sized(size) = worked else {
                return ok;
            };
            let place = ok.next;
            let err = compute_resolved_type_wire_size(image, starts, scope, rows, place, working);
            settling::join_sides(size, err)
        }
    }
}

// A name. A slot that is being worked out is tested first, also before its row.
#[cycle(wire_size)]
fn named_type_wire_size(
    image: &[u8],
    starts: &[usize],
    scope: Scope,
    rows: &[u64],
    id: u64,
    working: &[bool; 512],
) -> Worked
    requires { Ready image.now starts.now (frame_of scope) rows.now working.now }
    ensures { Names scope.layout (schema_of scope.edition image.now) rows.now working.now id result }
{
    if id >= scope.slots {
        return Worked::Sized(Size::Open(0));
    }
    let slot = id as usize;
    if working[slot] {
        return Worked::Sized(Size::Open(0));
    }
    if let Row::Known(worked) = known_size(rows, slot) {
        return worked;
    }
    let Part::At(kind, _) = view::slot_part(image, starts, slot) else {
        return Worked::Sized(Size::Open(0));
    };
    let layout = scope.layout;
    match kind {
        1 => {
            let mut inside = *working;
            inside[slot] = true;
            let place = view::slot_inside(image, starts, slot);
            compute_message_wire_size(image, starts, scope, rows, place, &inside, layout)
        }
        4 => {
            let mut inside = *working;
            inside[slot] = true;
            let place = view::slot_inside(image, starts, slot);
            compute_union_wire_size(image, starts, scope, rows, place, &inside, layout)
        }
        5 => {
            let place = view::slot_inside(image, starts, slot);
            let term = compute_resolved_type_wire_size(image, starts, scope, rows, place, working);
            term.worked
        }
        _ => Worked::Sized(Size::Open(0)),
    }
}

// A field by itself: its type, unless what is known before names settles it.
#[cycle(wire_size)]
fn compute_type_wire_size(
    image: &[u8],
    starts: &[usize],
    scope: Scope,
    rows: &[u64],
    at: usize,
    working: &[bool; 512],
) -> Walked
    requires { Asked (field_at scope.edition scope.names) image.now starts.now (frame_of scope) rows.now working.now at }
    ensures { Walks (Meant scope.layout (schema_of scope.edition image.now) rows.now working.now) (field_at scope.edition scope.names) field_alone image.now at result }
{
    match settling::settle(image, at, scope) {
        Settled::Is(field) => field,
        Settled::Name(id, next) => {
            let worked = named_type_wire_size(image, starts, scope, rows, id, working);
            Walked { worked, next }
        }
        Settled::At(p) => plain_size(image, starts, scope, rows, p, working),
    }
}

// A field that neither Varint nor ZigZag governs, from its type on.
#[cycle(wire_size)]
fn plain_size(
    image: &[u8],
    starts: &[usize],
    scope: Scope,
    rows: &[u64],
    at: usize,
    working: &[bool; 512],
) -> Walked
    requires { Asked (plain_at scope.edition scope.names) image.now starts.now (frame_of scope) rows.now working.now at }
    ensures { Walks (Meant scope.layout (schema_of scope.edition image.now) rows.now working.now) (plain_at scope.edition scope.names) field_alone image.now at result }
{
    match settling::settle_plain(image, at, scope) {
        Plain::Is(field) => field,
        Plain::Type => {
            let field = compute_resolved_type_wire_size(image, starts, scope, rows, at, working);
            settling::pass_limit(image, field, scope)
        }
        Plain::Limited(elements) => { limited_size(image, starts, scope, rows, elements, working) }
    }
}

// The elements that a field's limit bears on: of a map's, the key first, then the value in every case.
#[cycle(wire_size)]
fn limited_size(
    image: &[u8],
    starts: &[usize],
    scope: Scope,
    rows: &[u64],
    elements: Limited,
    working: &[bool; 512],
) -> Walked
    requires { Asked (element_at scope.names elements.kind) image.now starts.now (frame_of scope) rows.now working.now elements.body }
    ensures { Counts (Meant scope.layout (schema_of scope.edition image.now) rows.now working.now) image.now scope.names elements result }
{
    let most = elements.most;
    let next = elements.next;
    let first = compute_resolved_type_wire_size(image, starts, scope, rows, elements.body, working);
    let worked = first.worked;
    if elements.kind != 8 {
        return Walked {
            worked: measures::limited_wire_size(worked, most),
            next,
        };
    }
    let Worked::Sized(key) = worked else {
        return Walked { worked, next };
    };
    let place = first.next;
    let value = compute_resolved_type_wire_size(image, starts, scope, rows, place, working);
    let second = value.worked;
    let entry = measures::entry_wire_size(key, second);
    Walked {
        worked: measures::limited_wire_size(entry, most),
        next,
    }
}

// The fields of so many variants, one behind the other; those of a message are those of one. The first total above the limit ends variants
// and fields together. The layout is handed in beside the scope: read from it here, it would have the scope taken apart for each field.
#[cycle(wire_size)]
fn variants_size(
    image: &[u8],
    starts: &[usize],
    scope: Scope,
    rows: &[u64],
    at: usize,
    working: &[bool; 512],
    layout: Layout,
    count: u64,
) -> Varied
    requires { Asked (many count (fields_at scope.edition scope.names)) image.now starts.now (frame_of scope) rows.now working.now at × (layout ≡ scope.layout) }
    ensures { Varies (Meant scope.layout (schema_of scope.edition image.now) rows.now working.now) scope.layout image.now scope.edition scope.names count at result }
{
    // The smallest starts above any that a variant can have.
    let mut extremes = Size::Bounded(18446744073709551615, 0);
    let mut last = Size::Fixed(0);
    let mut here = at;
    let mut over = false;
    let mut by = Operation::Sum;
    let mut left = count;
    'variants: while 0 < left {
        let Ranged::Value(fields, after) = number::read_below(image, here, 65537) else {
            return Varied::Over(Operation::Sum);
        };
        here = after;
        let mut total = total::empty_total();
        let mut more = fields;
        while 0 < more {
            let field = compute_type_wire_size(image, starts, scope, rows, here, working);
            let alone = field.worked;
            let worked = measures::lay(alone, layout);
            if let Step::Over(operation) = total::add_field(&mut total, worked) {
                over = true;
                by = operation;
                break 'variants;
            }
            here = field.next;
            more -= 1;
        }
        last = total::total_size(total);
        extremes = measures::widen(extremes, last);
        left -= 1;
    }
    if over {
        return Varied::Over(by);
    }
    Varied::Sized(extremes, last)
}

// A message, from the count of its fields on.
#[cycle(wire_size)]
fn compute_message_wire_size(
    image: &[u8],
    starts: &[usize],
    scope: Scope,
    rows: &[u64],
    at: usize,
    working: &[bool; 512],
    layout: Layout,
) -> Worked
    requires { Asked (fields_at scope.edition scope.names) image.now starts.now (frame_of scope) rows.now working.now at × (layout ≡ scope.layout) }
    ensures { WorksOut (Meant scope.layout (schema_of scope.edition image.now) rows.now working.now) (fields_at scope.edition scope.names) (fields_size scope.layout) image.now at result }
{
    match variants_size(image, starts, scope, rows, at, working, layout, 1) {
        Varied::Sized(_, last) => Worked::Sized(last),
        Varied::Over(by) => Worked::Over(by),
    }
}

// A union, from the count of its variants on.
#[cycle(wire_size)]
fn compute_union_wire_size(
    image: &[u8],
    starts: &[usize],
    scope: Scope,
    rows: &[u64],
    at: usize,
    working: &[bool; 512],
    layout: Layout,
) -> Worked
    requires { Asked (counted (fields_at scope.edition scope.names)) image.now starts.now (frame_of scope) rows.now working.now at × (layout ≡ scope.layout) }
    ensures { WorksOut (Meant scope.layout (schema_of scope.edition image.now) rows.now working.now) (counted (fields_at scope.edition scope.names)) (union_size scope.layout) image.now at result }
{
    let Ranged::Value(count, first) = number::read_below(image, at, 65537) else {
        return Worked::Over(Operation::Sum);
    };
    if count == 0 {
        return Worked::Sized(Size::Bounded(8, 8));
    }
    match variants_size(image, starts, scope, rows, first, working, layout, count) {
        Varied::Sized(extremes, _) => measures::tag(extremes),
        Varied::Over(by) => Worked::Over(by),
    }
}

fn turn_from(worked: Worked) -> Turned
    ensures { result ≡ turned_as worked }
{
    match worked {
        Worked::Sized(size) => Turned::Sized(size),
        Worked::Over(by) => Turned::Over(by),
    }
}

// A declared slot at its turn, itself being worked out.
pub fn own_size(image: &[u8], starts: &[usize], scope: Scope, rows: &[u64], slot: usize) -> Turned
    requires { Promise image.now starts.now (frame_of scope) × (slot < scope.slots) × (3 * scope.slots ≤ length rows.now) × Held (schema_of scope.edition image.now) rows.now }
    ensures { Owns scope.layout (schema_of scope.edition image.now) rows.now slot result }
{
    let Part::At(kind, _) = view::slot_part(image, starts, slot) else {
        return Turned::Other;
    };
    let layout = scope.layout;
    let mut own = [false; 512];
    own[slot] = true;
    match kind {
        1 => {
            let place = view::slot_inside(image, starts, slot);
            turn_from(compute_message_wire_size(image, starts, scope, rows, place, &own, layout))
        }
        4 => {
            let place = view::slot_inside(image, starts, slot);
            turn_from(compute_union_wire_size(image, starts, scope, rows, place, &own, layout))
        }
        _ => Turned::Other,
    }
}
