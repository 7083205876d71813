// Sizes of one slot, from the bytes of an accepted image and a table of answers: a name is looked up, never followed. How many nodes
// of types are met is counted.
#![tactic(auto)]

ghost use Rattle.std.specs.Prelude.{◌≡◌, ◌+◌, ◌*◌, ◌<◌, ◌≤◌, length};
ghost use Rattle.number.specs.Grammar.{many, counted};
ghost use Rattle.slot.specs.Field.{type_at, field_at, fields_at};
ghost use Rattle.reader.specs.Reading.{schema_of};
ghost use Rattle.reader.specs.Promise.{Promise};
ghost use Rattle.sizes.specs.Sizes.{type_size, field_alone, fields_size, union_size};
ghost use Rattle.sizes.specs.Nodes.{type_nodes, field_nodes, fields_nodes, variants_nodes};
ghost use Rattle.settling.specs.Steps.{frame_of, element_at, plain_at};
ghost use Rattle.rows.specs.Rows.{numbers};
ghost use Rattle.wiresize.specs.Asked.{Held};
ghost use Rattle.level.specs.Level.{answer_row, answer_at, names_in, Unknown, Asks, Levels, Few, Bounds, Tallies, visits_by, Fills, Answers, SlotWorked};

use number::Ranged;
use rows::Row;
use settling::{Decided, Limited, Plain, Scope, Settled, Walked};
use sizes::{Layout, Operation, Size, Worked};
use total::Step;
use tree::Sort;
use view::Part;
use wiresize::Row as Stored;

// A size that was worked out, the position after its type, and the nodes that were met.
#[derive(Clone, Copy)]
pub struct Leveled {
    pub worked: Worked,
    pub next: usize,
    pub visits: u64,
}

// What variants come to: their extremes, the size of the last one, and the nodes that were met.
#[derive(Clone, Copy)]
pub enum Tallied {
    Sized(Size, Size, u64),
    Over(Operation),
}

// A size that was worked out, and the nodes that were met: none above the limit.
#[derive(Clone, Copy)]
pub struct Filled {
    pub worked: Worked,
    pub visits: u64,
}

// The answer of a slot; one that is not known yet has no largest.
pub fn answer_at(answers: &[u64], slot: usize) -> Worked
    requires { 3 * slot + 3 ≤ length answers.now }
    ensures { result ≡ answer_at answers.now slot }
{
    let first = 3 * slot;
    let kind = answers[first];
    let a = answers[first + 1];
    let b = answers[first + 2];
    match kind {
        1 => Worked::Sized(Size::Fixed(a)),
        2 => Worked::Sized(Size::Bounded(a, b)),
        3 => Worked::Sized(Size::Open(a)),
        4 => Worked::Over(Operation::Sum),
        5 => Worked::Over(Operation::Product),
        _ => Worked::Sized(Size::Open(0)),
    }
}

// What a name comes to.
fn answer_of(answers: &[u64], slots: u64, id: u64) -> Worked
    requires { 3 * slots ≤ length answers.now }
    ensures { result ≡ names_in slots answers.now id }
{
    if id >= slots {
        return Worked::Sized(Size::Open(0));
    }
    answer_at(answers, id as usize)
}

// The row of an answer.
fn answer_row(worked: Worked) -> Row
    ensures { numbers result ≡ answer_row worked }
{
    match worked {
        Worked::Sized(size) => rows::size_row(size),
        Worked::Over(by) => match by {
            Operation::Sum => Row {
                kind: 4,
                a: 0,
                b: 0,
            },
            Operation::Product => Row {
                kind: 5,
                a: 0,
                b: 0,
            },
        },
    }
}

// A type. Its frame is kept small: types nest.
fn level_type(image: &[u8], scope: Scope, answers: &[u64], at: usize) -> Leveled
    requires { Asks (type_at scope.names) image.now scope.slots answers.now at }
    ensures { Levels (type_at scope.names) type_size type_nodes (names_in scope.slots answers.now) image.now at result × Few (type_at scope.names) image.now at result.visits }
{
    let names = scope.names;
    let head = tree::read_head(image, at, Sort::Resolved, names);
    match settling::head_wire_size(head) {
        Decided::Leaf(size, next) => Leveled {
            worked: Worked::Sized(size),
            next,
            visits: 1,
        },
        Decided::Pass(size) => {
            let passed = settling::pass_type(image, at, names, size);
            let worked = passed.worked;
            Leveled {
                worked,
                next: passed.next,
                visits: 1,
            }
        }
        Decided::Name(id, next) => {
            let worked = answer_of(answers, scope.slots, id);
            Leveled {
                worked,
                next,
                visits: 1,
            }
        }
        Decided::One(kind, body) => {
            let child = level_type(image, scope, answers, body);
            let inner = child.worked;
            let place = child.next;
            let around = settling::close_one(
                image,
                kind,
                Walked {
                    worked: inner,
                    next: place,
                },
            );
            let worked = around.worked;
            Leveled {
                worked,
                next: around.next,
                visits: child.visits + 1,
            }
        }
        Decided::Sides(body) => {
            let ok = level_type(image, scope, answers, body);
            let first = ok.worked;
            let Worked::Sized(size) = first else {
                return ok;
            };
            let place = ok.next;
            let err = level_type(image, scope, answers, place);
            let second = err.worked;
            let behind = err.next;
            let both = settling::join_sides(
                size,
                Walked {
                    worked: second,
                    next: behind,
                },
            );
            let worked = both.worked;
            Leveled {
                worked,
                next: both.next,
                visits: ok.visits + err.visits + 1,
            }
        }
    }
}

// The elements that a field's limit bears on: of a map's, the key first, then the value in every case. The field's own type is a node too.
fn level_limited(image: &[u8], scope: Scope, answers: &[u64], elements: Limited) -> Leveled
    requires { Asks (element_at scope.names elements.kind) image.now scope.slots answers.now elements.body }
    ensures { Bounds (names_in scope.slots answers.now) image.now scope.names elements result }
{
    let most = elements.most;
    let next = elements.next;
    let first = level_type(image, scope, answers, elements.body);
    let worked = first.worked;
    if elements.kind != 8 {
        return Leveled {
            worked: measures::limited_wire_size(worked, most),
            next,
            visits: 1 + first.visits,
        };
    }
    let Worked::Sized(key) = worked else {
        return Leveled {
            worked,
            next,
            visits: 0,
        };
    };
    let place = first.next;
    let value = level_type(image, scope, answers, place);
    let second = value.worked;
    let entry = measures::entry_wire_size(key, second);
    Leveled {
        worked: measures::limited_wire_size(entry, most),
        next,
        visits: 1 + first.visits + value.visits,
    }
}

// A field that neither Varint nor ZigZag governs, from its type on.
fn level_plain(image: &[u8], scope: Scope, answers: &[u64], at: usize) -> Leveled
    requires { Asks (plain_at scope.edition scope.names) image.now scope.slots answers.now at }
    ensures { Levels (plain_at scope.edition scope.names) field_alone field_nodes (names_in scope.slots answers.now) image.now at result }
{
    match settling::settle_plain(image, at, scope) {
        Plain::Is(field) => {
            let worked = field.worked;
            Leveled {
                worked,
                next: field.next,
                visits: 1,
            }
        }
        Plain::Type => {
            let field = level_type(image, scope, answers, at);
            let worked = field.worked;
            let place = field.next;
            let past = settling::pass_limit(
                image,
                Walked {
                    worked,
                    next: place,
                },
                scope,
            );
            Leveled {
                worked,
                next: past.next,
                visits: field.visits,
            }
        }
        Plain::Limited(elements) => level_limited(image, scope, answers, elements),
    }
}

// A field by itself: its type, unless what is known before names settles it.
fn level_field(image: &[u8], scope: Scope, answers: &[u64], at: usize) -> Leveled
    requires { Asks (field_at scope.edition scope.names) image.now scope.slots answers.now at }
    ensures { Levels (field_at scope.edition scope.names) field_alone field_nodes (names_in scope.slots answers.now) image.now at result }
{
    match settling::settle(image, at, scope) {
        Settled::Is(field) => {
            let worked = field.worked;
            // Whatever the types inside: Varint and ZigZag look at none.
            let alone: u64 = 1;
            Leveled {
                worked,
                next: field.next,
                visits: alone,
            }
        }
        Settled::Name(id, next) => {
            let worked = answer_of(answers, scope.slots, id);
            Leveled {
                worked,
                next,
                visits: 1,
            }
        }
        Settled::At(p) => level_plain(image, scope, answers, p),
    }
}

// The fields of so many variants, one behind the other; those of a message are those of one. The first total above the limit ends variants
// and fields together. The layout is handed in beside the scope: read from it here, it would have the scope taken apart for each field.
fn level_variants(
    image: &[u8],
    scope: Scope,
    answers: &[u64],
    at: usize,
    layout: Layout,
    count: u64,
) -> Tallied
    requires { Asks (many count (fields_at scope.edition scope.names)) image.now scope.slots answers.now at × (layout ≡ scope.layout) }
    ensures { Tallies (names_in scope.slots answers.now) scope.layout image.now scope.edition scope.names count at result }
{
    // The smallest starts above any that a variant can have.
    let mut extremes = Size::Bounded(18446744073709551615, 0);
    let mut last = Size::Fixed(0);
    let mut here = at;
    let mut over = false;
    let mut by = Operation::Sum;
    let mut visits: u64 = 0;
    let mut left = count;
    'variants: while 0 < left {
        let Ranged::Value(fields, after) = number::read_below(image, here, 65537) else {
            return Tallied::Over(Operation::Sum);
        };
        here = after;
        let mut total = total::empty_total();
        let mut more = fields;
        while 0 < more {
            let field = level_field(image, scope, answers, here);
            let alone = field.worked;
            let worked = measures::lay(alone, layout);
            if let Step::Over(operation) = total::add_field(&mut total, worked) {
                over = true;
                by = operation;
                break 'variants;
            }
            here = field.next;
            visits += field.visits;
            more -= 1;
        }
        last = total::total_size(total);
        extremes = measures::widen(extremes, last);
        left -= 1;
    }
    if over {
        return Tallied::Over(by);
    }
    Tallied::Sized(extremes, last, visits)
}

// A message, from the count of its fields on.
fn level_message(image: &[u8], scope: Scope, answers: &[u64], at: usize, layout: Layout) -> Filled
    requires { Asks (fields_at scope.edition scope.names) image.now scope.slots answers.now at × (layout ≡ scope.layout) }
    ensures { Fills (fields_at scope.edition scope.names) (fields_size scope.layout) fields_nodes (names_in scope.slots answers.now) image.now at result }
{
    match level_variants(image, scope, answers, at, layout, 1) {
        Tallied::Sized(_, last, visits) => Filled {
            worked: Worked::Sized(last),
            visits,
        },
        Tallied::Over(by) => Filled {
            worked: Worked::Over(by),
            visits: 0,
        },
    }
}

// Nodes count where there is a size.
fn visits_by(worked: Worked, visits: u64) -> u64
    ensures { result ≡ visits_by worked visits }
{
    match worked {
        Worked::Sized(_) => visits,
        Worked::Over(_) => 0,
    }
}

// A union, from the count of its variants on.
fn level_union(image: &[u8], scope: Scope, answers: &[u64], at: usize, layout: Layout) -> Filled
    requires { Asks (counted (fields_at scope.edition scope.names)) image.now scope.slots answers.now at × (layout ≡ scope.layout) }
    ensures { Fills (counted (fields_at scope.edition scope.names)) (union_size scope.layout) variants_nodes (names_in scope.slots answers.now) image.now at result }
{
    let Ranged::Value(count, first) = number::read_below(image, at, 65537) else {
        return Filled {
            worked: Worked::Over(Operation::Sum),
            visits: 0,
        };
    };
    if count == 0 {
        return Filled {
            worked: Worked::Sized(Size::Bounded(8, 8)),
            visits: 0,
        };
    }
    match level_variants(image, scope, answers, first, layout, count) {
        Tallied::Sized(extremes, _, visits) => {
            let worked = measures::tag(extremes);
            Filled {
                worked,
                visits: visits_by(worked, visits),
            }
        }
        Tallied::Over(by) => Filled {
            worked: Worked::Over(by),
            visits: 0,
        },
    }
}

// What a slot comes to: a message, a union or a newtype by the answers of its parts, any other by its row of the size table.
fn slot_answer(
    image: &[u8],
    starts: &[usize],
    scope: Scope,
    rows: &[u64],
    answers: &[u64],
    slot: usize,
) -> Filled
    requires { Promise image.now starts.now (frame_of scope) × (slot < scope.slots) × (3 * scope.slots ≤ length rows.now) × Held (schema_of scope.edition image.now) rows.now × (3 * scope.slots ≤ length answers.now) }
    ensures { Answers scope.layout (schema_of scope.edition image.now) (names_in scope.slots answers.now) slot result }
{
    let Part::At(kind, _) = view::slot_part(image, starts, slot) else {
        return Filled {
            worked: Worked::Sized(Size::Open(0)),
            visits: 0,
        };
    };
    let layout = scope.layout;
    match kind {
        1 => {
            let place = view::slot_inside(image, starts, slot);
            level_message(image, scope, answers, place, layout)
        }
        4 => {
            let place = view::slot_inside(image, starts, slot);
            level_union(image, scope, answers, place, layout)
        }
        5 => {
            let place = view::slot_inside(image, starts, slot);
            let term = level_type(image, scope, answers, place);
            let worked = term.worked;
            Filled {
                worked,
                visits: visits_by(worked, term.visits),
            }
        }
        _ => match wiresize::known_size(rows, slot) {
            Stored::Known(worked) => Filled { worked, visits: 0 },
            Stored::None => Filled {
                worked: Worked::Sized(Size::Open(0)),
                visits: 0,
            },
        },
    }
}

// A slot that is not known yet, once its parts are: its answer is written down, and the nodes that were met are told.
pub fn work_slot(
    image: &[u8],
    starts: &[usize],
    scope: Scope,
    rows: &[u64],
    answers: &mut [u64],
    slot: usize,
) -> u64
    requires { Promise image.now starts.now (frame_of scope) × (slot < scope.slots) × (3 * scope.slots ≤ length rows.now) × Held (schema_of scope.edition image.now) rows.now × (3 * scope.slots ≤ length answers.old) × Unknown answers.old slot }
    ensures { SlotWorked scope.layout (schema_of scope.edition image.now) scope.slots answers.old answers.new slot result }
{
    let filled = slot_answer(image, starts, scope, rows, answers, slot);
    let worked = filled.worked;
    rows::put_row(answers, slot, answer_row(worked));
    filled.visits
}
