// Widths of enums and flags, and the rows of the size table as they stand before any size is worked out.
#![tactic(auto)]

ghost use Rattle.std.specs.Prelude.{◌≡◌, List, true, cond, ℕ, ◌+◌, ◌*◌, ◌≤◌, ◌^◌, max, length, set};
ghost use Rattle.std.proofs.Math.Option.{some};
ghost use Rattle.std.proofs.lemmas.List.Edits.{sets};
ghost use Rattle.number.specs.Grammar.{slot, value, number, many, counted, done, read};
ghost use Rattle.slot.specs.Field.{Span, span_at, Stored, stored_at};
ghost use Rattle.slot.specs.Slot.{Ordinals, ordinals_at, Enum, enum_at, Flags, flags_at};
ghost use Rattle.reader.specs.Reading.{schema_of};
ghost use Rattle.reader.specs.Promise.{Promise};
ghost use Rattle.sizes.specs.Widths.{top_of, least_bits, enum_bits, bytes_to, flags_bytes};
ghost use Rattle.sizes.specs.Check.{row, size_in, is_there, size_row, brought, stored_slot, table_of};
ghost use Rattle.rows.specs.Rows.{numbers, Takes, Tops, Marked, RowIs, BringsIs, Known, Ready};

use graph::Lowest;
use image::Frame;
use number::Number;
use sizes::Size;
use slot::Edition;
use view::Part;

// A number of an accepted image, and the position after it. Such an image has a number wherever one is taken.
fn take(image: &[u8], at: usize) -> (u64, usize)
    ensures { Takes image.now at result.0 result.1 }
{
    match number::read_number(image, at) {
        Number::Value(value, next) => (value, next),
        Number::Refused(_) => (0, at),
    }
}

// The highest of a run of numbers and a start value, and the position after the run.
fn highest_of(image: &[u8], at: usize, count: u64, start: u64) -> (u64, usize)
    ensures { Tops (many count (number value (2 ^ 32))) image.now at start result.0 result.1 }
{
    let mut here = at;
    let mut top = start;
    for _ in 0..count {
        let (ordinal, next) = take(image, here);
        top = top.max(ordinal);
        here = next;
    }
    (top, here)
}

// The same of a list with its count.
fn highest_counted(image: &[u8], at: usize, start: u64) -> (u64, usize)
    ensures { Tops (counted (number value (2 ^ 32))) image.now at start result.0 result.1 }
{
    let (count, first) = take(image, at);
    highest_of(image, first, count, start)
}

// One place takes the highest ordinal of an enum and the highest bit of a flags type, live or retired.
fn highest_ordinal(image: &[u8], at: usize, edition: Edition) -> u64
    ensures { (os : Ordinals) (n : ℕ) → read (ordinals_at edition) image.now at ≡ done os n → result ≡ top_of os }
{
    let (live, retired) = highest_counted(image, at, 0);
    match edition {
        Edition::One => live,
        Edition::Two => highest_counted(image, retired, live).0,
    }
}

fn least_bits(non_exhaustive: u64) -> u64
    ensures { result ≡ least_bits non_exhaustive }
{
    match non_exhaustive {
        0 => 1,
        _ => 8,
    }
}

// The bits of an enum, by its backing and its highest ordinal. There is no backing past the fourth.
fn compute_enum_wire_bits(backing: u64, non_exhaustive: u64, top: u64) -> u64
    ensures { (e : Enum) → e.backing ≡ backing → e.non_exhaustive ≡ non_exhaustive → top_of e.ordinals ≡ top → result ≡ enum_bits e }
{
    match backing {
        0 => least_bits(non_exhaustive).max(u64::from(64 - top.leading_zeros())),
        1 => 8,
        2 => 16,
        3 => 32,
        4 => 64,
        _ => 0,
    }
}

// The bytes of a flags type, by its highest bit.
fn compute_flags_wire_bytes(top: u64) -> u64
    ensures { result ≡ bytes_to top }
{
    match top {
        0..=7 => 1,
        8..=15 => 2,
        16..=31 => 4,
        _ => 8,
    }
}

// An undeclared enum keeps the width that is stored.
fn enum_bits(image: &[u8], at: usize, edition: Edition, declared: bool) -> u64
    ensures { (e : Enum) (n : ℕ) → read (enum_at edition) image.now at ≡ done e n → result ≡ cond declared (enum_bits e) e.stored_bits }
{
    let (backing, at) = take(image, at);
    let (non_exhaustive, at) = take(image, at);
    let (stored, ordinals) = take(image, at);
    if declared {
        let top = highest_ordinal(image, ordinals, edition);
        compute_enum_wire_bits(backing, non_exhaustive, top)
    } else {
        stored
    }
}

// So does a flags type.
fn flags_bytes(image: &[u8], at: usize, edition: Edition, declared: bool) -> u64
    ensures { (f : Flags) (n : ℕ) → read (flags_at edition) image.now at ≡ done f n → result ≡ cond declared (flags_bytes f) f.stored_bytes }
{
    let (stored, ordinals) = take(image, at);
    if declared {
        compute_flags_wire_bytes(highest_ordinal(image, ordinals, edition))
    } else {
        stored
    }
}

// Three numbers of the size table.
#[derive(Clone, Copy)]
pub struct Row {
    pub kind: u64,
    pub a: u64,
    pub b: u64,
}

// The row of a size.
pub fn size_row(size: Size) -> Row
    ensures { numbers result ≡ size_row (some size) }
{
    match size {
        Size::Fixed(bits) => Row {
            kind: 1,
            a: bits,
            b: bits,
        },
        Size::Bounded(smallest, largest) => Row {
            kind: 2,
            a: smallest,
            b: largest,
        },
        Size::Open(smallest) => Row {
            kind: 3,
            a: smallest,
            b: 0,
        },
    }
}

fn blank_row() -> Row
    ensures { numbers result ≡ row 0 0 0 }
{
    Row {
        kind: 0,
        a: 0,
        b: 0,
    }
}

// The row of a size that the image brings.
fn stored_row(image: &[u8], at: usize) -> Row
    ensures { (z : Stored) (n : ℕ) → read stored_at image.now at ≡ done z n → numbers result ≡ size_row (size_in z) }
{
    let (kind, at) = take(image, at);
    match kind {
        1 => {
            let (bits, _) = take(image, at);
            size_row(Size::Fixed(bits))
        }
        2 => {
            let (smallest, _) = take(image, at);
            size_row(Size::Open(smallest))
        }
        3 => {
            let (smallest, at) = take(image, at);
            let (largest, _) = take(image, at);
            size_row(Size::Bounded(smallest, largest))
        }
        _ => blank_row(),
    }
}

// Is there a size that the image brings?
fn is_stored(image: &[u8], at: usize) -> bool
    ensures { (z : Stored) (n : ℕ) → read stored_at image.now at ≡ done z n → result ≡ is_there (size_in z) }
{
    let (kind, _) = take(image, at);
    kind != 0
}

// The position after a span.
fn after_span(image: &[u8], at: usize) -> usize
    ensures { (x : Span) (n : ℕ) → read span_at image.now at ≡ done x n → result ≡ n }
{
    let (_, at) = take(image, at);
    let (_, at) = take(image, at);
    at
}

// The row of slot i.
fn slot_row(image: &[u8], starts: &[usize], edition: Edition, i: usize, declared: bool) -> Row
    ensures { RowIs image.now starts.now edition i declared result }
{
    match view::slot_part(image, starts, i) {
        Part::At(kind, body) => match kind {
            1 => stored_row(image, after_span(image, body)),
            2 => Row {
                kind: 4,
                a: enum_bits(image, body, edition, declared),
                b: 0,
            },
            3 => Row {
                kind: 5,
                a: flags_bytes(image, body, edition, declared),
                b: 0,
            },
            4 => stored_row(image, body),
            _ => blank_row(),
        },
        Part::Missing => blank_row(),
    }
}

// Does slot i bring a size?
fn brings_size(image: &[u8], starts: &[usize], i: usize) -> bool
    ensures { BringsIs image.now starts.now i result }
{
    match view::slot_part(image, starts, i) {
        Part::At(kind, body) => match kind {
            1 => is_stored(image, after_span(image, body)),
            4 => is_stored(image, body),
            _ => false,
        },
        Part::Missing => false,
    }
}

// The lowest slot that brings a size.
pub fn lowest_stored(image: &[u8], starts: &[usize], frame: Frame) -> Lowest
    requires { Promise image.now starts.now frame }
    ensures { result ≡ stored_slot (schema_of frame.edition image.now) }
{
    for i in 0..frame.slots as usize {
        if brings_size(image, starts, i) {
            return Lowest::At(i);
        }
    }
    Lowest::Nowhere
}

// A slot past the table's end is left out. By index: `get_mut` of a slice says nothing of what is written through it.
fn mark(marks: &mut [bool], slot: u64)
    ensures { marks.new ≡ set marks.old slot true }
{
    if slot < marks.len() as u64 {
        marks[slot as usize] = true;
    }
}

// Marks the slots of the declaration list.
fn mark_declared(image: &[u8], at: usize, count: u64, marks: &mut [bool])
    ensures { (ds : List ℕ) (n : ℕ) → read (many count (number slot (2 ^ 32))) image.now at ≡ done ds n → Marked marks.old ds marks.new }
{
    let mut here = at;
    for _ in 0..count {
        let (slot, next) = take(image, here);
        mark(marks, slot);
        here = next;
    }
}

// Writes the row of a slot.
pub fn put_row(rows: &mut [u64], slot: usize, row: Row)
    requires { 3 * slot + 3 ≤ length rows.old }
    ensures { rows.new ≡ sets rows.old (3 * slot) (numbers row) }
{
    let at = 3 * slot;
    rows[at] = row.kind;
    rows[at + 1] = row.a;
    rows[at + 2] = row.b;
}

// The row of each slot.
fn put_rows(image: &[u8], starts: &[usize], frame: Frame, declared: &[bool], rows: &mut [u64])
    requires { Known image.now starts.now frame declared.now rows.old }
    ensures { rows.new ≡ sets rows.old 0 (table_of (schema_of frame.edition image.now) (brought (schema_of frame.edition image.now))) }
{
    for i in 0..frame.slots as usize {
        let row = slot_row(image, starts, frame.edition, i, declared[i]);
        put_row(rows, i, row);
    }
}

// The rows as they stand before any size is worked out: what the image brings, and the widths.
pub fn fill_rows(image: &[u8], starts: &[usize], frame: Frame, rows: &mut [u64])
    requires { Ready image.now starts.now frame rows.old }
    ensures { rows.new ≡ sets rows.old 0 (table_of (schema_of frame.edition image.now) (brought (schema_of frame.edition image.now))) }
{
    let mut declared = [false; 512];
    mark_declared(image, frame.declared, frame.declarations, &mut declared);
    put_rows(image, starts, frame, &declared, rows);
}
