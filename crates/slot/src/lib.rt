// Slots of the schema image. A cursor is the position that was reached, or the refusal that was met: each function takes
// one and gives the next.
#![tactic(auto)]

ghost use Rattle.std.specs.Prelude.{◌≡◌};
ghost use Rattle.number.specs.Grammar.{many, counted, read};
ghost use Rattle.number.specs.Answers.{next, follow};
ghost use Rattle.slot.specs.Field.{type_at, span_at, stored_at, limit_at, field_at, fields_at};
ghost use Rattle.slot.specs.Short.{short_of, short_at};
ghost use Rattle.slot.specs.Slot.{message_at, retired_at, ordinals_at, enum_at, flags_at, union_at, newtype_at, alias_at, trait_field_at, trait_at, trait_span_at, impl_at, slot_body_at, slot_at};

use number::{Next, Ranged};
use tree::Sort;

// Edition two has a limit behind each field of a message or variant, and retired ones behind each list of ordinals or bits.
#[derive(Clone, Copy)]
pub enum Edition {
    One,
    Two,
}

pub fn skip_span(image: &[u8], cursor: Next) -> Next
    ensures { result ≡ follow cursor (λ n. next (read span_at image.now n)) }
{
    let offset = number::skip(image, cursor, 4294967296);
    number::skip(image, offset, 4294967296)
}

fn read_stored(image: &[u8], at: usize) -> Next
    ensures { result ≡ next (read stored_at image.now at) }
{
    match number::read_below(image, at, 4) {
        Ranged::Value(kind, after) => match kind {
            0 => Next::At(after),
            1 => number::skip_below(image, after, 9223372036854775808),
            2 => number::skip_below(image, after, 9223372036854775808),
            3 => {
                let smallest = number::skip_below(image, after, 9223372036854775808);
                number::skip(image, smallest, 9223372036854775808)
            }
            _ => Next::Refused(4, after),
        },
        Ranged::Refused(r, q) => Next::Refused(r, q),
    }
}

pub fn skip_stored(image: &[u8], cursor: Next) -> Next
    ensures { result ≡ follow cursor (λ n. next (read stored_at image.now n)) }
{
    match cursor {
        Next::At(p) => read_stored(image, p),
        Next::Refused(r, q) => Next::Refused(r, q),
    }
}

// What stands between a field's type and the next field.
pub fn skip_limit(image: &[u8], cursor: Next, edition: Edition) -> Next
    ensures { result ≡ follow cursor (λ n. next (read (limit_at edition) image.now n)) }
{
    match edition {
        Edition::One => cursor,
        Edition::Two => number::skip(image, cursor, 4294967296),
    }
}

pub fn skip_field(image: &[u8], cursor: Next, edition: Edition, names: u64) -> Next
    ensures { result ≡ follow cursor (λ n. next (read (field_at edition names) image.now n)) }
{
    let name = number::skip(image, cursor, names);
    let encoding = tree::skip_encoding(image, name);
    let limited = tree::skip_tree(image, encoding, Sort::Resolved, names);
    skip_limit(image, limited, edition)
}

// A field of four bytes: its encoding, and the kind and the number of its type.
#[derive(Clone, Copy)]
pub enum Short {
    Is(u64, u64, u64),
    Other,
}

fn short_of(name: u64, encoding: u64, kind: u64, number: u64, names: u64) -> Short
    ensures { result ≡ short_of name encoding kind number names }
{
    if name < 128 {
        if name < names {
            if encoding < 3 {
                if number < tree::short_limit(kind) {
                    return Short::Is(encoding, kind, number);
                }
            }
        }
    }
    Short::Other
}

// The field at a position, if it has four bytes and no parts: most fields are such.
pub fn short_field(image: &[u8], at: usize, names: u64) -> Short
    ensures { result ≡ short_at names image.now at }
{
    if image.len() < 4 {
        return Short::Other;
    }
    if image.len() - 4 < at {
        return Short::Other;
    }
    let name = number::wide(image[at]);
    let encoding = number::wide(image[at + 1]);
    let kind = number::wide(image[at + 2]);
    let number = number::wide(image[at + 3]);
    short_of(name, encoding, kind, number, names)
}

// The position after a field.
fn next_field(image: &[u8], at: usize, edition: Edition, names: u64) -> Next
    ensures { result ≡ next (read (field_at edition names) image.now at) }
{
    match short_field(image, at, names) {
        Short::Is(_, _, _) => skip_limit(image, Next::At(at + 4), edition),
        Short::Other => skip_field(image, Next::At(at), edition, names),
    }
}

fn read_fields(image: &[u8], at: usize, edition: Edition, count: u64, names: u64) -> Next
    ensures { result ≡ next (read (many count (field_at edition names)) image.now at) }
{
    let mut left = count;
    let mut p = at;
    while 0 < left {
        match next_field(image, p, edition, names) {
            Next::At(after) => {
                p = after;
                left -= 1;
            }
            Next::Refused(r, q) => {
                return Next::Refused(r, q);
            }
        }
    }
    Next::At(p)
}

pub fn skip_fields(image: &[u8], cursor: Next, edition: Edition, names: u64) -> Next
    ensures { result ≡ follow cursor (λ n. next (read (fields_at edition names) image.now n)) }
{
    match cursor {
        Next::At(p) => match number::read_below(image, p, 65537) {
            Ranged::Value(count, after) => read_fields(image, after, edition, count, names),
            Ranged::Refused(r, q) => Next::Refused(r, q),
        },
        Next::Refused(r, q) => Next::Refused(r, q),
    }
}

fn skip_message(image: &[u8], cursor: Next, edition: Edition, names: u64) -> Next
    ensures { result ≡ follow cursor (λ n. next (read (message_at edition names) image.now n)) }
{
    let span = skip_span(image, cursor);
    let stored = skip_stored(image, span);
    skip_fields(image, stored, edition, names)
}

fn skip_retired(image: &[u8], live: Next, edition: Edition) -> Next
    ensures { result ≡ follow live (λ n. next (read (retired_at edition) image.now n)) }
{
    match edition {
        Edition::One => live,
        Edition::Two => number::skip_counted(image, live, 4294967296),
    }
}

// One place reads the ordinals of an enum and the bits of a flags type.
fn skip_ordinals(image: &[u8], cursor: Next, edition: Edition) -> Next
    ensures { result ≡ follow cursor (λ n. next (read (ordinals_at edition) image.now n)) }
{
    let live = number::skip_counted(image, cursor, 4294967296);
    skip_retired(image, live, edition)
}

fn skip_enum(image: &[u8], cursor: Next, edition: Edition) -> Next
    ensures { result ≡ follow cursor (λ n. next (read (enum_at edition) image.now n)) }
{
    let backing = number::skip(image, cursor, 5);
    let non_exhaustive = number::skip(image, backing, 2);
    let stored_bits = number::skip(image, non_exhaustive, 256);
    skip_ordinals(image, stored_bits, edition)
}

fn skip_flags(image: &[u8], cursor: Next, edition: Edition) -> Next
    ensures { result ≡ follow cursor (λ n. next (read (flags_at edition) image.now n)) }
{
    let stored_bytes = number::skip(image, cursor, 256);
    skip_ordinals(image, stored_bytes, edition)
}

fn read_variants(image: &[u8], at: usize, edition: Edition, count: u64, names: u64) -> Next
    ensures { result ≡ next (read (many count (fields_at edition names)) image.now at) }
{
    let mut left = count;
    let mut p = at;
    while 0 < left {
        match skip_fields(image, Next::At(p), edition, names) {
            Next::At(after) => {
                p = after;
                left -= 1;
            }
            Next::Refused(r, q) => {
                return Next::Refused(r, q);
            }
        }
    }
    Next::At(p)
}

fn skip_variants(image: &[u8], cursor: Next, edition: Edition, names: u64) -> Next
    ensures { result ≡ follow cursor (λ n. next (read (counted (fields_at edition names)) image.now n)) }
{
    match cursor {
        Next::At(p) => match number::read_below(image, p, 65537) {
            Ranged::Value(count, after) => read_variants(image, after, edition, count, names),
            Ranged::Refused(r, q) => Next::Refused(r, q),
        },
        Next::Refused(r, q) => Next::Refused(r, q),
    }
}

fn skip_union(image: &[u8], cursor: Next, edition: Edition, names: u64) -> Next
    ensures { result ≡ follow cursor (λ n. next (read (union_at edition names) image.now n)) }
{
    let stored = skip_stored(image, cursor);
    skip_variants(image, stored, edition, names)
}

fn skip_newtype(image: &[u8], cursor: Next, names: u64) -> Next
    ensures { result ≡ follow cursor (λ n. next (read (newtype_at names) image.now n)) }
{
    let inner = tree::skip_tree(image, cursor, Sort::Resolved, names);
    tree::skip_tree(image, inner, Sort::Resolved, names)
}

fn skip_alias(image: &[u8], cursor: Next, names: u64) -> Next
    ensures { result ≡ follow cursor (λ n. next (read (alias_at names) image.now n)) }
{
    let parameters = number::skip_counted(image, cursor, names);
    tree::skip_tree(image, parameters, Sort::Expression, names)
}

pub fn skip_trait_field(image: &[u8], cursor: Next, names: u64) -> Next
    ensures { result ≡ follow cursor (λ n. next (read (trait_field_at names) image.now n)) }
{
    let name = number::skip(image, cursor, names);
    tree::skip_tree(image, name, Sort::Expression, names)
}

fn read_trait_fields(image: &[u8], at: usize, count: u64, names: u64) -> Next
    ensures { result ≡ next (read (many count (trait_field_at names)) image.now at) }
{
    let mut left = count;
    let mut p = at;
    while 0 < left {
        match skip_trait_field(image, Next::At(p), names) {
            Next::At(after) => {
                p = after;
                left -= 1;
            }
            Next::Refused(r, q) => {
                return Next::Refused(r, q);
            }
        }
    }
    Next::At(p)
}

fn skip_trait_fields(image: &[u8], cursor: Next, names: u64) -> Next
    ensures { result ≡ follow cursor (λ n. next (read (counted (trait_field_at names)) image.now n)) }
{
    match cursor {
        Next::At(p) => match number::read_below(image, p, 65537) {
            Ranged::Value(count, after) => read_trait_fields(image, after, count, names),
            Ranged::Refused(r, q) => Next::Refused(r, q),
        },
        Next::Refused(r, q) => Next::Refused(r, q),
    }
}

fn skip_trait(image: &[u8], cursor: Next, names: u64) -> Next
    ensures { result ≡ follow cursor (λ n. next (read (trait_at names) image.now n)) }
{
    let parameters = number::skip_counted(image, cursor, names);
    skip_trait_fields(image, parameters, names)
}

fn skip_trait_span(image: &[u8], cursor: Next) -> Next
    ensures { result ≡ follow cursor (λ n. next (read trait_span_at image.now n)) }
{
    match cursor {
        Next::At(p) => match number::read_below(image, p, 2) {
            Ranged::Value(given, after) => {
                if given == 0 {
                    Next::At(after)
                } else {
                    skip_span(image, Next::At(after))
                }
            }
            Ranged::Refused(r, q) => Next::Refused(r, q),
        },
        Next::Refused(r, q) => Next::Refused(r, q),
    }
}

pub fn read_types(image: &[u8], at: usize, count: u64, names: u64) -> Next
    ensures { result ≡ next (read (many count (type_at names)) image.now at) }
{
    let mut left = count;
    let mut p = at;
    while 0 < left {
        match tree::read_tree(image, p, 32, Sort::Resolved, names) {
            Next::At(after) => {
                p = after;
                left -= 1;
            }
            Next::Refused(r, q) => {
                return Next::Refused(r, q);
            }
        }
    }
    Next::At(p)
}

fn skip_types(image: &[u8], cursor: Next, names: u64) -> Next
    ensures { result ≡ follow cursor (λ n. next (read (counted (type_at names)) image.now n)) }
{
    match cursor {
        Next::At(p) => match number::read_below(image, p, 65537) {
            Ranged::Value(count, after) => read_types(image, after, count, names),
            Ranged::Refused(r, q) => Next::Refused(r, q),
        },
        Next::Refused(r, q) => Next::Refused(r, q),
    }
}

fn skip_impl(image: &[u8], cursor: Next, names: u64) -> Next
    ensures { result ≡ follow cursor (λ n. next (read (impl_at names) image.now n)) }
{
    let span = skip_span(image, cursor);
    let trait_id = number::skip(image, span, 4294967296);
    let trait_span = skip_trait_span(image, trait_id);
    let arguments = skip_types(image, trait_span, names);
    tree::skip_tree(image, arguments, Sort::Resolved, names)
}

// What a slot of a kind holds.
fn read_slot_body(image: &[u8], at: usize, edition: Edition, kind: u64, names: u64) -> Next
    ensures { result ≡ next (read (slot_body_at edition names kind) image.now at) }
{
    let body = Next::At(at);
    match kind {
        0 | 6 => body,
        1 => skip_message(image, body, edition, names),
        2 => skip_enum(image, body, edition),
        3 => skip_flags(image, body, edition),
        4 => skip_union(image, body, edition, names),
        5 => skip_newtype(image, body, names),
        7 => skip_alias(image, body, names),
        8 => skip_trait(image, body, names),
        9 => skip_impl(image, body, names),
        _ => Next::Refused(4, at),
    }
}

pub fn read_slot(image: &[u8], at: usize, edition: Edition, names: u64) -> Next
    ensures { result ≡ next (read (slot_at edition names) image.now at) }
{
    match number::read_below(image, at, 10) {
        Ranged::Value(kind, body) => read_slot_body(image, body, edition, kind, names),
        Ranged::Refused(r, q) => Next::Refused(r, q),
    }
}
