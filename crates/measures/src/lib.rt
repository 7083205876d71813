// Sizes made of sizes, by value. A number that passes the limit 2^63 - 1 is cut to 2^63, which passes it as well.
#![tactic(auto)]

ghost use Rattle.std.specs.Prelude.{◌≡◌, ◌+◌, ◌*◌, ◌^◌, min, max};
ghost use Rattle.tree.specs.Tree.{leaf};
ghost use Rattle.sizes.specs.Elements.{count_of};
ghost use Rattle.sizes.specs.Sizes.{smallest, largest, variable, both, limited, limited_sum, limited_product, then, to_bytes, rounded, laid, Resolver, leaf_size, wrap_size, primitive_bits, semantic_bits, fixed_or_open, optional_size, multiplied, without_largest, widened, raised, added, varint_end, zig_zag_end, entry_size, up_to};
ghost use Rattle.number.specs.Shortest.{groups_of};
ghost use Rattle.measures.specs.Cut.{cut_sum, high_of};
ghost use Rattle.measures.specs.Heads.{leaf_of, wrap_of};

use sizes::{Layout, Operation, Size, Worked};

// A largest, if there is one.
#[derive(Clone, Copy)]
pub enum Bound {
    Most(u64),
    None,
}

// The sum, cut.
fn sum(x: u64, y: u64) -> u64
    ensures { result ≡ min (x + y) (2 ^ 63) }
{
    if x > 9223372036854775807 {
        9223372036854775808
    } else if y > 9223372036854775807 - x {
        9223372036854775808
    } else {
        x + y
    }
}

// The product, cut.
fn product(x: u64, count: u64) -> u64
    ensures { result ≡ min (x * count) (2 ^ 63) }
{
    if count == 0 {
        0
    } else if x > 9223372036854775807 / count {
        9223372036854775808
    } else {
        x * count
    }
}

// The next multiple of 8, cut.
fn round_up(x: u64) -> u64
    ensures { result ≡ min (to_bytes x) (2 ^ 63) }
{
    if x > 9223372036854775807 {
        9223372036854775808
    } else {
        (x + 7) / 8 * 8
    }
}

fn lesser(x: u64, y: u64) -> u64
    ensures { result ≡ min x y }
{
    if x <= y { x } else { y }
}

fn greater(x: u64, y: u64) -> u64
    ensures { result ≡ max x y }
{
    if x <= y { y } else { x }
}

pub fn wire_size_min_bits(size: Size) -> u64
    ensures { result ≡ smallest size }
{
    match size {
        Size::Fixed(b) => b,
        Size::Bounded(l, _) => l,
        Size::Open(l) => l,
    }
}

pub fn wire_size_max_bits(size: Size) -> Bound
    ensures { high_of result ≡ largest size }
{
    match size {
        Size::Fixed(b) => Bound::Most(b),
        Size::Bounded(_, h) => Bound::Most(h),
        Size::Open(_) => Bound::None,
    }
}

// A size that is not Fixed.
pub fn vary(low: u64, high: Bound) -> Size
    ensures { result ≡ variable low (high_of high) }
{
    match high {
        Bound::Most(h) => Size::Bounded(low, h),
        Bound::None => Size::Open(low),
    }
}

// The sum of two largest, if both exist.
pub fn sum_bounds(a: Bound, b: Bound) -> Bound
    ensures { high_of result ≡ both cut_sum (high_of a) (high_of b) }
{
    match a {
        Bound::Most(x) => match b {
            Bound::Most(y) => Bound::Most(sum(x, y)),
            Bound::None => Bound::None,
        },
        Bound::None => Bound::None,
    }
}

// The greater of two largest, if both exist.
fn greater_bound(a: Bound, b: Bound) -> Bound
    ensures { high_of result ≡ both max (high_of a) (high_of b) }
{
    match a {
        Bound::Most(x) => match b {
            Bound::Most(y) => Bound::Most(greater(x, y)),
            Bound::None => Bound::None,
        },
        Bound::None => Bound::None,
    }
}

// The size that an operation made, unless a number of it passes the limit.
fn within_limit(by: Operation, size: Size) -> Worked
    ensures { result ≡ limited by size }
{
    match size {
        Size::Fixed(b) => {
            if b > 9223372036854775807 {
                Worked::Over(by)
            } else {
                Worked::Sized(size)
            }
        }
        Size::Bounded(l, h) => {
            if l > 9223372036854775807 {
                Worked::Over(by)
            } else if h > 9223372036854775807 {
                Worked::Over(by)
            } else {
                Worked::Sized(size)
            }
        }
        Size::Open(l) => {
            if l > 9223372036854775807 {
                Worked::Over(by)
            } else {
                Worked::Sized(size)
            }
        }
    }
}

pub fn primitive_wire_size(p: u64) -> Size
    ensures { result ≡ Size.Fixed (primitive_bits p) }
{
    match p {
        0 => Size::Fixed(1),
        1 => Size::Fixed(8),
        2 => Size::Fixed(16),
        3 => Size::Fixed(32),
        4 => Size::Fixed(64),
        5 => Size::Fixed(8),
        6 => Size::Fixed(16),
        7 => Size::Fixed(32),
        8 => Size::Fixed(64),
        9 => Size::Fixed(32),
        10 => Size::Fixed(64),
        11 => Size::Fixed(32),
        12 => Size::Fixed(64),
        _ => Size::Fixed(0),
    }
}

pub fn semantic_wire_size(m: u64) -> Size
    ensures { result ≡ fixed_or_open (semantic_bits m) }
{
    match m {
        2 => Size::Fixed(24),
        3 => Size::Fixed(128),
        4 => Size::Fixed(64),
        5 => Size::Fixed(256),
        _ => Size::Open(0),
    }
}

// A type without children, names aside, by its kind and its number.
pub fn leaf_wire_size(kind: u64, number: u64) -> Size
    requires { kind ≡ 3 → ⊥ }
    ensures { (names : Resolver) → Worked.Sized result ≡ leaf_size names (leaf_of kind number) }
{
    match kind {
        0 => primitive_wire_size(number),
        1 => Size::Fixed(number),
        2 => semantic_wire_size(number),
        16 => Size::Fixed(number),
        _ => Size::Open(0),
    }
}

// Varint, by the kind and the number of a type's head.
pub fn varint_wire_size(kind: u64, number: u64) -> Size
    ensures { result ≡ Size.Bounded 8 (varint_end (leaf (leaf_of kind number))) }
{
    match kind {
        0 => match number {
            2 => Size::Bounded(8, 24),
            3 => Size::Bounded(8, 40),
            _ => Size::Bounded(8, 80),
        },
        _ => Size::Bounded(8, 80),
    }
}

// ZigZag likewise.
pub fn zigzag_wire_size(kind: u64, number: u64) -> Size
    ensures { result ≡ Size.Bounded 8 (zig_zag_end (leaf (leaf_of kind number))) }
{
    match kind {
        0 => match number {
            6 => Size::Bounded(8, 24),
            7 => Size::Bounded(8, 40),
            _ => Size::Bounded(8, 80),
        },
        _ => Size::Bounded(8, 80),
    }
}

pub fn multiply_wire_size(size: Size, count: u64) -> Worked
    ensures { result ≡ limited_product (multiplied count size) }
{
    match size {
        Size::Fixed(b) => within_limit(Operation::Product, Size::Fixed(product(b, count))),
        Size::Bounded(l, h) => within_limit(
            Operation::Product,
            Size::Bounded(product(l, count), product(h, count)),
        ),
        Size::Open(l) => within_limit(Operation::Product, Size::Open(product(l, count))),
    }
}

// A kind with one child.
pub fn wrap_wire_size(kind: u64, child: Size) -> Worked
    ensures { result ≡ wrap_size (count_of (wrap_of kind)) (Worked.Sized child) }
{
    match kind {
        4 => optional_wire_size(child),
        10 => multiply_wire_size(child, 2),
        11 => multiply_wire_size(child, 3),
        12 => multiply_wire_size(child, 4),
        13 => multiply_wire_size(child, 4),
        14 => multiply_wire_size(child, 9),
        15 => multiply_wire_size(child, 16),
        _ => Worked::Sized(Size::Open(8)),
    }
}

// A Fixed size as it is, another from its smallest.
fn drop_largest(size: Size) -> Size
    ensures { result ≡ without_largest size }
{
    match size {
        Size::Fixed(b) => Size::Fixed(b),
        Size::Bounded(l, _) => Size::Open(l),
        Size::Open(l) => Size::Open(l),
    }
}

pub fn fixed_array_wire_size(size: Size, count: u64) -> Worked
    ensures { result ≡ limited_product (multiplied count (without_largest size)) }
{
    multiply_wire_size(drop_largest(size), count)
}

pub fn optional_wire_size(size: Size) -> Worked
    ensures { result ≡ limited_sum (optional_size size) }
{
    let optional = vary(1, sum_bounds(Bound::Most(1), wire_size_max_bits(size)));
    within_limit(Operation::Sum, optional)
}

// The lesser smallest up to the greater largest, if both exist.
pub fn widen(a: Size, b: Size) -> Size
    ensures { result ≡ widened a b }
{
    vary(
        lesser(wire_size_min_bits(a), wire_size_min_bits(b)),
        greater_bound(wire_size_max_bits(a), wire_size_max_bits(b)),
    )
}

// The sum of two sizes, not Fixed.
fn add_varying(a: Size, b: Size) -> Worked
    ensures { result ≡ limited_sum (variable (smallest a + smallest b) (both ◌+◌ (largest a) (largest b))) }
{
    let varying = vary(
        sum(wire_size_min_bits(a), wire_size_min_bits(b)),
        sum_bounds(wire_size_max_bits(a), wire_size_max_bits(b)),
    );
    within_limit(Operation::Sum, varying)
}

// A running total with one field more: Fixed if both are.
pub fn add_wire_size(total: Size, field: Size) -> Worked
    ensures { result ≡ limited_sum (added total field) }
{
    match total {
        Size::Fixed(x) => match field {
            Size::Fixed(y) => within_limit(Operation::Sum, Size::Fixed(sum(x, y))),
            Size::Bounded(_, _) => add_varying(total, field),
            Size::Open(_) => add_varying(total, field),
        },
        Size::Bounded(_, _) => add_varying(total, field),
        Size::Open(_) => add_varying(total, field),
    }
}

// So many bits more.
fn raise(bits: u64, size: Size) -> Worked
    ensures { result ≡ limited_sum (raised bits size) }
{
    add_varying(Size::Fixed(bits), size)
}

pub fn result_wire_size(ok: Size, err: Size) -> Worked
    ensures { result ≡ limited_sum (raised 1 (widened ok err)) }
{
    raise(1, widen(ok, err))
}

// A union's size, from the extremes over its variants.
pub fn tag(extremes: Size) -> Worked
    ensures { result ≡ limited_sum (raised 8 extremes) }
{
    raise(8, extremes)
}

// Both ends on whole bytes. It counts as a sum.
fn round_wire_size(size: Size) -> Worked
    ensures { result ≡ limited_sum (rounded to_bytes size) }
{
    match size {
        Size::Fixed(b) => within_limit(Operation::Sum, Size::Fixed(round_up(b))),
        Size::Bounded(l, h) => {
            let low = round_up(l);
            let high = round_up(h);
            within_limit(Operation::Sum, Size::Bounded(low, high))
        }
        Size::Open(l) => within_limit(Operation::Sum, Size::Open(round_up(l))),
    }
}

// A field as its layout adds it.
pub fn lay(field: Worked, layout: Layout) -> Worked
    ensures { result ≡ then field (laid layout) }
{
    match field {
        Worked::Sized(size) => match layout {
            Layout::Packed => Worked::Sized(size),
            Layout::Aligned => round_wire_size(size),
        },
        Worked::Over(by) => Worked::Over(by),
    }
}

// A map's key and value: only their largest count.
fn entry_of_sizes(key: Size, value: Size) -> Worked
    ensures { result ≡ limited_sum (entry_size key value) }
{
    let entry = vary(
        0,
        sum_bounds(wire_size_max_bits(key), wire_size_max_bits(value)),
    );
    within_limit(Operation::Sum, entry)
}

// The same, once the value was worked out too.
pub fn entry_wire_size(key: Size, value: Worked) -> Worked
    ensures { result ≡ then value (λ v. limited_sum (entry_size key v)) }
{
    match value {
        Worked::Sized(size) => entry_of_sizes(key, size),
        Worked::Over(by) => Worked::Over(by),
    }
}

// So many elements in all, and 8 for each group of that number.
fn count_bits(all: Size, most: u64) -> Worked
    ensures { result ≡ limited_sum (Size.Bounded 8 (8 * groups_of most + smallest all)) }
{
    let high = sum(8 * number::groups_of(most), wire_size_min_bits(all));
    within_limit(Operation::Sum, Size::Bounded(8, high))
}

// At most so many elements: a product, and then a sum.
fn up_to(high: Bound, most: u64) -> Worked
    ensures { result ≡ up_to most (high_of high) }
{
    match high {
        Bound::Most(h) => match multiply_wire_size(Size::Fixed(h), most) {
            Worked::Sized(all) => count_bits(all, most),
            Worked::Over(by) => Worked::Over(by),
        },
        Bound::None => Worked::Sized(Size::Open(8)),
    }
}

// A field that a limit bears on, once its element was worked out.
pub fn limited_wire_size(element: Worked, most: u64) -> Worked
    ensures { result ≡ then element (λ s. up_to most (largest s)) }
{
    match element {
        Worked::Sized(size) => up_to(wire_size_max_bits(size), most),
        Worked::Over(by) => Worked::Over(by),
    }
}
