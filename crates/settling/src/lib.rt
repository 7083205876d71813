// What is known of a type by its head, and of a field before names are.
#![tactic(auto)]

ghost use Rattle.std.specs.Prelude.{◌≡◌, List, ℕ, ◌+◌};
ghost use Rattle.number.specs.Grammar.{done, below, read};
ghost use Rattle.tree.specs.Encoding.{Encoding, encoding_at};
ghost use Rattle.tree.specs.TreeAt.{head_at, shape};
ghost use Rattle.slot.specs.Short.{short_at};
ghost use Rattle.slot.specs.declared.Short.{Short};
ghost use Rattle.slot.specs.declared.Edition.{Edition};
ghost use Rattle.image.specs.declared.Frame.{Frame};
ghost use Rattle.sizes.specs.Sizes.{varint_end, zig_zag_end};
ghost use Rattle.settling.specs.Steps.{frame_of, coded_as, kind_in, number_in, Passed, Decides, Codes, Plains, Settles, LimitTo, LimitBehind, Holds, PastLimit, Wraps, Results, Arrays, Closes};

use number::{Next, Ranged};
use sizes::{Layout, Operation, Size, Worked};
use slot::{Edition, Short};
use tree::{Head, Sort};

// The frame of an accepted image, and how fields follow one another: one thing to hand down, since types nest.
#[derive(Clone, Copy)]
pub struct Scope {
    pub edition: Edition,
    pub layout: Layout,
    pub names: u64,
    pub finds: usize,
    pub slots: u64,
    pub declarations: u64,
    pub declared: usize,
}

// A size that was worked out, and the position after its type.
#[derive(Clone, Copy)]
pub struct Walked {
    pub worked: Worked,
    pub next: usize,
}

// Where a field's type stands, by the encoding that governs it.
#[derive(Clone, Copy)]
pub enum Coded {
    Plain(usize),
    Varint(usize),
    ZigZag(usize),
}

// Elements that a field's limit bears on: the kind of the field's type, where the element's own types stand, how many there are at most,
// and the position after the field.
#[derive(Clone, Copy)]
pub struct Limited {
    pub kind: u64,
    pub body: usize,
    pub most: u64,
    pub next: usize,
}

// What is known of a field before names are: its size and the position after the field, where Varint or ZigZag governs it or it holds nothing but a number;
// its name and that position, where it holds nothing but a name; else where its type stands.
#[derive(Clone, Copy)]
pub enum Settled {
    Is(Walked),
    Name(u64, usize),
    At(usize),
}

// What is known of a field by the kind of its type, where neither Varint nor ZigZag governs it: its size and the position after the field; that the
// type decides; or which elements its limit bears on.
#[derive(Clone, Copy)]
pub enum Plain {
    Is(Walked),
    Type,
    Limited(Limited),
}

// The kind and the number of a type's head.
#[derive(Clone, Copy)]
pub struct Kinded {
    pub kind: u64,
    pub number: u64,
}

// What the head of a type decides: its size, with the position after it where it has no parts; or which parts are to be
// worked out: a name, one child with the kind around it (6 for a fixed array), or the two sides of a Result.
#[derive(Clone, Copy)]
pub enum Decided {
    Leaf(Size, usize),
    Pass(Size),
    Name(u64, usize),
    One(u64, usize),
    Sides(usize),
}

// A type that is not worked out, because its size is known.
pub fn pass_type(image: &[u8], at: usize, names: u64, size: Size) -> Walked
    ensures { Passed names image.now at (λ t. Worked.Sized size) result }
{
    match tree::read_tree(image, at, 32, Sort::Resolved, names) {
        Next::At(next) => Walked {
            worked: Worked::Sized(size),
            next,
        },
        Next::Refused(_, place) => Walked {
            worked: Worked::Over(Operation::Sum),
            next: place,
        },
    }
}

// The same behind its head: a type without parts ends there.
fn pass_headed(image: &[u8], at: usize, names: u64, head: Head, size: Size) -> Walked
    requires { head ≡ shape (read (head_at Sort.Resolved names) image.now at) }
    ensures { Passed names image.now at (λ t. Worked.Sized size) result }
{
    if let Head::Leaf(_, _, _, next) = head {
        return Walked {
            worked: Worked::Sized(size),
            next,
        };
    }
    pass_type(image, at, names, size)
}

fn kind_and_number(head: Head) -> Kinded
    ensures { (result.kind ≡ kind_in head) × (result.number ≡ number_in head) }
{
    match head {
        Head::Leaf(kind, _, number, _) => Kinded { kind, number },
        Head::One(kind, _) => Kinded { kind, number: 0 },
        Head::Two(kind, _) => Kinded { kind, number: 0 },
        Head::Sized(_) => Kinded { kind: 6, number: 0 },
        Head::Generic(_, _) => Kinded {
            kind: 18,
            number: 0,
        },
        Head::Refused(_, _) => Kinded {
            kind: 18,
            number: 0,
        },
    }
}

fn varint_type(image: &[u8], at: usize, names: u64) -> Walked
    ensures { Passed names image.now at (λ t. Worked.Sized (Size.Bounded 8 (varint_end t))) result }
{
    let head = tree::read_head(image, at, Sort::Resolved, names);
    let kinded = kind_and_number(head);
    let size = measures::varint_wire_size(kinded.kind, kinded.number);
    pass_headed(image, at, names, head, size)
}

fn zigzag_type(image: &[u8], at: usize, names: u64) -> Walked
    ensures { Passed names image.now at (λ t. Worked.Sized (Size.Bounded 8 (zig_zag_end t))) result }
{
    let head = tree::read_head(image, at, Sort::Resolved, names);
    let kinded = kind_and_number(head);
    let size = measures::zigzag_wire_size(kinded.kind, kinded.number);
    pass_headed(image, at, names, head, size)
}

// Delta counts as its inner encoding.
fn read_coded(image: &[u8], at: usize) -> Coded
    ensures { (e : Encoding) (end : ℕ) → read (encoding_at 32) image.now at ≡ done e end → result ≡ coded_as e end }
{
    let mut levels: u64 = 32;
    let mut p = at;
    while 0 < levels {
        match number::read_below(image, p, 4) {
            Ranged::Value(kind, after) => {
                match kind {
                    0 => return Coded::Plain(after),
                    1 => return Coded::Varint(after),
                    2 => return Coded::ZigZag(after),
                    _ => {}
                }
                p = after;
                levels -= 1;
            }
            Ranged::Refused(_, place) => {
                return Coded::Plain(place);
            }
        }
    }
    Coded::Plain(p)
}

// The type of a field.
pub fn field_type(image: &[u8], at: usize, names: u64) -> Coded
    ensures { Codes names image.now at result }
{
    match number::skip_below(image, at, names) {
        Next::At(p) => read_coded(image, p),
        Next::Refused(_, place) => Coded::Plain(place),
    }
}

// A field's limit stands behind its type. Here what is worked out does not depend on it.
pub fn pass_limit(image: &[u8], field: Walked, scope: Scope) -> Walked
    ensures { PastLimit (frame_of scope) image.now field result }
{
    let edition = scope.edition;
    let worked = field.worked;
    let next = view::place_of(slot::skip_limit(image, Next::At(field.next), edition));
    Walked { worked, next }
}

// A field's limit in edition two, and the position after it.
#[derive(Clone, Copy)]
pub struct Limit {
    pub most: u64,
    pub next: usize,
}

// The limit behind a type.
pub fn limit_behind(image: &[u8], at: usize, names: u64) -> Limit
    ensures { LimitBehind names image.now at result.most result.next }
{
    match tree::read_tree(image, at, 32, Sort::Resolved, names) {
        Next::At(behind) => match number::read_below(image, behind, 4294967296) {
            Ranged::Value(most, next) => Limit { most, next },
            Ranged::Refused(_, place) => Limit {
                most: 0,
                next: place,
            },
        },
        Next::Refused(_, place) => Limit {
            most: 0,
            next: place,
        },
    }
}

// An array, a set or a map: from 8 without largest, unless it has a limit.
fn settle_elements(image: &[u8], at: usize, names: u64, kind: u64, body: usize) -> Plain
    requires { (below 17 image.now at ≡ done kind body) × Holds kind }
    ensures { (f : Frame) → f.names ≡ names → f.edition ≡ Edition.Two → Plains f image.now at result }
{
    let limit = limit_behind(image, at, names);
    if limit.most == 0 {
        return Plain::Is(Walked {
            worked: Worked::Sized(Size::Open(8)),
            next: limit.next,
        });
    }
    Plain::Limited(Limited {
        kind,
        body,
        most: limit.most,
        next: limit.next,
    })
}

// A plain field of edition two: its limit bears on the elements of its own type.
fn settle_limited(image: &[u8], at: usize, names: u64) -> Plain
    ensures { (f : Frame) → f.names ≡ names → f.edition ≡ Edition.Two → Plains f image.now at result }
{
    let Ranged::Value(kind, body) = number::read_below(image, at, 17) else {
        return Plain::Type;
    };
    match kind {
        5 => settle_elements(image, at, names, kind, body),
        7 => settle_elements(image, at, names, kind, body),
        8 => settle_elements(image, at, names, kind, body),
        _ => Plain::Type,
    }
}

// A field that neither Varint nor ZigZag governs, from its type on. Edition one has no limits.
pub fn settle_plain(image: &[u8], at: usize, scope: Scope) -> Plain
    ensures { Plains (frame_of scope) image.now at result }
{
    let edition = scope.edition;
    match edition {
        Edition::One => Plain::Type,
        Edition::Two => settle_limited(image, at, scope.names),
    }
}

fn settle_long(image: &[u8], at: usize, scope: Scope) -> Settled
    ensures { Settles (frame_of scope) image.now at result }
{
    match field_type(image, at, scope.names) {
        Coded::Plain(p) => Settled::At(p),
        Coded::Varint(p) => {
            let field = varint_type(image, p, scope.names);
            Settled::Is(pass_limit(image, field, scope))
        }
        Coded::ZigZag(p) => {
            let field = zigzag_type(image, p, scope.names);
            Settled::Is(pass_limit(image, field, scope))
        }
    }
}

fn sized(size: Size, next: usize) -> Settled
    ensures { result ≡ Settled.Is record { worked = Worked.Sized size; next = next } }
{
    Settled::Is(Walked {
        worked: Worked::Sized(size),
        next,
    })
}

// A field of four bytes and its limit, by those bytes. A name is still to be worked out.
fn settle_short(next: usize, encoding: u64, kind: u64, number: u64) -> Settled
    ensures { (f : Frame) (s : List ℕ) (at : ℕ) → LimitTo f s (at + 4) next → short_at f.names s at ≡ Short.Is encoding kind number → Settles f s at result }
{
    match encoding {
        0 => match kind {
            3 => Settled::Name(number, next),
            _ => sized(measures::leaf_wire_size(kind, number), next),
        },
        1 => sized(measures::varint_wire_size(kind, number), next),
        _ => sized(measures::zigzag_wire_size(kind, number), next),
    }
}

pub fn settle(image: &[u8], at: usize, scope: Scope) -> Settled
    ensures { Settles (frame_of scope) image.now at result }
{
    let edition = scope.edition;
    match slot::short_field(image, at, scope.names) {
        Short::Is(encoding, kind, number) => {
            let next = view::place_of(slot::skip_limit(image, Next::At(at + 4), edition));
            settle_short(next, encoding, kind, number)
        }
        Short::Other => settle_long(image, at, scope),
    }
}

// A kind with one child, once the child was worked out.
fn wrap_child(kind: u64, child: Walked) -> Walked
    ensures { Wraps kind child result }
{
    let worked = child.worked;
    let next = child.next;
    match worked {
        Worked::Sized(size) => Walked {
            worked: measures::wrap_wire_size(kind, size),
            next,
        },
        Worked::Over(_) => Walked { worked, next },
    }
}

// A Result, once both sides were worked out.
pub fn join_sides(ok: Size, err: Walked) -> Walked
    ensures { Results ok err result }
{
    let worked = err.worked;
    let next = err.next;
    match worked {
        Worked::Sized(size) => Walked {
            worked: measures::result_wire_size(ok, size),
            next,
        },
        Worked::Over(by) => Walked {
            worked: Worked::Over(by),
            next,
        },
    }
}

// A fixed array, once its element was worked out; its size stands behind the element.
fn repeat_element(image: &[u8], element: Walked) -> Walked
    ensures { Arrays image.now element result }
{
    let worked = element.worked;
    let next = element.next;
    match worked {
        Worked::Sized(size) => match number::read_whole(image, next) {
            Ranged::Value(count, after) => Walked {
                worked: measures::fixed_array_wire_size(size, count),
                next: after,
            },
            Ranged::Refused(_, place) => Walked {
                worked: Worked::Over(Operation::Product),
                next: place,
            },
        },
        Worked::Over(_) => Walked { worked, next },
    }
}

// A kind with one child, once the child was worked out.
pub fn close_one(image: &[u8], kind: u64, child: Walked) -> Walked
    ensures { Closes image.now kind child result }
{
    match kind {
        6 => repeat_element(image, child),
        _ => wrap_child(kind, child),
    }
}

// Types without parts, and those whose elements are not worked out: Array, Map and Set. No type holds a generic.
pub fn head_wire_size(head: Head) -> Decided
    ensures { Decides head result }
{
    match head {
        Head::Leaf(kind, _, number, next) => match kind {
            3 => Decided::Name(number, next),
            _ => Decided::Leaf(measures::leaf_wire_size(kind, number), next),
        },
        Head::One(kind, body) => match kind {
            5 => Decided::Pass(Size::Open(8)),
            7 => Decided::Pass(Size::Open(8)),
            _ => Decided::One(kind, body),
        },
        Head::Two(kind, body) => match kind {
            8 => Decided::Pass(Size::Open(8)),
            _ => Decided::Sides(body),
        },
        Head::Sized(body) => Decided::One(6, body),
        Head::Generic(_, _) => Decided::Pass(Size::Open(0)),
        Head::Refused(_, _) => Decided::Pass(Size::Open(0)),
    }
}
