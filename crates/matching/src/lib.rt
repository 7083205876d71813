// A message field's type, compared in place with the type that a trait field's expression means.
#![tactic(auto)]

ghost use Rattle.std.specs.Prelude.{◌≡◌};
ghost use Rattle.image.specs.Schema.{Schema};
ghost use Rattle.reader.specs.Reading.{schema_of};
ghost use Rattle.meanings.specs.Scopes.{Asked as NameAsked};
ghost use Rattle.meanings.specs.declared.Scope.{Scope};
ghost use Rattle.matching.specs.Comparing.{MeansHere, SameGeneric, Asked, Compares};
ghost use Rattle.matching.specs.Steps.{node_of, SameSize, NamesStart, SameNames, SameLeaf, id_answer, ending_at};

use findings::Value;
use image::Frame;
use meanings::{Meaning, Scope};
use number::{Next, Ranged};
use tree::{Head, Sort};

// Equal, with the positions after both; or not.
#[derive(Clone, Copy)]
pub enum Matched {
    Same(usize, usize),
    Differs,
}

// The numbers of a head, and the position after it.
#[derive(Clone, Copy)]
pub struct Node {
    pub kind: u64,
    pub flag: u64,
    pub number: u64,
    pub next: usize,
}

fn node_of(head: Head) -> Node
    ensures { result ≡ node_of head }
{
    let (kind, flag, number, next) = match head {
        Head::Leaf(kind, flag, number, next) => (kind, flag, number, next),
        Head::One(kind, next) => (kind, 0, 0, next),
        Head::Two(kind, next) => (kind, 0, 0, next),
        Head::Sized(next) => (6, 0, 0, next),
        Head::Generic(number, next) => (18, 0, number, next),
        Head::Refused(_, next) => (19, 0, 0, next),
    };
    Node {
        kind,
        flag,
        number,
        next,
    }
}

// The sizes of two fixed arrays.
fn same_size(image: &[u8], a: usize, b: usize) -> Matched
    ensures { SameSize image.now a b result }
{
    let Ranged::Value(x, m) = number::read_whole(image, a) else {
        return Matched::Differs;
    };
    let Ranged::Value(y, n) = number::read_whole(image, b) else {
        return Matched::Differs;
    };
    if x == y {
        Matched::Same(m, n)
    } else {
        Matched::Differs
    }
}

// The names of an inline bit field stand behind its kind and its count, in types and expressions alike.
fn names_start(image: &[u8], at: usize) -> usize
    ensures { NamesStart image.now at result }
{
    let body = number::skip_below(image, at, 19);
    match number::skip(image, body, 65537) {
        Next::At(first) => first,
        Next::Refused(_, place) => place,
    }
}

// Two runs of names.
fn same_names(image: &[u8], a: usize, b: usize, count: u64, names: u64) -> bool
    ensures { SameNames names image.now a b count result }
{
    let mut p = a;
    let mut q = b;
    for _ in 0..count {
        let Ranged::Value(x, m) = number::read_below(image, p, names) else {
            return false;
        };
        let Ranged::Value(y, n) = number::read_below(image, q, names) else {
            return false;
        };
        if x != y {
            return false;
        }
        p = m;
        q = n;
    }
    true
}

// Two leaves. Of an inline bit field the head has only how many names there are.
fn same_leaf(image: &[u8], names: u64, p: usize, q: usize, a: Node, b: Node) -> Matched
    ensures { SameLeaf names image.now p q a b result }
{
    if a.kind != b.kind || a.flag != b.flag || a.number != b.number {
        return Matched::Differs;
    }
    if a.kind == 16 {
        let x = names_start(image, p);
        let y = names_start(image, q);
        if !same_names(image, x, y, a.number, names) {
            return Matched::Differs;
        }
    }
    Matched::Same(a.next, b.next)
}

// Whether a head is the name of a slot.
#[tactic(auto, unfolding(crate::specs::Steps::id_answer))]
fn same_id(a: Node, id: u64, after: usize) -> Matched
    ensures { result ≡ id_answer a id after }
{
    if a.kind == 3 && a.number == id {
        Matched::Same(a.next, after)
    } else {
        Matched::Differs
    }
}

// An argument stands elsewhere than the parameter: the second position is the one after the parameter.
fn ending(r: Matched, after: usize) -> Matched
    ensures { result ≡ ending_at r after }
{
    match r {
        Matched::Same(m, _) => Matched::Same(m, after),
        Matched::Differs => Matched::Differs,
    }
}

// What a leaf means. A type's leaf means itself.
fn meaning_here(
    image: &[u8],
    finds: &[u16],
    places: &[u32],
    names: u64,
    kind: u64,
    v: u64,
    sort: Sort,
) -> Meaning
    ensures { (S : Schema) → MeansHere names S image.now finds.now places.now kind v sort result }
{
    match sort {
        Sort::Resolved => Meaning::Itself,
        Sort::Expression => {
            meanings::leaf_meaning(image, finds, places, names, kind, v, Scope::Types)
        }
    }
}

// Whether a head is the slot that a generic means.
fn same_generic(
    image: &[u8],
    starts: &[usize],
    frame: Frame,
    finds: &[u16],
    places: &[u32],
    a: Node,
    q: usize,
    levels: usize,
) -> Matched
    requires { NameAsked image.now starts.now frame finds.now places.now q levels Scope.Types }
    ensures { SameGeneric frame.names (schema_of frame.edition image.now) image.now places.now a q levels result }
{
    match meanings::name_of(image, starts, frame, finds, places, q, levels, Scope::Types) {
        Value::Id(id) => match tree::read_tree(image, q, levels, Sort::Expression, frame.names) {
            Next::At(after) => same_id(a, id, after),
            Next::Refused(_, place) => Matched::Differs,
        },
        Value::NotName => Matched::Differs,
    }
}

// Whether the type at p is the type at q, or what the expression at q means. An argument is compared as it stands in the
// impl, by its own levels.
pub fn types_compatible(
    image: &[u8],
    starts: &[usize],
    frame: Frame,
    finds: &[u16],
    places: &[u32],
    p: usize,
    q: usize,
    levels: usize,
    sort: Sort,
) -> Matched
    requires { Asked image.now starts.now frame finds.now places.now p q levels sort }
    ensures { Compares frame.names (schema_of frame.edition image.now) image.now places.now p q levels sort result }
{
    let names = frame.names;
    let a = node_of(tree::read_head(image, p, Sort::Resolved, names));
    let head = tree::read_head(image, q, sort, names);
    let next = a.next;
    let left = levels - 1;
    match head {
        Head::Leaf(kind, _, v, after) => {
            match meaning_here(image, finds, places, names, kind, v, sort) {
                Meaning::Itself => same_leaf(image, names, p, q, a, node_of(head)),
                Meaning::Id(id) => same_id(a, id, after),
                Meaning::Type(at) => {
                    let other = Sort::Resolved;
                    let r = types_compatible(image, starts, frame, finds, places, p, at, 32, other);
                    ending(r, after)
                }
                Meaning::NotName => Matched::Differs,
            }
        }
        Head::One(kind, body) => {
            if a.kind != kind {
                return Matched::Differs;
            }
            types_compatible(image, starts, frame, finds, places, next, body, left, sort)
        }
        Head::Two(kind, body) => {
            if a.kind != kind {
                return Matched::Differs;
            }
            let r = types_compatible(image, starts, frame, finds, places, next, body, left, sort);
            let Matched::Same(m, n) = r else {
                return Matched::Differs;
            };
            types_compatible(image, starts, frame, finds, places, m, n, left, sort)
        }
        Head::Sized(body) => {
            if a.kind != 6 {
                return Matched::Differs;
            }
            let r = types_compatible(image, starts, frame, finds, places, next, body, left, sort);
            let Matched::Same(m, n) = r else {
                return Matched::Differs;
            };
            same_size(image, m, n)
        }
        Head::Generic(_, body) => same_generic(image, starts, frame, finds, places, a, q, levels),
        Head::Refused(_, place) => Matched::Differs,
    }
}
