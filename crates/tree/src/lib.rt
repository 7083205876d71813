// Types, type expressions and encodings of the schema image.
#![tactic(auto)]

ghost use Rattle.std.specs.Prelude.{◌≡◌, ◌^◌};
ghost use Rattle.number.specs.Grammar.{below, number, many, read, too_deep};
ghost use Rattle.number.specs.Answers.{next, follow};
ghost use Rattle.tree.specs.Tree.{Tree};
ghost use Rattle.tree.specs.TreeAt.{kinds_of, ids_of, tree_at, head_at, body_at, sub_byte_at, bits_at, generic_at, shape, plain_head};
ghost use Rattle.tree.specs.Short.{short_limit, is_short};
ghost use Rattle.tree.specs.Encoding.{encoding_at};

use number::{Next, Ranged};

// A resolved type names slots; an expression names names, and has qualified names and generics besides.
#[derive(Clone, Copy)]
pub enum Sort {
    Resolved,
    Expression,
}

// What stands in front of a tree's children, with the position after it. Leaf: the kind, 1 for a signed sub-byte type,
// and the number that it holds (of a sub-byte type its bits, of an inline bit field how many names), no child. One: the
// kind, and a child. Two: the kind, and two children. Sized: an element, and then a size. Generic: its name, and a child.
#[derive(Clone, Copy)]
pub enum Head {
    Leaf(u64, u64, u64, usize),
    One(u64, usize),
    Two(u64, usize),
    Sized(usize),
    Generic(u64, usize),
    Refused(u8, usize),
}

// How many kinds there are.
fn kinds_of(sort: Sort) -> u64
    ensures { result ≡ kinds_of sort }
{
    match sort {
        Sort::Resolved => 17,
        Sort::Expression => 19,
    }
}

// The limit of what kind 3 holds.
fn ids_of(sort: Sort, names: u64) -> u64
    ensures { result ≡ ids_of sort names }
{
    match sort {
        Sort::Resolved => 4294967296,
        Sort::Expression => names,
    }
}

// A kind that holds one number.
fn read_plain(image: &[u8], at: usize, kind: u64, flag: u64, limit: u64) -> Head
    ensures { result ≡ plain_head kind flag (below limit image.now at) }
{
    match number::read_below(image, at, limit) {
        Ranged::Value(v, after) => Head::Leaf(kind, flag, v, after),
        Ranged::Refused(r, p) => Head::Refused(r, p),
    }
}

// What a sub-byte type holds.
fn read_sub_byte(image: &[u8], at: usize) -> Head
    ensures { result ≡ shape (read sub_byte_at image.now at) }
{
    match number::read_below(image, at, 2) {
        Ranged::Value(signed, after) => read_plain(image, after, 1, signed, 256),
        Ranged::Refused(r, p) => Head::Refused(r, p),
    }
}

// What an inline bit field holds.
fn read_bits(image: &[u8], at: usize, names: u64) -> Head
    ensures { result ≡ shape (read (bits_at names) image.now at) }
{
    match number::read_below(image, at, 65537) {
        Ranged::Value(count, after) => match number::skip_numbers(image, after, count, names) {
            Next::At(n) => Head::Leaf(16, 0, count, n),
            Next::Refused(r, p) => Head::Refused(r, p),
        },
        Ranged::Refused(r, p) => Head::Refused(r, p),
    }
}

// What a generic holds in front of its argument.
fn read_generic(image: &[u8], at: usize, names: u64) -> Head
    ensures { result ≡ shape (read (generic_at names) image.now at) }
{
    match number::read_below(image, at, names) {
        Ranged::Value(v, after) => Head::Generic(v, after),
        Ranged::Refused(r, p) => Head::Refused(r, p),
    }
}

// What a kind holds in front of its children.
fn read_body(image: &[u8], at: usize, kind: u64, sort: Sort, names: u64) -> Head
    ensures { result ≡ shape (read (body_at sort names kind) image.now at) }
{
    match kind {
        0 => read_plain(image, at, 0, 0, 14),
        1 => read_sub_byte(image, at),
        2 => read_plain(image, at, 2, 0, 6),
        3 => read_plain(image, at, 3, 0, ids_of(sort, names)),
        4 | 5 | 7 | 10 | 11 | 12 | 13 | 14 | 15 => Head::One(kind, at),
        6 => Head::Sized(at),
        8 | 9 => Head::Two(kind, at),
        16 => read_bits(image, at, names),
        17 => read_plain(image, at, 17, 0, names),
        18 => read_generic(image, at, names),
        _ => Head::Refused(4, at),
    }
}

// A kind with what it holds in front of its children.
pub fn read_head(image: &[u8], at: usize, sort: Sort, names: u64) -> Head
    ensures { result ≡ shape (read (head_at sort names) image.now at) }
{
    match number::read_below(image, at, kinds_of(sort)) {
        Ranged::Value(kind, body) => read_body(image, body, kind, sort, names),
        Ranged::Refused(r, p) => Head::Refused(r, p),
    }
}

// A kind where no level is left.
fn too_deep(image: &[u8], at: usize, kinds: u64) -> Next
    ensures { result ≡ next (read (too_deep {A = Tree} kinds) image.now at) }
{
    match number::read_below(image, at, kinds) {
        Ranged::Value(_, after) => Next::Refused(5, at),
        Ranged::Refused(r, p) => Next::Refused(r, p),
    }
}

// What the number of a kind is below, as far as a byte goes; 0 for kinds that hold something else.
pub fn short_limit(kind: u64) -> u64
    ensures { result ≡ short_limit kind }
{
    match kind {
        0 => 14,
        1 => 0,
        2 => 6,
        3 => 128,
        _ => 0,
    }
}

// Whether a leaf of two bytes stands at a position: most types are such.
fn is_short(image: &[u8], at: usize, ids: u64) -> bool
    ensures { result ≡ is_short ids image.now at }
{
    if image.len() < 2 {
        return false;
    }
    if image.len() - 2 < at {
        return false;
    }
    let kind = number::wide(image[at]);
    let v = number::wide(image[at + 1]);
    if ids <= v {
        return false;
    }
    v < short_limit(kind)
}

// The position after a tree of `levels` levels at most.
pub fn read_tree(image: &[u8], at: usize, levels: usize, sort: Sort, names: u64) -> Next
    ensures { result ≡ next (read (tree_at sort names levels) image.now at) }
{
    if levels == 0 {
        return too_deep(image, at, kinds_of(sort));
    }
    if is_short(image, at, ids_of(sort, names)) {
        return Next::At(at + 2);
    }
    match read_head(image, at, sort, names) {
        Head::Leaf(_, _, _, after) => Next::At(after),
        Head::One(_, body) => read_tree(image, body, levels - 1, sort, names),
        Head::Two(_, body) => match read_tree(image, body, levels - 1, sort, names) {
            Next::At(after) => read_tree(image, after, levels - 1, sort, names),
            Next::Refused(r, p) => Next::Refused(r, p),
        },
        Head::Sized(body) => match read_tree(image, body, levels - 1, sort, names) {
            Next::At(after) => number::skip_whole(image, after),
            Next::Refused(r, p) => Next::Refused(r, p),
        },
        Head::Generic(_, body) => read_tree(image, body, levels - 1, sort, names),
        Head::Refused(r, p) => Next::Refused(r, p),
    }
}

// The position after a tree, from a cursor.
pub fn skip_tree(image: &[u8], cursor: Next, sort: Sort, names: u64) -> Next
    ensures { result ≡ follow cursor (λ n. next (read (tree_at sort names 32) image.now n)) }
{
    match cursor {
        Next::At(p) => read_tree(image, p, 32, sort, names),
        Next::Refused(r, q) => Next::Refused(r, q),
    }
}

// The position after an encoding.
pub fn read_encoding(image: &[u8], at: usize) -> Next
    ensures { result ≡ next (read (encoding_at 32) image.now at) }
{
    let mut levels: u64 = 32;
    let mut p = at;
    while 0 < levels {
        match number::read_below(image, p, 4) {
            Ranged::Value(kind, after) => {
                if kind != 3 {
                    return Next::At(after);
                }
                p = after;
                levels -= 1;
            }
            Ranged::Refused(r, q) => {
                return Next::Refused(r, q);
            }
        }
    }
    too_deep(image, p, 4)
}

// The position after an encoding, from a cursor.
pub fn skip_encoding(image: &[u8], cursor: Next) -> Next
    ensures { result ≡ follow cursor (λ n. next (read (encoding_at 32) image.now n)) }
{
    match cursor {
        Next::At(p) => read_encoding(image, p),
        Next::Refused(r, q) => Next::Refused(r, q),
    }
}
