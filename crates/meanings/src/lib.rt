// Which name a trait field's expression means, where parameters stand for types.
#![tactic(auto)]

ghost use Rattle.std.specs.Prelude.{◌≡◌, ◌^◌, ◌≤◌, get_or, set};
ghost use Rattle.number.specs.Grammar.{read};
ghost use Rattle.tree.specs.TreeAt.{head_at};
ghost use Rattle.tree.specs.declared.Sort.{Sort};
ghost use Rattle.image.specs.Schema.{Schema};
ghost use Rattle.reader.specs.Reading.{schema_of};
ghost use Rattle.findings.specs.Meaning.{id_found, id_or};
ghost use Rattle.findings.specs.declared.Value.{Value};
ghost use Rattle.meanings.specs.Places.{code_of, RightArgumentIn, RightArgument, RightLeafLook, LookAsked, RightLook};
ghost use Rattle.meanings.specs.Scopes.{first_at, is_first, name_meaning, leaf_meaning, head_value, RightAlias, RightLeaf, RightName, Ready, Asked};

use findings::Value;
use image::Frame;
use number::{Next, Ranged};
use tree::{Head, Sort};
use view::Part;

// What names stand for. Types: parameters, by the table of places. One: an alias's parameters at a place, and its one
// argument, of which only is known which name it is.
#[derive(Clone, Copy)]
pub enum Scope {
    Types,
    One(usize, Value),
}

// What a leaf means: itself, an id, the type at a place, or a type that is no name.
#[derive(Clone, Copy)]
pub enum Meaning {
    Itself,
    Id(u64),
    Type(usize),
    NotName,
}

// The place of an argument.
#[derive(Clone, Copy)]
pub enum Found {
    At(usize),
    Nothing,
}

// How many names were looked up, and the position after the expression.
#[derive(Clone, Copy)]
pub struct Looked {
    pub count: u64,
    pub next: usize,
}

// What a name finds, 0 past the table's end.
fn find(finds: &[u16], n: u64) -> u64
    ensures { result ≡ get_or finds.now n 0 }
{
    finds.get(n as usize).copied().map_or(0, u64::from)
}

// Where a name's argument stands, 0 past the table's end.
fn place(places: &[u32], n: u64) -> u64
    ensures { result ≡ get_or places.now n 0 }
{
    places.get(n as usize).copied().map_or(0, u64::from)
}

// The id that a name is resolved to.
fn resolve(finds: &[u16], n: u64) -> u64
    ensures { result ≡ id_found (get_or finds.now n 0) }
{
    find(finds, n).checked_sub(1).unwrap_or(4294967295)
}

// Whether a name is the first of the parameters that stand at a place.
fn is_first(image: &[u8], at: usize, names: u64, n: u64) -> bool
    ensures { result ≡ is_first n (read (first_at names) image.now at) }
{
    match number::read_below(image, at, 65537) {
        Ranged::Value(0, _) => false,
        Ranged::Value(_, first) => match number::read_below(image, first, names) {
            Ranged::Value(v, _) => v == n,
            Ranged::Refused(_, q) => false,
        },
        Ranged::Refused(_, place) => false,
    }
}

// The argument of a name, among `count` parameters from `first` on and `arguments` types from `start` on.
fn argument_in(
    image: &[u8],
    first: usize,
    count: u64,
    start: usize,
    arguments: u64,
    names: u64,
    n: u64,
) -> Found
    ensures { RightArgumentIn names image.now first count start arguments n result }
{
    let mut p = first;
    let mut a = start;
    for _ in 0..count.min(arguments) {
        let Ranged::Value(v, after) = number::read_below(image, p, names) else {
            return Found::Nothing;
        };
        if v == n {
            return Found::At(a);
        }
        let Next::At(b) = tree::read_tree(image, a, 32, Sort::Resolved, names) else {
            return Found::Nothing;
        };
        p = after;
        a = b;
    }
    Found::Nothing
}

// Looks a name up: the parameters stand at one place behind their count, the types from another on.
fn argument(image: &[u8], params: usize, start: usize, arguments: u64, names: u64, n: u64) -> Found
    ensures { RightArgument names image.now params start arguments n result }
{
    match number::read_below(image, params, 65537) {
        Ranged::Value(count, first) => {
            argument_in(image, first, count, start, arguments, names, n)
        }
        Ranged::Refused(_, q) => Found::Nothing,
    }
}

// No image is longer than 65,536 bytes.
fn code_of(found: Found) -> u32
    ensures { result ≡ code_of found }
{
    match found {
        Found::At(q) => { if q < 65536 { q as u32 + 2 } else { 1 } }
        Found::Nothing => 1,
    }
}

// A name past the table's end is left out. By index: what a slice holds after `get_mut` is not known to the proof.
fn put(places: &mut [u32], n: u64, found: Found)
    ensures { places.new ≡ set places.old n (code_of found) }
{
    let code = code_of(found);
    let i = n as usize;
    if i < places.len() {
        places[i] = code;
    }
}

// Looks a leaf up, if it is a plain name: the count of look-ups, 1 or 0.
fn look_up_leaf(
    image: &[u8],
    kind: u64,
    v: u64,
    names: u64,
    params: usize,
    start: usize,
    arguments: u64,
    places: &mut [u32],
) -> u64
    ensures one { kind ≡ 3 → result ≡ 1 }
    ensures small { result ≤ 1 }
    ensures right { RightLeafLook names image.now kind v params start arguments places.old places.new result }
{
    if kind != 3 {
        return 0;
    }
    let found = argument(image, params, start, arguments, names, v);
    put(places, v, found);
    1
}

// Looks up the plain names of an expression, in the arguments of generics too, each occurrence once.
pub fn look_up(
    image: &[u8],
    at: usize,
    levels: usize,
    names: u64,
    params: usize,
    start: usize,
    arguments: u64,
    places: &mut [u32],
) -> Looked
    requires { LookAsked names levels image.now at params start arguments }
    ensures small { result.count ≤ 2 ^ levels }
    ensures right { RightLook names levels image.now at params start arguments places.old places.new result.count result.next }
{
    if levels == 0 {
        return Looked { count: 0, next: at };
    }
    let inside = levels - 1;
    match tree::read_head(image, at, Sort::Expression, names) {
        Head::Leaf(kind, _, v, next) => {
            let count = look_up_leaf(image, kind, v, names, params, start, arguments, places);
            Looked { count, next }
        }
        Head::One(_, body) => {
            look_up(image, body, inside, names, params, start, arguments, places)
        }
        Head::Two(_, body) => {
            let a = look_up(image, body, inside, names, params, start, arguments, places);
            let b = look_up(
                image, a.next, inside, names, params, start, arguments, places,
            );
            Looked {
                count: a.count + b.count,
                next: b.next,
            }
        }
        Head::Sized(body) => {
            let a = look_up(image, body, inside, names, params, start, arguments, places);
            match number::read_whole(image, a.next) {
                Ranged::Value(_, end) => Looked {
                    count: a.count,
                    next: end,
                },
                Ranged::Refused(_, q) => Looked { count: 0, next: q },
            }
        }
        Head::Generic(_, body) => {
            look_up(image, body, inside, names, params, start, arguments, places)
        }
        Head::Refused(_, q) => Looked { count: 0, next: q },
    }
}

// What a plain name means.
fn parameter_meaning(
    image: &[u8],
    finds: &[u16],
    places: &[u32],
    names: u64,
    n: u64,
    scope: Scope,
) -> Meaning
    ensures { result ≡ name_meaning names image.now finds.now places.now scope n }
{
    match scope {
        Scope::Types => {
            let code = place(places, n);
            if code < 2 {
                Meaning::Id(resolve(finds, n))
            } else {
                Meaning::Type((code - 2) as usize)
            }
        }
        Scope::One(list, value) => {
            if !is_first(image, list, names, n) {
                return Meaning::Id(resolve(finds, n));
            }
            match value {
                Value::Id(i) => Meaning::Id(i),
                Value::NotName => Meaning::NotName,
            }
        }
    }
}

// What a leaf means, by its kind and number.
pub fn leaf_meaning(
    image: &[u8],
    finds: &[u16],
    places: &[u32],
    names: u64,
    kind: u64,
    v: u64,
    scope: Scope,
) -> Meaning
    ensures { result ≡ leaf_meaning names image.now finds.now places.now scope kind v }
{
    match kind {
        3 => parameter_meaning(image, finds, places, names, v, scope),
        17 => Meaning::Id(resolve(finds, v)),
        _ => Meaning::Itself,
    }
}

// Which slot the type at a place names.
pub fn type_value(image: &[u8], at: usize, names: u64) -> Value
    ensures { result ≡ head_value (read (head_at Sort.Resolved names) image.now at) }
{
    match tree::read_head(image, at, Sort::Resolved, names) {
        Head::Leaf(kind, _, v, _) => match kind {
            3 => Value::Id(v),
            _ => Value::NotName,
        },
        Head::One(_, q) => Value::NotName,
        Head::Two(_, q) => Value::NotName,
        Head::Sized(q) => Value::NotName,
        Head::Generic(_, q) => Value::NotName,
        Head::Refused(_, place) => Value::NotName,
    }
}

// Which name a leaf means.
fn leaf_value(
    image: &[u8],
    finds: &[u16],
    places: &[u32],
    names: u64,
    kind: u64,
    v: u64,
    scope: Scope,
) -> Value
    ensures { (S : Schema) → RightLeaf names S image.now finds.now places.now scope kind v result }
{
    match leaf_meaning(image, finds, places, names, kind, v, scope) {
        Meaning::Itself => Value::NotName,
        Meaning::Id(i) => Value::Id(i),
        Meaning::Type(at) => type_value(image, at, names),
        Meaning::NotName => Value::NotName,
    }
}

// Where the alias is that a name finds: its parameters at the slot's body, the target behind them.
fn alias_of(
    image: &[u8],
    starts: &[usize],
    frame: Frame,
    finds: &[u16],
    n: u64,
) -> Option<(usize, usize)>
    requires { Ready image.now starts.now frame finds.now }
    ensures { RightAlias frame.names (schema_of frame.edition image.now) image.now n result }
{
    let slot = find(finds, n).checked_sub(1)?;
    match view::slot_part(image, starts, slot as usize) {
        Part::At(7, body) => match number::skip_counted(image, Next::At(body), frame.names) {
            Next::At(target) => Some((body, target)),
            Next::Refused(_, q) => None,
        },
        Part::At(_, _) => None,
        Part::Missing => None,
    }
}

// The id of a generic: that of the name which the alias's target means, or that of what is not found.
fn name_or_unfound(value: Value) -> Value
    ensures { result ≡ Value.Id (id_or value) }
{
    match value {
        Value::Id(i) => Value::Id(i),
        Value::NotName => Value::Id(4294967295),
    }
}

// Which name an expression means.
pub fn name_of(
    image: &[u8],
    starts: &[usize],
    frame: Frame,
    finds: &[u16],
    places: &[u32],
    at: usize,
    levels: usize,
    scope: Scope,
) -> Value
    requires { Asked image.now starts.now frame finds.now places.now at levels scope }
    ensures { RightName frame.names levels (schema_of frame.edition image.now) image.now places.now at scope result }
{
    let names = frame.names;
    match tree::read_head(image, at, Sort::Expression, names) {
        Head::Leaf(kind, _, v, _) => leaf_value(image, finds, places, names, kind, v, scope),
        Head::One(_, q) => Value::NotName,
        Head::Two(_, q) => Value::NotName,
        Head::Sized(q) => Value::NotName,
        Head::Generic(name, body) => {
            let inner = name_of(image, starts, frame, finds, places, body, levels - 1, scope);
            match alias_of(image, starts, frame, finds, name) {
                Some((list, target)) => {
                    let inside = Scope::One(list, inner);
                    let meant = name_of(image, starts, frame, finds, places, target, 32, inside);
                    name_or_unfound(meant)
                }
                None => Value::Id(4294967295),
            }
        }
        Head::Refused(_, q) => Value::NotName,
    }
}
