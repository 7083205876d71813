// Parts of an image, for the layers above: a slot's kind with what it holds, and where its fields and types stand.
// The functions over the view are thin: the work is done on the two slices.
#![tactic(auto)]

ghost use Rattle.std.specs.Prelude.{◌≡◌};
ghost use Rattle.view.specs.Part.{part_at};
ghost use Rattle.view.specs.Take.{place_of, taken_at};
ghost use Rattle.view.specs.Inside.{name_count, fields_place, variants_place, terminal_place, target_place, inside_at};

use number::{Next, Ranged};
use tree::Sort;

// An image, with where its slots start: as many places as it has slots.
#[derive(Clone, Copy)]
pub struct View<'a, 'b> {
    pub image: &'a [u8],
    pub starts: &'b [usize],
}

// A slot's kind, and the position of what the kind holds.
#[derive(Clone, Copy)]
pub enum Part {
    At(u64, usize),
    Missing,
}

// A number below 2^32, and the position after it; where none reads, 0 and the place of the refusal.
#[derive(Clone, Copy)]
pub struct Taken {
    pub value: u32,
    pub next: usize,
}

// The part of slot k, by where the slots start.
fn read_part(image: &[u8], starts: &[usize], k: usize) -> Part
    ensures { result ≡ part_at image.now starts.now k }
{
    if starts.len() <= k {
        return Part::Missing;
    }
    match number::read_below(image, starts[k], 10) {
        Ranged::Value(kind, body) => Part::At(kind, body),
        Ranged::Refused(_, q) => Part::Missing,
    }
}

fn view_of<'a, 'b>(image: &'a [u8], starts: &'b [usize]) -> View<'a, 'b>
    ensures { (result.image ≡ image.entry) × (result.starts ≡ starts.entry) }
{
    View { image, starts }
}

pub fn fetch_part<'a, 'b>(view: View<'a, 'b>, k: usize) -> Part
    ensures { result ≡ part_at view.entry.image.now view.entry.starts.now k }
{
    read_part(view.image, view.starts, k)
}

// For callers that hold the two slices: their proofs need no view.
pub fn slot_part(image: &[u8], starts: &[usize], k: usize) -> Part
    ensures { result ≡ part_at image.now starts.now k }
{
    fetch_part(view_of(image, starts), k)
}

// Where a cursor stands.
pub fn place_of(cursor: Next) -> usize
    ensures { result ≡ place_of cursor }
{
    match cursor {
        Next::At(n) => n,
        Next::Refused(_, place) => place,
    }
}

pub fn take(image: &[u8], at: usize) -> Taken
    ensures { result ≡ taken_at image.now at }
{
    match number::read_below(image, at, 4294967296) {
        Ranged::Value(value, next) => Taken {
            value: value as u32,
            next,
        },
        Ranged::Refused(_, next) => Taken { value: 0, next },
    }
}

// The count of fields of a message whose body stands at `body`; the fields follow it.
fn fields_place(image: &[u8], body: usize) -> usize
    ensures { result ≡ fields_place image.now body }
{
    let span = slot::skip_span(image, Next::At(body));
    place_of(slot::skip_stored(image, span))
}

// The count of variants of a union; the variants follow it.
fn variants_place(image: &[u8], body: usize) -> usize
    ensures { result ≡ variants_place image.now body }
{
    place_of(slot::skip_stored(image, Next::At(body)))
}

// How many names the image has.
fn name_count(image: &[u8]) -> u64
    ensures { result ≡ name_count image.now }
{
    match number::read_below(image, 0, 4097) {
        Ranged::Value(names, _) => names,
        Ranged::Refused(_, _) => 0,
    }
}

// A newtype's terminal type; its inner type stands at the body itself.
fn terminal_place(image: &[u8], body: usize) -> usize
    ensures { result ≡ terminal_place image.now body }
{
    let names = name_count(image);
    place_of(tree::read_tree(image, body, 32, Sort::Resolved, names))
}

// An alias's target; its parameters stand at the body itself.
fn target_place(image: &[u8], body: usize) -> usize
    ensures { result ≡ target_place image.now body }
{
    let names = name_count(image);
    place_of(number::skip_counted(image, Next::At(body), names))
}

// Where a message's fields, a union's variants, a newtype's terminal type or an alias's target stand.
fn read_inside(image: &[u8], starts: &[usize], k: usize) -> usize
    ensures { result ≡ inside_at image.now starts.now k }
{
    let Part::At(kind, body) = read_part(image, starts, k) else {
        return 0;
    };
    match kind {
        1 => fields_place(image, body),
        4 => variants_place(image, body),
        5 => terminal_place(image, body),
        7 => target_place(image, body),
        _ => body,
    }
}

pub fn fetch_inside<'a, 'b>(view: View<'a, 'b>, k: usize) -> usize
    ensures { result ≡ inside_at view.entry.image.now view.entry.starts.now k }
{
    read_inside(view.image, view.starts, k)
}

// For callers that hold the two slices.
pub fn slot_inside(image: &[u8], starts: &[usize], k: usize) -> usize
    ensures { result ≡ inside_at image.now starts.now k }
{
    fetch_inside(view_of(image, starts), k)
}
