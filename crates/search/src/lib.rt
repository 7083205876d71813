// The search for a trait field among the fields of a message.
#![tactic(auto)]

ghost use Rattle.std.specs.Prelude.{◌≡◌};
ghost use Rattle.search.specs.Search.{Heads, FieldAsked, IsField, SearchAsked, HasField, FieldSought, FoundIf, LooksUp, PlacesHold};

use image::Frame;
use matching::Matched;
use number::{Next, Ranged};
use tree::Sort;

// Whether the message has the trait field, how many names were looked up among the trait's parameters, and the position after the
// trait field's expression.
#[derive(Clone, Copy)]
pub struct Searched {
    pub found: bool,
    pub look_ups: u64,
    pub next: usize,
}

// A field's name, and the position of its type.
#[derive(Clone, Copy)]
pub struct FieldHead {
    pub name: u64,
    pub place: usize,
}

// The encoding stands between them.
fn field_head(image: &[u8], at: usize, frame: Frame) -> FieldHead
    ensures { Heads frame image.now at result }
{
    match number::read_below(image, at, frame.names) {
        Ranged::Value(name, encoding) => match tree::read_encoding(image, encoding) {
            Next::At(place) => FieldHead { name, place },
            Next::Refused(_, place) => FieldHead { name, place },
        },
        Ranged::Refused(_, place) => FieldHead { name: 0, place },
    }
}

// Whether a field, as one of its own name, has the type that the expression means.
fn is_field(
    image: &[u8],
    starts: &[usize],
    frame: Frame,
    finds: &[u16],
    places: &[u32],
    field: FieldHead,
    expression: usize,
) -> bool
    requires { FieldAsked image.now starts.now frame finds.now places.now field.place expression }
    ensures { IsField frame image.now places.now field field.name expression result }
{
    match matching::types_compatible(
        image,
        starts,
        frame,
        finds,
        places,
        field.place,
        expression,
        32,
        Sort::Expression,
    ) {
        Matched::Same(_, after) => true,
        Matched::Differs => false,
    }
}

// Whether one of `count` fields has the name and the type that the expression means. Where the trait's parameters stand, and where the
// types, is not handed down: nothing can be looked up while fields are tried.
fn has_field(
    image: &[u8],
    starts: &[usize],
    frame: Frame,
    finds: &[u16],
    places: &[u32],
    fields: usize,
    count: u64,
    name: u64,
    expression: usize,
) -> bool
    requires { SearchAsked image.now starts.now frame finds.now places.now fields count expression }
    ensures { HasField frame image.now places.now fields count name expression result }
{
    let edition = frame.edition;
    let mut p = fields;
    'search: {
        for _ in 0..count {
            let field = field_head(image, p, frame);
            if field.name == name
                && is_field(image, starts, frame, finds, places, field, expression)
            {
                break 'search true;
            }
            let limited = tree::read_tree(image, field.place, 32, Sort::Resolved, frame.names);
            let Next::At(after) = slot::skip_limit(image, limited, edition) else {
                break 'search false;
            };
            p = after;
        }
        false
    }
}

// Searches a trait field among `count` fields of a message. The names of its expression are looked up once, before any field is tried.
pub fn search_field(
    image: &[u8],
    starts: &[usize],
    frame: Frame,
    finds: &[u16],
    type_params: usize,
    type_args: usize,
    type_arg_count: u64,
    fields: usize,
    count: u64,
    name: u64,
    expression: usize,
    places: &mut [u32],
) -> Searched
    requires { FieldSought image.now starts.now frame finds.now places.old type_params type_args type_arg_count fields count expression }
    ensures found { FoundIf frame image.now type_params type_args type_arg_count fields count name expression result.found }
    ensures look_ups { LooksUp frame.names image.now expression result.look_ups result.next }
    ensures table { PlacesHold frame.names image.now type_params type_args type_arg_count expression places.old places.new }
{
    let looked = meanings::look_up(
        image,
        expression,
        32,
        frame.names,
        type_params,
        type_args,
        type_arg_count,
        places,
    );
    let found = has_field(
        image, starts, frame, finds, places, fields, count, name, expression,
    );
    // The look-ups are told as they were made, whether a field was found or not.
    Searched {
        found,
        look_ups: looked.count,
        next: looked.next,
    }
}
