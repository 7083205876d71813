// Impls against their traits: classes 2, 3 and 4.
#![tactic(auto)]

ghost use Rattle.std.specs.Prelude.{◌≡◌, [], ◌∷◌, ℕ, ◌<◌, ◌≤◌, ◌^◌, eqb};
ghost use Rattle.number.specs.Grammar.{done, read};
ghost use Rattle.slot.specs.Slot.{Impl, impl_at, Trait, trait_at, slot_kind};
ghost use Rattle.image.specs.Schema.{slot_of};
ghost use Rattle.image.specs.declared.Frame.{Frame};
ghost use Rattle.reader.specs.Reading.{schema_of};
ghost use Rattle.reader.specs.Promise.{Promise};
ghost use Rattle.view.specs.Part.{part_at};
ghost use Rattle.view.specs.declared.Part.{Part};
ghost use Rattle.findings.specs.Adding.{Adds};
ghost use Rattle.findings.specs.Conformance.{lacking, conforming, conformance_of, has_impl};
ghost use Rattle.conformance.specs.Parts.{SpanIs, ImplIs, TraitIs};
ghost use Rattle.conformance.specs.Adding.{own_finding, target_findings, slot_findings, SlotAsked, Paired, Targeted};

use findings::{Finding, Value};
use image::Frame;
use view::Part;

// The span of an arity finding, and the position after it.
#[derive(Clone, Copy)]
struct TraitSpan {
    offset: u32,
    length: u32,
    next: usize,
}

// An impl: its span, the trait's slot + 1 or 0, the span for its arity, the arguments' place and count, the target's place.
#[derive(Clone, Copy)]
struct ImplDef {
    offset: u32,
    length: u32,
    trait_id: u32,
    trait_offset: u32,
    trait_length: u32,
    type_args: usize,
    type_arg_count: u32,
    target_type: usize,
}

// A trait: the place of its parameters' count, the count, the place of its fields, how many.
#[derive(Clone, Copy)]
struct TraitDef {
    type_params: usize,
    type_param_count: u32,
    fields: usize,
    field_count: u32,
}

// The trait's span if it is given, else the impl's.
fn read_trait_span(image: &[u8], at: usize, offset: u32, length: u32) -> TraitSpan
    ensures { SpanIs image.now at offset length result }
{
    let given = view::take(image, at);
    if given.value == 0 {
        return TraitSpan {
            offset,
            length,
            next: given.next,
        };
    }
    let first = view::take(image, given.next);
    let second = view::take(image, first.next);
    TraitSpan {
        offset: first.value,
        length: second.value,
        next: second.next,
    }
}

// The impl whose body stands at `body`.
fn read_impl(image: &[u8], body: usize, names: u64) -> ImplDef
    ensures { (x : Impl) (end : ℕ) → read (impl_at names) image.now body ≡ done x end → ImplIs names image.now result x }
{
    let offset = view::take(image, body);
    let length = view::take(image, offset.next);
    let trait_id = view::take(image, length.next);
    let span = read_trait_span(image, trait_id.next, offset.value, length.value);
    let count = view::take(image, span.next);
    let target_type = view::place_of(slot::read_types(
        image,
        count.next,
        count.value as u64,
        names,
    ));
    ImplDef {
        offset: offset.value,
        length: length.value,
        trait_id: trait_id.value,
        trait_offset: span.offset,
        trait_length: span.length,
        type_args: count.next,
        type_arg_count: count.value,
        target_type,
    }
}

// The trait whose body stands at `body`.
fn read_trait(image: &[u8], body: usize, names: u64) -> TraitDef
    ensures { (t : Trait) (end : ℕ) → read (trait_at names) image.now body ≡ done t end → TraitIs names image.now result t }
{
    let params = view::take(image, body);
    let after = view::place_of(number::skip_numbers(
        image,
        params.next,
        params.value as u64,
        names,
    ));
    let fields = view::take(image, after);
    TraitDef {
        type_params: body,
        type_param_count: params.value,
        fields: fields.next,
        field_count: fields.value,
    }
}

// One finding more.
fn add_finding(findings: &mut [u32], count: u64, finding: Finding) -> u64
    requires { count < 2 ^ 60 }
    ensures { Adds 1 findings.old findings.new count result (finding ∷ []) }
{
    findings::put_finding(findings, count, finding);
    count + 1
}

// Classes 3 and 4 have the impl's span.
fn own_finding(class: u32, slot: u32, impl_def: ImplDef, a: u32) -> Finding
    ensures { result ≡ own_finding class slot impl_def a }
{
    Finding {
        class,
        slot,
        offset: impl_def.offset,
        length: impl_def.length,
        a,
        b: 0,
    }
}

// The fields that the trait requires of a message whose fields stand at `place`. What names find is read here and not
// before: few images have an impl that comes so far.
fn check_required_fields(
    image: &[u8],
    starts: &[usize],
    frame: Frame,
    slot: u32,
    impl_def: ImplDef,
    trait_def: TraitDef,
    place: usize,
    findings: &mut [u32],
    count: u64,
) -> u64
    requires { Targeted image.now starts.now frame impl_def trait_def place count }
    ensures { (a : Targeted image.now starts.now frame impl_def trait_def place count) → Adds 65536 findings.old findings.new count result (lacking (schema_of frame.edition image.now) slot a.paired.impl a.paired.trait.parameters a.message 0 a.paired.trait.fields) }
{
    let mut finds = [0u16; 4096];
    image::read_finds(image, frame.finds, frame.names, &mut finds);
    let mut places = [0u32; 4096];
    let fields = view::take(image, place);
    let mut n = count;
    let mut p = trait_def.fields;
    for k in 0..trait_def.field_count {
        let name = view::take(image, p);
        let searched = search::search_field(
            image,
            starts,
            frame,
            &finds,
            trait_def.type_params,
            impl_def.type_args,
            impl_def.type_arg_count as u64,
            fields.next,
            fields.value as u64,
            name.value as u64,
            name.next,
            &mut places,
        );
        if !searched.found {
            n = add_finding(findings, n, own_finding(4, slot, impl_def, k));
        }
        p = searched.next;
    }
    n
}

// The target is a message that has the trait's fields; one that is no name, or is not there, is passed over.
fn check_trait_fields(
    image: &[u8],
    starts: &[usize],
    frame: Frame,
    slot: u32,
    impl_def: ImplDef,
    trait_def: TraitDef,
    findings: &mut [u32],
    count: u64,
) -> u64
    requires { Paired image.now starts.now frame impl_def trait_def count }
    ensures { (a : Paired image.now starts.now frame impl_def trait_def count) → Adds 65536 findings.old findings.new count result (target_findings (schema_of frame.edition image.now) slot a.impl a.trait) }
{
    match meanings::type_value(image, impl_def.target_type, frame.names) {
        Value::Id(target) => {
            if frame.slots <= target {
                return count;
            }
            match view::slot_part(image, starts, target as usize) {
                Part::At(kind, _) => match kind {
                    0 => count,
                    1 => check_required_fields(
                        image,
                        starts,
                        frame,
                        slot,
                        impl_def,
                        trait_def,
                        view::slot_inside(image, starts, target as usize),
                        findings,
                        count,
                    ),
                    _ => add_finding(findings, count, own_finding(3, slot, impl_def, 0)),
                },
                Part::Missing => count,
            }
        }
        Value::NotName => count,
    }
}

// An impl of a trait that is there: its arity, and then the trait's fields.
fn check_single_impl_conformance(
    image: &[u8],
    starts: &[usize],
    frame: Frame,
    slot: u32,
    impl_def: ImplDef,
    trait_def: TraitDef,
    findings: &mut [u32],
    count: u64,
) -> u64
    requires { Paired image.now starts.now frame impl_def trait_def count }
    ensures { (a : Paired image.now starts.now frame impl_def trait_def count) → Adds 65536 findings.old findings.new count result (conforming (schema_of frame.edition image.now) slot a.impl a.trait) }
{
    if trait_def.type_param_count == impl_def.type_arg_count {
        return check_trait_fields(
            image, starts, frame, slot, impl_def, trait_def, findings, count,
        );
    }
    let arity = Finding {
        class: 2,
        slot,
        offset: impl_def.trait_offset,
        length: impl_def.trait_length,
        a: trait_def.type_param_count,
        b: impl_def.type_arg_count,
    };
    add_finding(findings, count, arity)
}

// The impl in slot `slot`, if its trait is there.
fn check_impl(
    image: &[u8],
    starts: &[usize],
    frame: Frame,
    slot: usize,
    body: usize,
    findings: &mut [u32],
    count: u64,
) -> u64
    requires { SlotAsked image.now starts.now frame slot count × (part_at image.now starts.now slot ≡ Part.At 9 body) }
    ensures { Adds 65536 findings.old findings.new count result (slot_findings (schema_of frame.edition image.now) slot) }
{
    let impl_def = read_impl(image, body, frame.names);
    let trait_id = impl_def.trait_id as u64;
    if trait_id == 0 {
        return count;
    }
    if frame.slots < trait_id {
        return count;
    }
    match view::slot_part(image, starts, (trait_id - 1) as usize) {
        Part::At(kind, trait_body) => {
            if kind != 8 {
                return count;
            }
            let trait_def = read_trait(image, trait_body, frame.names);
            check_single_impl_conformance(
                image,
                starts,
                frame,
                slot as u32,
                impl_def,
                trait_def,
                findings,
                count,
            )
        }
        Part::Missing => count,
    }
}

fn check_slot(
    image: &[u8],
    starts: &[usize],
    frame: Frame,
    slot: usize,
    findings: &mut [u32],
    count: u64,
) -> u64
    requires { SlotAsked image.now starts.now frame slot count }
    ensures { Adds 65536 findings.old findings.new count result (slot_findings (schema_of frame.edition image.now) slot) }
{
    match view::slot_part(image, starts, slot) {
        Part::At(kind, body) => {
            if kind != 9 {
                return count;
            }
            check_impl(image, starts, frame, slot, body, findings, count)
        }
        Part::Missing => count,
    }
}

// All impls in the order of their slots: the count of findings, with those that the table held before.
pub fn check_impl_conformance(
    image: &[u8],
    starts: &[usize],
    frame: Frame,
    findings: &mut [u32],
    count: u64,
) -> u64
    requires { Promise image.now starts.now frame × (count ≤ 2 ^ 27) }
    ensures { Adds (2 ^ 25) findings.old findings.new count result (conformance_of (schema_of frame.edition image.now) 0 (schema_of frame.edition image.now).slots) }
{
    let mut n = count;
    for slot in 0..frame.slots as usize {
        n = check_slot(image, starts, frame, slot, findings, n);
    }
    n
}

fn is_impl(image: &[u8], starts: &[usize], slot: usize) -> bool
    ensures { (f : Frame) → Promise image.now starts.now f → slot < f.slots → result ≡ eqb (slot_kind (slot_of (schema_of f.edition image.now) slot)) 9 }
{
    match view::slot_part(image, starts, slot) {
        Part::At(kind, _) => kind == 9,
        Part::Missing => false,
    }
}

// Is there an impl? Most images have none.
pub fn has_impls(image: &[u8], starts: &[usize], frame: Frame) -> bool
    requires { Promise image.now starts.now frame }
    ensures { result ≡ has_impl (schema_of frame.edition image.now).slots }
{
    (0..frame.slots as usize).any(|slot| is_impl(image, starts, slot))
}
