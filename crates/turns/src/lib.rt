// The turns of the check: declared messages and unions in order, each worked out and stored; and the size table.
#![tactic(auto)]

ghost use Rattle.std.specs.Prelude.{◌≡◌, List, ℕ, ◌*◌, ◌≤◌, length};
ghost use Rattle.std.proofs.lemmas.List.Edits.{sets};
ghost use Rattle.reader.specs.Reading.{schema_of};
ghost use Rattle.reader.specs.Promise.{Promise};
ghost use Rattle.sizes.specs.Sizes.{refusal_of};
ghost use Rattle.sizes.specs.Names.{State};
ghost use Rattle.sizes.specs.Check.{brought, table_of};
ghost use Rattle.settling.specs.Steps.{frame_of};
ghost use Rattle.wiresize.specs.Asked.{Held};
ghost use Rattle.turns.specs.Sizing.{layout_of, gated, worked_in, Answered, SizesSaid, Begun, TurnTaken, Through};

use graph::Lowest;
use image::Frame;
use number::Ranged;
use reader::Reading;
use settling::Scope;
use sizes::{Layout, Operation};
use slot::Edition;
use wiresize::Turned;

// Which check is asked for: the ordinary one, or that of the head board, which starts every field on a whole byte.
#[derive(Clone, Copy)]
pub enum Entry {
    Ordinary,
    HeadBoard,
}

// Accepted, or a refusal, from 1 to 11, 14 or 15, with its place.
#[derive(Clone, Copy)]
pub enum Sizing {
    Accepted,
    Refused(u8, u64),
}

// The number of a refusal at the limit.
fn refusal_of(by: Operation) -> u8
    ensures { result ≡ refusal_of by }
{
    match by {
        Operation::Sum => 11,
        Operation::Product => 14,
    }
}

fn layout_of(entry: Entry) -> Layout
    ensures { result ≡ layout_of entry }
{
    match entry {
        Entry::Ordinary => Layout::Packed,
        Entry::HeadBoard => Layout::Aligned,
    }
}

// What an entry refuses of an accepted image before any size is worked out.
fn gate(image: &[u8], starts: &[usize], frame: Frame, entry: Entry) -> Sizing
    requires { Promise image.now starts.now frame }
    ensures { result ≡ gated entry (schema_of frame.edition image.now) Sizing.Accepted }
{
    match entry {
        Entry::Ordinary => Sizing::Accepted,
        Entry::HeadBoard => match rows::lowest_stored(image, starts, frame) {
            Lowest::At(slot) => Sizing::Refused(15, slot as u64),
            Lowest::Nowhere => Sizing::Accepted,
        },
    }
}

// One place of the declaration list, or what made the first number above the limit.
fn take_turn(
    image: &[u8],
    starts: &[usize],
    scope: Scope,
    rows: &mut [u64],
    slot: u64,
) -> Result<(), Operation>
    requires { Promise image.now starts.now (frame_of scope) × (3 * scope.slots ≤ length rows.old) × Held (schema_of scope.edition image.now) rows.old }
    ensures { (l : List ℕ) (st : State) → 3 * length (schema_of scope.edition image.now).slots ≤ length l → rows.old ≡ sets l 0 (table_of (schema_of scope.edition image.now) st) → TurnTaken scope.layout (schema_of scope.edition image.now) st slot l rows.new result }
{
    if scope.slots <= slot {
        return Ok(());
    }
    let i = slot as usize;
    match wiresize::own_size(image, starts, scope, rows, i) {
        Turned::Sized(size) => {
            rows::put_row(rows, i, rows::size_row(size));
            Ok(())
        }
        Turned::Over(by) => Err(by),
        Turned::Other => Ok(()),
    }
}

// All places in order, or what made the first number above the limit, and at which slot's turn.
fn take_turns(
    image: &[u8],
    starts: &[usize],
    scope: Scope,
    rows: &mut [u64],
) -> Result<(), (Operation, u64)>
    requires { Promise image.now starts.now (frame_of scope) × (3 * scope.slots ≤ length rows.old) × Begun (schema_of scope.edition image.now) rows.old }
    ensures { (l : List ℕ) → 3 * length (schema_of scope.edition image.now).slots ≤ length l → rows.old ≡ sets l 0 (table_of (schema_of scope.edition image.now) (brought (schema_of scope.edition image.now))) → Through scope.layout (schema_of scope.edition image.now) l rows.new result }
{
    let mut p = scope.declared;
    for _ in 0..scope.declarations {
        let Ranged::Value(slot, after) = number::read_below(image, p, 4294967296) else {
            return Ok(());
        };
        take_turn(image, starts, scope, rows, slot).map_err(|by| (by, slot))?;
        p = after;
    }
    Ok(())
}

// Refusals 10, 11 and 14, or the table. The rows are worked on where the caller finds them.
fn work_out(
    image: &[u8],
    starts: &[usize],
    frame: Frame,
    layout: Layout,
    sizes: &mut [u64],
) -> Sizing
    requires { Promise image.now starts.now frame }
    ensures { SizesSaid layout (schema_of frame.edition image.now) (worked_in layout (length sizes.old) (schema_of frame.edition image.now)) sizes.old sizes.new result }
{
    // Made ahead of its use: read back at once, it would wait for its own stores.
    let edition = frame.edition;
    let scope = Scope {
        edition,
        layout,
        names: frame.names,
        finds: frame.finds,
        slots: frame.slots,
        declarations: frame.declarations,
        declared: frame.declared,
    };
    table::clear(sizes);
    if (sizes.len() as u64) < 3 * frame.slots {
        return Sizing::Refused(10, 0);
    }
    rows::fill_rows(image, starts, frame, sizes);
    match take_turns(image, starts, scope, sizes) {
        Ok(()) => Sizing::Accepted,
        Err((by, slot)) => {
            table::clear(sizes);
            Sizing::Refused(refusal_of(by), slot)
        }
    }
}

// An accepted image: what its entry refuses, then its sizes.
pub fn size_slots(
    image: &[u8],
    starts: &[usize],
    frame: Frame,
    entry: Entry,
    sizes: &mut [u64],
) -> Sizing
    requires { Promise image.now starts.now frame }
    ensures { SizesSaid (layout_of entry) (schema_of frame.edition image.now) (gated entry (schema_of frame.edition image.now) (worked_in (layout_of entry) (length sizes.old) (schema_of frame.edition image.now))) sizes.old sizes.new result }
{
    if let Sizing::Refused(number, place) = gate(image, starts, frame, entry) {
        table::clear(sizes);
        return Sizing::Refused(number, place);
    }
    work_out(image, starts, frame, layout_of(entry), sizes)
}

// Widths and sizes of an image of edition one: the answer, and three numbers a slot in the lent table.
pub fn compute_sizes(image: &[u8], sizes: &mut [u64]) -> Sizing
    ensures { Answered Entry.Ordinary Edition.One image.now sizes.old sizes.new result }
{
    let mut starts = [0usize; 512];
    match reader::read_into(image, Edition::One, &mut starts) {
        Reading::Accepted(frame) => {
            let count = frame.slots as usize;
            size_slots(image, &starts[0..count], frame, Entry::Ordinary, sizes)
        }
        Reading::Refused(r, q) => {
            table::clear(sizes);
            Sizing::Refused(r, q as u64)
        }
    }
}
