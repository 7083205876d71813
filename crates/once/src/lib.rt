// What declared messages and unions are made of, in an order in which the parts of each slot stand before it, so that each is worked
// out once, by the answers of its parts.
#![tactic(auto)]

ghost use Rattle.reader.specs.Reading.{schema_of};
ghost use Rattle.reader.specs.Promise.{Promise};
ghost use Rattle.settling.specs.Steps.{frame_of};
ghost use Rattle.once.specs.Once.{Blank, Arranges, Prepared, AllWorked};

use graph::Lowest;
use image::Frame;
use reach::Walked;
use settling::Scope;

// The lowest slot that is reached and leads back to itself, or how many slots stand in order.
#[derive(Clone, Copy)]
pub enum Arranged {
    Loop(usize),
    Order(usize),
}

// Marks declared messages and unions, and puts all that they are made of in order.
pub fn arrange_slots(
    image: &[u8],
    starts: &[usize],
    frame: Frame,
    declared: &mut [bool],
    leads: &mut [u64],
    seen: &mut [bool],
    stack: &mut [u16],
    order: &mut [u16],
) -> Arranged
    requires { Promise image.now starts.now frame × Blank frame.slots declared.old leads.old seen.old stack.old order.old }
    ensures { Arranges (schema_of frame.edition image.now) frame.slots declared.new order.new result }
{
    let count = frame.slots as usize;
    marks::mark_starts(image, starts, frame, declared);
    marks::mark_parts(image, starts, frame, leads);
    match reach::arrange(leads, count, declared, &mut seen[..count], stack, order) {
        Walked::Done(sorted) => Arranged::Order(sorted),
        Walked::Back(_) => match reach::lowest_back(leads, count, declared) {
            Lowest::At(slot) => Arranged::Loop(slot),
            Lowest::Nowhere => Arranged::Order(0),
        },
    }
}

// Works each slot of the order out, and counts the type nodes that it visits.
pub fn work_all(
    image: &[u8],
    starts: &[usize],
    scope: Scope,
    rows: &[u64],
    answers: &mut [u64],
    order: &[u16],
    sorted: usize,
) -> u64
    requires { Prepared image.now starts.now (frame_of scope) rows.now answers.old order.now sorted }
    ensures { AllWorked scope.layout (schema_of scope.edition image.now) scope.slots answers.new result }
{
    let mut visits = 0;
    for slot in &order[..sorted] {
        visits += level::work_slot(image, starts, scope, rows, answers, usize::from(*slot));
    }
    visits
}
