// Reading an image: accepted, with where its parts stand, or refused with a number from 1 to 9 and a place.
#![tactic(auto)]

ghost use Rattle.std.specs.Prelude.{◌≡◌, List, ℕ, ◌≤◌, length};
ghost use Rattle.number.specs.Grammar.{slot, number, many, done, read};
ghost use Rattle.slot.specs.declared.Edition.{Edition};
ghost use Rattle.image.specs.Finds.{finds_at};
ghost use Rattle.loops.specs.Leads.{loop_of};
ghost use Rattle.loops.specs.Located.{slots_of, Located};
ghost use Rattle.reader.specs.Reading.{lost_name, or_refuse, judged, schema_of};
ghost use Rattle.reader.specs.Promise.{Seen, Answered, ReadsAs};
ghost use Rattle.reader.specs.Lost.{lost_at};

use graph::Lowest;
use image::{Frame, Framed};
use number::Ranged;
use slot::Edition;
use tree::Sort;
use view::Part;

#[derive(Clone, Copy)]
pub enum Reading {
    Accepted(Frame),
    Refused(u8, usize),
}

// An answer, with the table of where the slots start.
#[derive(Clone, Copy)]
pub struct Read {
    pub answer: Reading,
    pub starts: [usize; 512],
}

// Does a name that finds slot + 1 find one that is empty or beyond the slots?
fn is_lost(image: &[u8], starts: &[usize], find: u64) -> bool
    ensures { result ≡ lost_at image.now starts.now find }
{
    if find == 0 {
        return false;
    }
    match view::slot_part(image, starts, (find - 1) as usize) {
        Part::At(kind, _) => kind == 0,
        Part::Missing => true,
    }
}

// Refusal 7. What the names find stands at `finds`.
fn lost_name(image: &[u8], starts: &[usize], count: usize, names: u64, finds: usize) -> Lowest
    requires { (ed : Edition) × Located ed names count image.now starts.now }
    ensures { (ed : Edition) → Located ed names count image.now starts.now → (fs : List ℕ) (n : ℕ) → read (many names (number slot 513)) image.now finds ≡ done fs n → result ≡ lost_name fs (slots_of ed names count image.now starts.now) }
{
    let mut p = finds;
    let mut n: u64 = 0;
    while n < names {
        match number::read_below(image, p, 513) {
            Ranged::Value(find, after) => {
                if is_lost(image, starts, find) {
                    return Lowest::At(n as usize);
                }
                p = after;
                n += 1;
            }
            Ranged::Refused(_, q) => {
                return Lowest::Nowhere;
            }
        }
    }
    Lowest::Nowhere
}

// The lowest slot on a loop. Most images have no slot that could be on one, and need no table.
fn looped(
    image: &[u8],
    starts: &[usize],
    count: usize,
    names: u64,
    finds: usize,
    sort: Sort,
) -> Lowest
    requires { (names ≤ 4096) × ((ed : Edition) × Located ed names count image.now starts.now) }
    ensures { (ed : Edition) → Located ed names count image.now starts.now → result ≡ loop_of sort (finds_at names image.now finds) (slots_of ed names count image.now starts.now) count }
{
    if loops::none_leads(image, starts, count, sort) {
        return Lowest::Nowhere;
    }
    loops::lowest_looped(image, starts, count, names, finds, sort)
}

// A refusal where something was found, else what comes after.
fn or_refuse(number: u8, found: Lowest, after: Reading) -> Reading
    ensures { result ≡ or_refuse number found after }
{
    match found {
        Lowest::At(p) => Reading::Refused(number, p),
        Lowest::Nowhere => after,
    }
}

// Refusals 7, 8 and 9, in this order.
fn judge(image: &[u8], starts: &[usize], frame: Frame) -> Reading
    requires { Seen image.now starts.now frame }
    ensures { result ≡ judged (schema_of frame.edition image.now) frame }
{
    let names = frame.names;
    let finds = frame.finds;
    let count = frame.slots as usize;
    let lost = lost_name(image, starts, count, names, finds);
    let newtype = looped(image, starts, count, names, finds, Sort::Resolved);
    let alias = looped(image, starts, count, names, finds, Sort::Expression);
    let last = or_refuse(9, alias, Reading::Accepted(frame));
    or_refuse(7, lost, or_refuse(8, newtype, last))
}

// Reads an image into a table of where its slots start, as far as they are read. The layers above are handed as many places as
// there are slots.
pub fn read_into(image: &[u8], edition: Edition, starts: &mut [usize]) -> Reading
    requires { 512 ≤ length starts.old }
    ensures { Answered edition image.now starts.old starts.new result }
{
    match image::read_image(image, edition, starts) {
        Framed::Read(frame) => {
            let count = frame.slots as usize;
            judge(image, &starts[0..count], frame)
        }
        Framed::Refused(r, q) => Reading::Refused(r, q),
    }
}

// The answer, and the table of where the slots start, which is all zero on a refusal.
fn read_edition(image: &[u8], edition: Edition) -> Read
    ensures { ReadsAs edition image.now result.answer result.starts }
{
    let mut starts = [0usize; 512];
    match read_into(image, edition, &mut starts) {
        Reading::Accepted(frame) => Read {
            answer: Reading::Accepted(frame),
            starts,
        },
        Reading::Refused(r, q) => Read {
            answer: Reading::Refused(r, q),
            starts: [0usize; 512],
        },
    }
}

// Reads an image of edition one.
pub fn read_schema(image: &[u8]) -> Read
    ensures { ReadsAs Edition.One image.now result.answer result.starts }
{
    read_edition(image, Edition::One)
}

// Reads an image of edition two.
pub fn read_schema_two(image: &[u8]) -> Read
    ensures { ReadsAs Edition.Two image.now result.answer result.starts }
{
    read_edition(image, Edition::Two)
}
