// The whole image: names, slots, declarations.
#![tactic(auto)]

ghost use Rattle.std.specs.Prelude.{◌≡◌, List, ℕ, set};
ghost use Rattle.std.proofs.lemmas.List.Edits.{sets};
ghost use Rattle.number.specs.Grammar.{many, done, read};
ghost use Rattle.number.specs.Answers.{next};
ghost use Rattle.image.specs.Finds.{finds_at};
ghost use Rattle.image.specs.Image.{Placed, placed_at, starts_of, readable, readable_slots, front_at, declared_at, front_with, end_at, whole, image_of, framed, fronted, ended};

use number::{Next, Ranged};
use slot::Edition;

// The edition of an image, and where its parts stand: how many names, and the position of what they find; how many slots; how many
// declarations, and their position.
#[derive(Clone, Copy)]
pub struct Frame {
    pub edition: Edition,
    pub names: u64,
    pub finds: usize,
    pub slots: u64,
    pub declarations: u64,
    pub declared: usize,
}

#[derive(Clone, Copy)]
pub enum Framed {
    Read(Frame),
    Refused(u8, usize),
}

// The count of names, the position of what they find, the count of slots, and the position of the first slot.
#[derive(Clone, Copy)]
pub enum Fronted {
    Read(u64, usize, u64, usize),
    Refused(u8, usize),
}

// The count of declarations, their position, and the position after them.
#[derive(Clone, Copy)]
pub enum Ended {
    Read(u64, usize, usize),
    Refused(u8, usize),
}

fn read_front(image: &[u8]) -> Fronted
    ensures { result ≡ fronted (read front_at image.now 0) }
{
    match number::read_below(image, 0, 4097) {
        Ranged::Value(names, finds) => match number::skip_numbers(image, finds, names, 513) {
            Next::At(p) => match number::read_below(image, p, 513) {
                Ranged::Value(count, at) => Fronted::Read(names, finds, count, at),
                Ranged::Refused(r, q) => Fronted::Refused(r, q),
            },
            Next::Refused(r, q) => Fronted::Refused(r, q),
        },
        Ranged::Refused(r, q) => Fronted::Refused(r, q),
    }
}

fn read_declared(image: &[u8], at: usize) -> Ended
    ensures { result ≡ ended (read declared_at image.now at) }
{
    match number::read_below(image, at, 1025) {
        Ranged::Value(count, p) => match number::skip_numbers(image, p, count, 4294967296) {
            Next::At(end) => Ended::Read(count, p, end),
            Next::Refused(r, q) => Ended::Refused(r, q),
        },
        Ranged::Refused(r, q) => Ended::Refused(r, q),
    }
}

// A place past the table's end is left out.
fn note(starts: &mut [usize], i: u64, p: usize)
    ensures { starts.new ≡ set starts.old i p }
{
    if i < starts.len() as u64 {
        starts[i as usize] = p;
    }
}

// The position after the slots; where each starts is written into a table, as far as they are read.
fn read_slots(
    image: &[u8],
    at: usize,
    edition: Edition,
    count: u64,
    names: u64,
    starts: &mut [usize],
) -> Next
    ensures end { result ≡ next (read (many count (placed_at edition names)) image.now at) }
    ensures table { starts.new ≡ sets starts.old 0 (starts_of (readable count (placed_at edition names) image.now at)) }
{
    let mut p = at;
    let mut i: u64 = 0;
    while i < count {
        match slot::read_slot(image, p, edition, names) {
            Next::At(after) => {
                note(starts, i, p);
                p = after;
                i += 1;
            }
            Next::Refused(r, q) => {
                return Next::Refused(r, q);
            }
        }
    }
    Next::At(p)
}

// What stands after the slots.
fn read_end(
    image: &[u8],
    at: usize,
    edition: Edition,
    names: u64,
    finds: usize,
    slots: u64,
) -> Framed
    ensures { (fs : List ℕ) (ss : List Placed) → result ≡ framed (whole image.now (read (end_at edition (front_with names finds fs slots) ss) image.now at)) }
{
    match read_declared(image, at) {
        Ended::Read(declarations, declared, end) => {
            if end < image.len() {
                return Framed::Refused(6, end);
            }
            Framed::Read(Frame {
                edition,
                names,
                finds,
                slots,
                declarations,
                declared,
            })
        }
        Ended::Refused(r, q) => Framed::Refused(r, q),
    }
}

// Refusals 1 to 6. Where the slots start is written into a table, as far as they are read and the table reaches.
pub fn read_image(image: &[u8], edition: Edition, starts: &mut [usize]) -> Framed
    ensures answer { result ≡ framed (image_of edition image.now) }
    ensures table { starts.new ≡ sets starts.old 0 (starts_of (readable_slots edition image.now)) }
{
    if 65536 < image.len() {
        return Framed::Refused(1, 0);
    }
    match read_front(image) {
        Fronted::Read(names, finds, count, at) => match read_slots(
            image, at, edition, count, names, starts,
        ) {
            Next::At(p) => read_end(image, p, edition, names, finds, count),
            Next::Refused(r, q) => Framed::Refused(r, q),
        },
        Fronted::Refused(r, q) => Framed::Refused(r, q),
    }
}

// A place past the table's end is left out.
fn note_find(finds: &mut [u16], i: u64, find: u16)
    ensures { finds.new ≡ set finds.old i find }
{
    if i < finds.len() as u64 {
        finds[i as usize] = find;
    }
}

// What each of so many names finds, written into a table as far as it reaches; where one does not read, those before it.
pub fn read_finds(image: &[u8], at: usize, count: u64, finds: &mut [u16])
    ensures { finds.new ≡ sets finds.old 0 (finds_at count image.now at) }
{
    let mut p = at;
    let mut i: u64 = 0;
    while i < count {
        match number::read_below(image, p, 513) {
            Ranged::Value(find, after) => {
                note_find(finds, i, find as u16);
                p = after;
                i += 1;
            }
            Ranged::Refused(_, q) => {
                return;
            }
        }
    }
}
