// Refusals 8 and 9: newtypes that lead back to themselves by their terminal types, and aliases by the generics of their
// targets.
#![tactic(auto)]

ghost use Rattle.std.specs.Prelude.{◌≡◌, List, ℕ, ◌+◌, ◌*◌, ◌<◌, ◌≤◌, length};
ghost use Rattle.tree.specs.Tree.{Leaf, leaf, leaf_kind, leaf_number};
ghost use Rattle.slot.specs.declared.Edition.{Edition};
ghost use Rattle.loops.specs.Leads.{tree_slots, leads, loop_of};
ghost use Rattle.loops.specs.Located.{slots_of, Located};
ghost use Rattle.view.specs.Part.{part_at};
ghost use Rattle.image.specs.Finds.{finds_at};
ghost use Rattle.loops.specs.Marks.{lead_kind, part_leads, none_leads, used_names, enters, name_slots, Led, TreeMarked, SlotMarked, Filled};

use graph::Lowest;
use tree::{Head, Sort};
use view::Part;

// Does a kind's child lead on? In types, elements of Array, Set and Map do not.
fn goes_in(sort: Sort, kind: u64) -> bool
    ensures { result ≡ enters sort kind }
{
    match sort {
        Sort::Resolved => !matches!(kind, 5 | 7 | 8),
        Sort::Expression => true,
    }
}

// A type's name is a slot.
fn mark_leaf(sort: Sort, kind: u64, number: u64, rows: &mut [u64], row: usize)
    requires { row * 8 + 8 ≤ length rows.old }
    ensures { (finds : List ℕ) (l : Leaf) → leaf_kind l ≡ kind → leaf_number l ≡ number → Led rows.old row (tree_slots sort finds (leaf l)) rows.new }
{
    if matches!(sort, Sort::Resolved) && kind == 3 {
        graph::mark(rows, row, number);
    }
}

// A generic leads to the slot that its name finds.
fn mark_generic(sort: Sort, name: u64, finds: &[u16], rows: &mut [u64], row: usize)
    requires { row * 8 + 8 ≤ length rows.old }
    ensures { Led rows.old row (name_slots sort finds.now name) rows.new }
{
    if matches!(sort, Sort::Expression) && name < finds.len() as u64 {
        let find = u64::from(finds[name as usize]);
        if 0 < find {
            graph::mark(rows, row, find - 1);
        }
    }
}

// Marks what a tree leads to, and gives the position after it.
pub fn mark_tree(
    image: &[u8],
    at: usize,
    levels: usize,
    sort: Sort,
    names: u64,
    finds: &[u16],
    rows: &mut [u64],
    row: usize,
) -> usize
    requires { row * 8 + 8 ≤ length rows.old }
    ensures { TreeMarked sort names levels finds.now row image.now at rows.old rows.new result }
{
    if levels == 0 {
        return at;
    }
    match tree::read_head(image, at, sort, names) {
        Head::Leaf(kind, _, number, after) => {
            mark_leaf(sort, kind, number, rows, row);
            after
        }
        Head::One(kind, body) => {
            if goes_in(sort, kind) {
                mark_tree(image, body, levels - 1, sort, names, finds, rows, row)
            } else {
                view::place_of(tree::read_tree(image, body, levels - 1, sort, names))
            }
        }
        Head::Two(kind, body) => {
            if goes_in(sort, kind) {
                let second = mark_tree(image, body, levels - 1, sort, names, finds, rows, row);
                mark_tree(image, second, levels - 1, sort, names, finds, rows, row)
            } else {
                let second = view::place_of(tree::read_tree(image, body, levels - 1, sort, names));
                view::place_of(tree::read_tree(image, second, levels - 1, sort, names))
            }
        }
        Head::Sized(body) => {
            let size = mark_tree(image, body, levels - 1, sort, names, finds, rows, row);
            view::place_of(number::skip_whole(image, size))
        }
        Head::Generic(name, body) => {
            mark_generic(sort, name, finds, rows, row);
            mark_tree(image, body, levels - 1, sort, names, finds, rows, row)
        }
        Head::Refused(_, p) => p,
    }
}

// The kind of the slots that lead on.
fn lead_kind(sort: Sort) -> u64
    ensures { result ≡ lead_kind sort }
{
    match sort {
        Sort::Resolved => 5,
        Sort::Expression => 7,
    }
}

// Is slot i of that kind?
fn is_lead(image: &[u8], starts: &[usize], i: usize, sort: Sort) -> bool
    ensures { result ≡ part_leads sort (part_at image.now starts.now i) }
{
    match view::slot_part(image, starts, i) {
        Part::At(kind, _) => kind == lead_kind(sort),
        Part::Missing => false,
    }
}

// A newtype leads on by its terminal type, and an alias by its target: both stand inside the slot.
fn slot_row(
    image: &[u8],
    starts: &[usize],
    sort: Sort,
    names: u64,
    finds: &[u16],
    rows: &mut [u64],
    row: usize,
)
    requires { row * 8 + 8 ≤ length rows.old }
    ensures { SlotMarked sort names finds.now row image.now starts.now rows.old rows.new }
{
    if is_lead(image, starts, row, sort) {
        let start = view::slot_inside(image, starts, row);
        mark_tree(image, start, 32, sort, names, finds, rows, row);
    }
}

fn fill_rows(
    image: &[u8],
    starts: &[usize],
    count: usize,
    names: u64,
    finds: &[u16],
    sort: Sort,
    rows: &mut [u64],
)
    requires { (count * 8 ≤ length rows.old) × ((ed : Edition) × Located ed names count image.now starts.now) }
    ensures { (ed : Edition) → Located ed names count image.now starts.now → Filled rows.old (leads sort finds.now (slots_of ed names count image.now starts.now)) count rows.new }
{
    for i in 0..count {
        slot_row(image, starts, sort, names, finds, rows, i);
    }
}

// Is no slot of the kind that leads on? Then none is on a loop.
pub fn none_leads(image: &[u8], starts: &[usize], count: usize, sort: Sort) -> bool
    requires { (ed : Edition) × (names : ℕ) × Located ed names count image.now starts.now }
    ensures { (ed : Edition) (names : ℕ) → Located ed names count image.now starts.now → result ≡ none_leads sort (slots_of ed names count image.now starts.now) count }
{
    !(0..count).any(|i| is_lead(image, starts, i, sort))
}

// The lowest slot on a loop, once what the names find stands in a table.
fn looped_in(
    image: &[u8],
    starts: &[usize],
    count: usize,
    names: u64,
    finds: &[u16],
    sort: Sort,
) -> Lowest
    requires { (ed : Edition) × Located ed names count image.now starts.now }
    ensures { (ed : Edition) → Located ed names count image.now starts.now → result ≡ loop_of sort finds.now (slots_of ed names count image.now starts.now) count }
{
    let mut rows = [0u64; 4096];
    fill_rows(image, starts, count, names, finds, sort, &mut rows);
    graph::lowest_on_loop(&mut rows, count)
}

// Only expressions ask what names find.
fn names_used(names: u64, sort: Sort) -> u64
    ensures { result ≡ used_names sort names }
{
    match sort {
        Sort::Resolved => 0,
        Sort::Expression => names,
    }
}

// The lowest slot on a loop: of newtypes by their terminal types, of aliases by the generics of their targets. What the
// names find stands at `finds`.
pub fn lowest_looped(
    image: &[u8],
    starts: &[usize],
    count: usize,
    names: u64,
    finds: usize,
    sort: Sort,
) -> Lowest
    requires { (names ≤ 4096) × ((ed : Edition) × Located ed names count image.now starts.now) }
    ensures { (ed : Edition) → Located ed names count image.now starts.now → result ≡ loop_of sort (finds_at names image.now finds) (slots_of ed names count image.now starts.now) count }
{
    let used = names_used(names, sort);
    let mut table = [0u16; 4096];
    image::read_finds(image, finds, used, &mut table);
    let end = used as usize;
    looped_in(image, starts, count, names, &table[0..end], sort)
}
