// The running total of a message's fields, or of a variant's: smallest, largest and mark, lent to the step that adds a field.
#![tactic(auto)]

ghost use Rattle.std.specs.Prelude.{◌≡◌};
ghost use Rattle.sizes.specs.Sizes.{then, limited_sum, added};
ghost use Rattle.total.specs.Totals.{size_of, total_of, sum_of, total_after, step_of};

use sizes::{Operation, Size, Worked};

// The field was added, or what passed the limit.
#[derive(Clone, Copy)]
pub enum Step {
    On,
    Over(Operation),
}

// Of no fields.
pub fn empty_total() -> [u64; 3]
    ensures { result ≡ total_of (Size.Fixed 0) }
{
    [0, 0, 0]
}

fn total_of(size: Size) -> [u64; 3]
    ensures { result ≡ total_of size }
{
    match size {
        Size::Fixed(b) => [b, b, 0],
        Size::Bounded(l, h) => [l, h, 1],
        Size::Open(l) => [l, 0, 2],
    }
}

// The size that a total comes to.
pub fn total_size(total: [u64; 3]) -> Size
    ensures { result ≡ size_of total }
{
    let smallest = total[0];
    let largest = total[1];
    let mark = total[2];
    match mark {
        0 => Size::Fixed(smallest),
        1 => Size::Bounded(smallest, largest),
        _ => Size::Open(smallest),
    }
}

// The addition, by value.
fn add(total: Size, field: Worked) -> Worked
    ensures { result ≡ then field (λ s. limited_sum (added total s)) }
{
    match field {
        Worked::Sized(size) => measures::add_wire_size(total, size),
        Worked::Over(by) => Worked::Over(by),
    }
}

// The total is lent, and raised in place.
pub fn add_field(total: &mut [u64; 3], field: Worked) -> Step
    ensures { (total.new ≡ total_after total.old (sum_of total.old field)) × (result ≡ step_of (sum_of total.old field)) }
{
    match add(total_size(*total), field) {
        Worked::Sized(sum) => {
            *total = total_of(sum);
            Step::On
        }
        Worked::Over(by) => Step::Over(by),
    }
}
