// Widths and sizes.
#![tactic(auto)]

// Smallest and largest length in bits: Fixed has both equal, Open has no largest.
#[derive(Clone, Copy)]
pub enum Size {
    Fixed(u64),
    Bounded(u64, u64),
    Open(u64),
}

// What makes a size of others: adding them up, or taking one so many times.
#[derive(Clone, Copy)]
pub enum Operation {
    Sum,
    Product,
}

// The answer of working a type out: its size, or what made the first number that passed the limit.
#[derive(Clone, Copy)]
pub enum Worked {
    Sized(Size),
    Over(Operation),
}

// How fields follow one another: bit by bit, or each from a whole byte on, as on the head board.
#[derive(Clone, Copy)]
pub enum Layout {
    Packed,
    Aligned,
}
