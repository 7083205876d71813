// Loops of a graph of up to 512 numbers, held as rows of bits: eight words a row, and place b of row a says that a leads to b.
#![tactic(auto)]

ghost use Rattle.std.specs.Prelude.{◌≡◌, ◌↔◌, true, ◌+◌, ◌*◌, ◌<◌, ◌≤◌, length};
ghost use Rattle.graph.specs.Ways.{lowest, lowest_looped};
ghost use Rattle.graph.specs.Table.{grid, Marked, Joined, Round, Closed, Unmarked};

#[derive(Clone, Copy)]
pub enum Lowest {
    At(usize),
    Nowhere,
}

// `a` leads to `b`. A number past the last place is passed over, so that callers need not test it.
pub fn mark(rows: &mut [u64], a: usize, b: u64)
    requires { a * 8 + 8 ≤ length rows.old }
    ensures { Marked rows.old a b rows.new }
{
    if b < 512 {
        let at = a * 8 + (b / 64) as usize;
        rows[at] |= 1 << (b % 64);
    }
}

pub fn leads(rows: &[u64], a: usize, b: usize) -> bool
    requires { (a * 8 + 8 ≤ length rows.now) × (b < 512) }
    ensures { result ≡ grid rows.now a b }
{
    (rows[a * 8 + b / 64] >> (b % 64)) % 2 == 1
}

// Has a row no mark?
fn row_is_empty(rows: &[u64], a: usize) -> bool
    requires { a * 8 + 8 ≤ length rows.now }
    ensures { (result ≡ true) ↔ Unmarked rows.now a }
{
    rows[a * 8..a * 8 + 8].iter().all(|word| *word == 0)
}

// Row `i` takes in what row `k` has.
fn join_rows(rows: &mut [u64], i: usize, k: usize)
    requires { (i * 8 + 8 ≤ length rows.old) × (k * 8 + 8 ≤ length rows.old) }
    ensures { Joined rows.old i k rows.new }
{
    for j in 0..8 {
        rows[i * 8 + j] |= rows[k * 8 + j];
    }
}

// Each row that has `k` takes in what row `k` has. An empty row, as most are, is passed over.
fn pass(rows: &mut [u64], k: usize, count: usize)
    requires { (count * 8 ≤ length rows.old) × (k < count) × (count ≤ 512) }
    ensures { Round rows.old k count rows.new }
{
    if row_is_empty(rows, k) {
        return;
    }
    for i in 0..count {
        if leads(rows, i, k) {
            join_rows(rows, i, k);
        }
    }
}

// Each row then has all that its number leads to, by however many steps.
pub fn close(rows: &mut [u64], count: usize)
    requires { (count * 8 ≤ length rows.old) × (count ≤ 512) }
    ensures { Closed rows.old count count rows.new }
{
    for k in 0..count {
        pass(rows, k, count);
    }
}

// The lowest number that its own row has.
fn lowest_mark(rows: &[u64], count: usize) -> Lowest
    requires { (count * 8 ≤ length rows.now) × (count ≤ 512) }
    ensures { result ≡ lowest (λ i. grid rows.now i i) count 0 }
{
    for i in 0..count {
        if leads(rows, i, i) {
            return Lowest::At(i);
        }
    }
    Lowest::Nowhere
}

// The lowest number below `count` that leads back to itself. The rows below `count` then have all that their numbers lead to.
pub fn lowest_on_loop(rows: &mut [u64], count: usize) -> Lowest
    requires { (count * 8 ≤ length rows.old) × (count ≤ 512) }
    ensures answer { result ≡ lowest_looped (grid rows.old) count }
    ensures table { Closed rows.old count count rows.new }
{
    close(rows, count);
    lowest_mark(rows, count)
}
