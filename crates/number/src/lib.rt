// Numbers of the schema image.
#![tactic(auto)]

ghost use Rattle.std.specs.Prelude.{◌≡◌, ◌^◌};
ghost use Rattle.number.specs.Number.{number_at};
ghost use Rattle.number.specs.Shortest.{groups_of};
ghost use Rattle.number.specs.Grammar.{Role, below, number, many, counted, read};
ghost use Rattle.number.specs.Answers.{outcome, next, follow};

// A number with the position after it, or the refusal 2 or 3, whose place is the number's first byte.
#[derive(Clone, Copy)]
pub enum Number {
    Value(u64, usize),
    Refused(u8),
}

// A byte as a number.
pub fn wide(b: u8) -> u64
    ensures { result ≡ b }
{
    b as u64
}

pub fn read_number(image: &[u8], at: usize) -> Number
    ensures { result ≡ number_at image.now at }
{
    let mut sum: u64 = 0;
    let mut weight: u64 = 1;
    let mut least: u64 = 0;
    let mut p = at;
    let mut more: usize = 9;
    while 0 < more {
        if image.len() <= p {
            return Number::Refused(2);
        }
        let b = wide(image[p]);
        if b < least {
            return Number::Refused(3);
        }
        if b < 128 {
            return Number::Value(sum + weight * b, p + 1);
        }
        sum += weight * (b % 128);
        weight *= 128;
        least = 1;
        p += 1;
        more -= 1;
    }
    if image.len() <= p {
        return Number::Refused(2);
    }
    let last = wide(image[p]);
    if last == 1 {
        Number::Value(sum + weight, p + 1)
    } else {
        Number::Refused(3)
    }
}

// How many groups a number takes in its shortest form.
pub fn groups_of(number: u64) -> u64
    ensures { result ≡ groups_of number }
{
    let mut groups: u64 = 1;
    let mut rest = number;
    while 128 <= rest {
        rest /= 128;
        groups += 1;
    }
    groups
}

// A number in its range with the position after it, or a refusal, 2, 3 or 4, with its place.
#[derive(Clone, Copy)]
pub enum Ranged {
    Value(u64, usize),
    Refused(u8, usize),
}

// The position after what was read, or a refusal with its place.
#[derive(Clone, Copy)]
pub enum Next {
    At(usize),
    Refused(u8, usize),
}

// A number below a limit, of any length.
fn read_long(image: &[u8], at: usize, limit: u64) -> Ranged
    ensures { outcome result ≡ below limit image.now at }
{
    match read_number(image, at) {
        Number::Value(v, next) => {
            if v < limit {
                Ranged::Value(v, next)
            } else {
                Ranged::Refused(4, at)
            }
        }
        Number::Refused(r) => Ranged::Refused(r, at),
    }
}

// A number below a limit. Nearly all have one byte.
pub fn read_below(image: &[u8], at: usize, limit: u64) -> Ranged
    ensures { outcome result ≡ below limit image.now at }
{
    if at < image.len() {
        let b = wide(image[at]);
        if b < 128 {
            if b < limit {
                return Ranged::Value(b, at + 1);
            }
            return Ranged::Refused(4, at);
        }
    }
    read_long(image, at, limit)
}

// Any number.
pub fn read_whole(image: &[u8], at: usize) -> Ranged
    ensures { outcome result ≡ below (2 ^ 64) image.now at }
{
    match read_number(image, at) {
        Number::Value(v, next) => Ranged::Value(v, next),
        Number::Refused(r) => Ranged::Refused(r, at),
    }
}

// The position after a number below a limit.
pub fn skip_below(image: &[u8], at: usize, limit: u64) -> Next
    ensures { result ≡ next (below limit image.now at) }
{
    match read_below(image, at, limit) {
        Ranged::Value(_, next) => Next::At(next),
        Ranged::Refused(r, p) => Next::Refused(r, p),
    }
}

// The position after any number.
pub fn skip_whole(image: &[u8], at: usize) -> Next
    ensures { result ≡ next (below (2 ^ 64) image.now at) }
{
    match read_whole(image, at) {
        Ranged::Value(_, next) => Next::At(next),
        Ranged::Refused(r, p) => Next::Refused(r, p),
    }
}

// The same from a cursor: the position that was reached, or the refusal that was met on the way.
pub fn skip(image: &[u8], cursor: Next, limit: u64) -> Next
    ensures { (role : Role) → result ≡ follow cursor (λ n. next (read (number role limit) image.now n)) }
{
    match cursor {
        Next::At(p) => skip_below(image, p, limit),
        Next::Refused(r, q) => Next::Refused(r, q),
    }
}

// The position after so many numbers below a limit.
pub fn skip_numbers(image: &[u8], at: usize, count: u64, limit: u64) -> Next
    ensures { (role : Role) → result ≡ next (read (many count (number role limit)) image.now at) }
{
    let mut left = count;
    let mut p = at;
    while 0 < left {
        match read_below(image, p, limit) {
            Ranged::Value(_, next) => {
                p = next;
                left -= 1;
            }
            Ranged::Refused(r, q) => {
                return Next::Refused(r, q);
            }
        }
    }
    Next::At(p)
}

// The position after a count and so many numbers below a limit, from a cursor.
pub fn skip_counted(image: &[u8], cursor: Next, limit: u64) -> Next
    ensures { (role : Role) → result ≡ follow cursor (λ n. next (read (counted (number role limit)) image.now n)) }
{
    match cursor {
        Next::At(p) => match read_below(image, p, 65537) {
            Ranged::Value(count, after) => skip_numbers(image, after, count, limit),
            Ranged::Refused(r, q) => Next::Refused(r, q),
        },
        Next::Refused(r, q) => Next::Refused(r, q),
    }
}
