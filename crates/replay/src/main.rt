// Replays two files that the Rust check wrote. `answers` has for each image its bytes, the refusal's number or 0, its place or
// the count of slots, and the slot starts. `lines` has for each image its bytes and the text that vexcheck has to write. Every
// image that is answered otherwise is named; the answers are counted.
#![tactic(auto)]

ghost use Rattle.std.specs.Prelude.{◌<◌, ◌≤◌, length, IfOk, IfSome};
ghost use Rattle.replay.specs.Compared.{Compared};

use std::fs::File;
use std::io;
use std::io::Read;

// What a file records of an image: how it is read, or the text that is written for it.
#[derive(Clone, Copy)]
enum Kind {
    Reading,
    Text,
}

// Whether an image is answered as recorded, and then with which number.
#[derive(Clone, Copy)]
enum Outcome {
    Same(u64),
    Differs,
}

// The file has less than it says.
#[derive(Clone, Copy)]
struct CutOff;

// Reads until the buffer is full, the file ends or a read fails. Answers how many bytes it put at the front.
fn read_full<R: Read>(input: &mut R, buf: &mut [u8]) -> usize
    ensures { result ≤ length buf.new }
{
    let mut done = 0;
    while done < buf.len() {
        match input.read(&mut buf[done..]) {
            Ok(0) | Err(_) => break,
            Ok(n) => done += n,
        }
    }
    done
}

fn read4<R: Read>(input: &mut R) -> u64 {
    let mut b = [0u8; 4];
    read_full(input, &mut b);
    u64::from(u32::from_le_bytes(b))
}

fn read8<R: Read>(input: &mut R) -> u64 {
    let mut b = [0u8; 8];
    read_full(input, &mut b);
    u64::from_le_bytes(b)
}

// A length, and as many bytes to the front of the buffer; nothing at the file's end.
fn read_part<R: Read>(input: &mut R, buf: &mut [u8]) -> Result<Option<usize>, CutOff>
    ensures { IfOk result (λ part. IfSome part (λ n. n ≤ length buf.new)) }
{
    let mut head = [0u8; 4];
    let got = read_full(input, &mut head);
    if got == 0 {
        return Ok(None);
    }
    let n = u32::from_le_bytes(head) as usize;
    if got < 4 || buf.len() < n {
        return Err(CutOff);
    }
    if read_full(input, &mut buf[..n]) < n {
        return Err(CutOff);
    }
    Ok(Some(n))
}

// Are the recorded starts those of the table? All of them are read, so that the next image follows.
fn same_starts<R: Read>(input: &mut R, starts: &[usize], count: u64) -> bool {
    let mut same = true;
    for (i, start) in starts.iter().enumerate() {
        let expected = if (i as u64) < count { read4(input) } else { 0 };
        same &= expected == *start as u64;
    }
    same
}

fn compare_reading<R: Read>(input: &mut R, image: &[u8]) -> Outcome {
    let number = read8(input);
    let value = read8(input);
    let mut starts = [1usize; 512];
    let answer = vexil::vexil_read(image, &mut starts);
    let count = if number == 0 { value } else { 0 };
    let same = same_starts(input, &starts, count);
    if same && answer.number == number && answer.value == value {
        Outcome::Same(number)
    } else {
        Outcome::Differs
    }
}

fn digit(x: u8) -> u64
    ensures { result < 256 }
{
    u64::from(x.saturating_sub(b'0'))
}

// The number in "vexil-typeck 1\nrefused NUMBER PLACE\n", which is below 100; 0 for any other text.
fn number_in(text: &[u8]) -> u64 {
    if text.len() < 25 || text[15] != b'r' {
        return 0;
    }
    let first = digit(text[23]);
    if text[24] == b' ' {
        return first;
    }
    first * 10 + digit(text[24])
}

fn same_text(image: &[u8], text: &[u8]) -> Outcome
    ensures { Compared image.now text.now result }
{
    let mut out = [0u8; 180000];
    let used = report::report(image, &mut out);
    if &out[..used] == text {
        Outcome::Same(number_in(text))
    } else {
        Outcome::Differs
    }
}

fn compare_text<R: Read>(input: &mut R, image: &[u8]) -> Result<Outcome, CutOff> {
    let mut text = [0u8; 180000];
    let n = read_part(input, &mut text)?.ok_or(CutOff)?;
    Ok(same_text(image, &text[..n]))
}

fn compare<R: Read>(input: &mut R, kind: Kind, image: &[u8]) -> Result<Outcome, CutOff> {
    match kind {
        Kind::Reading => Ok(compare_reading(input, image)),
        Kind::Text => compare_text(input, image),
    }
}

// The next image, compared; nothing at the file's end.
fn one<R: Read>(input: &mut R, kind: Kind, image: &mut [u8]) -> Result<Option<Outcome>, CutOff> {
    let Some(n) = read_part(input, image)? else {
        return Ok(None);
    };
    Ok(Some(compare(input, kind, &image[..n])?))
}

fn count_one(counts: &mut [u64], number: u64) {
    if let Some(count) = counts.get_mut(number as usize) {
        *count = count.saturating_add(1);
    }
}

fn totals(rt: &impl Print, kind: Kind, done: u64, wrong: u64) -> io::Result<()> {
    match kind {
        Kind::Reading => {
            println!(rt; "images {done}")?;
            println!(rt; "differences {wrong}")
        }
        Kind::Text => {
            println!(rt; "texts {done}")?;
            println!(rt; "differences in texts {wrong}")
        }
    }
}

fn counted(rt: &impl Print, word: &str, counts: &[u64]) -> io::Result<()> {
    for (number, count) in counts.iter().enumerate() {
        println!(rt; "{word} {number}: {count}")?;
    }
    Ok(())
}

fn all<R: Read>(
    rt: &impl Print,
    input: &mut R,
    name: &str,
    kind: Kind,
    image: &mut [u8],
    counts: &mut [u64],
) -> io::Result<()> {
    let mut wrong = 0;
    for done in 0..1000000 {
        match one(input, kind, image) {
            Ok(Some(Outcome::Same(number))) => count_one(counts, number),
            Ok(Some(Outcome::Differs)) => {
                println!(rt; "differs in {name}: image {done}")?;
                wrong += 1;
            }
            Ok(None) => return totals(rt, kind, done, wrong),
            Err(CutOff) => {
                println!(rt; "cut off in {name}: image {done}")?;
                return totals(rt, kind, done, wrong + 1);
            }
        }
    }
    totals(rt, kind, 1000000, wrong)
}

// No answer has a number above 14, and none of reading has one above 9.
fn replay(rt: &HostRuntime, name: &str, kind: Kind) -> io::Result<()> {
    let mut file = match File::open(rt, name) {
        Ok(file) => file,
        Err(e) => return eprintln!(rt; "{name}: {e}"),
    };
    let mut image = [0u8; 65537];
    let mut counts = [0u64; 15];
    all(rt, &mut file, name, kind, &mut image, &mut counts)?;
    match kind {
        Kind::Reading => counted(rt, "answered", &counts[..10]),
        Kind::Text => counted(rt, "texts answering", &counts),
    }
}

fn main(rt: HostRuntime) -> io::Result<()> {
    replay(&rt, "answers", Kind::Reading)?;
    replay(&rt, "lines", Kind::Text)
}
