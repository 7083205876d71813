// What C and Rust programs link.
#![tactic(auto)]

ghost use Rattle.std.specs.Prelude.{◌≡◌, length};
ghost use Rattle.table.specs.Fitted.{fitted};
ghost use Rattle.typeck.specs.Check as check;
ghost use Rattle.vexil.specs.Answer.{number_of, value_of, sizing_number, sizing_value, ReadTold, SizesTold, Told};

use reader::{Read, Reading};
use slot::Edition;
use turns::{Entry, Sizing};
use typeck::Verdict;

// `number` is 0 for an accepted image, and `value` then counts its slots or its findings; else they are a refusal's number
// and place.
#[repr(C)]
#[derive(Clone, Copy)]
pub struct Answer {
    pub number: u64,
    pub value: u64,
}

// Writes a table into one of another length.
fn fit(table: &[usize], into: &mut [usize])
    ensures { into.new ≡ fitted (length into.old) table.now }
{
    for (i, place) in into.iter_mut().enumerate() {
        *place = table.get(i).copied().unwrap_or(0);
    }
}

// The answer of reading in two numbers, and its table in one of another length.
fn tell_read(read: Read, starts: &mut [usize]) -> Answer
    ensures { (result.number ≡ number_of read.answer) × (result.value ≡ value_of read.answer) × (starts.new ≡ fitted (length starts.old) read.starts) }
{
    // The table by itself: lent out of `read`, the whole of it is put together first, which copies the table once more.
    let table = read.starts;
    fit(&table, starts);
    let (number, value) = match read.answer {
        Reading::Accepted(frame) => (0, frame.slots),
        Reading::Refused(number, place) => (u64::from(number), place as u64),
    };
    Answer { number, value }
}

// Reads an image of edition one. The table gets where each slot starts, as far as it reaches, and zeros after.
#[unsafe(no_mangle)]
pub extern "C" fn vexil_read(image: &[u8], starts: &mut [usize]) -> Answer
    ensures { ReadTold Edition.One image.now starts.old starts.new result.number result.value }
{
    tell_read(reader::read_schema(image), starts)
}

// Reads an image of edition two. The table gets where each slot starts, as far as it reaches, and zeros after.
#[unsafe(no_mangle)]
pub extern "C" fn vexil_read_two(image: &[u8], starts: &mut [usize]) -> Answer
    ensures { ReadTold Edition.Two image.now starts.old starts.new result.number result.value }
{
    tell_read(reader::read_schema_two(image), starts)
}

fn tell_sizing(sizing: Sizing) -> Answer
    ensures { (result.number ≡ sizing_number sizing) × (result.value ≡ sizing_value sizing) }
{
    let (number, value) = match sizing {
        Sizing::Accepted => (0, 0),
        Sizing::Refused(number, place) => (u64::from(number), place),
    };
    Answer { number, value }
}

// Widths and sizes of an image of edition one: three numbers a slot in the table.
#[unsafe(no_mangle)]
pub extern "C" fn vexil_sizes(image: &[u8], sizes: &mut [u64]) -> Answer
    ensures { SizesTold image.now sizes.old sizes.new result.number result.value }
{
    tell_sizing(turns::compute_sizes(image, sizes))
}

fn tell_verdict(verdict: Verdict) -> Answer
    ensures { (result.number ≡ check.number_of verdict) × (result.value ≡ check.value_of verdict) }
{
    let (number, value) = match verdict {
        Verdict::Accepted(count) => (0, count),
        Verdict::Refused(number, place) => (u64::from(number), place),
    };
    Answer { number, value }
}

// The whole check of an image of edition one: three numbers a slot, six a finding.
#[unsafe(no_mangle)]
pub extern "C" fn vexil_check(image: &[u8], sizes: &mut [u64], findings: &mut [u32]) -> Answer
    ensures { Told Entry.Ordinary Edition.One image.now sizes.old sizes.new findings.old findings.new result.number result.value }
{
    tell_verdict(typeck::check(image, sizes, findings))
}

// The whole check of an image of edition two: three numbers a slot, six a finding.
#[unsafe(no_mangle)]
pub extern "C" fn vexil_check_two(image: &[u8], sizes: &mut [u64], findings: &mut [u32]) -> Answer
    ensures { Told Entry.Ordinary Edition.Two image.now sizes.old sizes.new findings.old findings.new result.number result.value }
{
    tell_verdict(typeck::check_two(image, sizes, findings))
}

// The whole check of an image of edition one for the head board, where every field starts on a whole byte.
#[unsafe(no_mangle)]
pub extern "C" fn vexil_check_aligned(
    image: &[u8],
    sizes: &mut [u64],
    findings: &mut [u32],
) -> Answer
    ensures { Told Entry.HeadBoard Edition.One image.now sizes.old sizes.new findings.old findings.new result.number result.value }
{
    tell_verdict(typeck::check_aligned(image, sizes, findings))
}

// The whole check of an image of edition two for the head board.
#[unsafe(no_mangle)]
pub extern "C" fn vexil_check_aligned_two(
    image: &[u8],
    sizes: &mut [u64],
    findings: &mut [u32],
) -> Answer
    ensures { Told Entry.HeadBoard Edition.Two image.now sizes.old sizes.new findings.old findings.new result.number result.value }
{
    tell_verdict(typeck::check_aligned_two(image, sizes, findings))
}
