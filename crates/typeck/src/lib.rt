// The check of a schema image: widths, sizes and findings, or a refusal.
#![tactic(auto)]

ghost use Rattle.reader.specs.Reading.{schema_of};
ghost use Rattle.reader.specs.Promise.{Promise};
ghost use Rattle.table.specs.Fitted.{fitted};
ghost use Rattle.order.specs.Order.{is_ordered};
ghost use Rattle.findings.specs.Adding.{Adds};
ghost use Rattle.findings.specs.Conformance.{has_impl, conformance_of};
ghost use Rattle.recursion.specs.Recursion.{Ready, Checked};
ghost use Rattle.typeck.specs.Check.{Answered};
ghost use Rattle.typeck.specs.Searching.{Found, Searchable};
ghost use Rattle.std.specs.Prelude.{◌≤◌, ◌^◌, length, true, false, [], ◌≡◌};

use image::Frame;
use reader::Reading;
use slot::Edition;
use turns::{Entry, Sizing};

// Accepted, with how many findings there are; or a refusal's number and place.
#[derive(Clone, Copy)]
pub enum Verdict {
    Accepted(u64),
    Refused(u8, u64),
}

// Class 1, unless the order of the slots rules it out.
fn count_endless(
    image: &[u8],
    starts: &[usize],
    frame: Frame,
    ordered: bool,
    findings: &mut [u32],
) -> u64
    requires { Ready image.now starts.now frame findings.old × (ordered ≡ true → is_ordered (schema_of frame.edition image.now) ≡ true) }
    ensures { Checked (schema_of frame.edition image.now) findings.old findings.new result }
{
    if ordered {
        return 0;
    }
    recursion::check_recursion(image, starts, frame, findings)
}

// Classes 2 to 4, unless there is no impl.
fn count_lacking(
    image: &[u8],
    starts: &[usize],
    frame: Frame,
    impls: bool,
    findings: &mut [u32],
    count: u64,
) -> u64
    requires { Promise image.now starts.now frame × (impls ≡ false → has_impl (schema_of frame.edition image.now).slots ≡ false) × (count ≤ 2 ^ 27) }
    ensures { Adds (2 ^ 25) findings.old findings.new count result (conformance_of (schema_of frame.edition image.now) 0 (schema_of frame.edition image.now).slots) }
{
    if impls {
        return conformance::check_impl_conformance(image, starts, frame, findings, count);
    }
    count
}

// Looks for findings one by one. Refusal 12 comes after everything else.
fn search(
    image: &[u8],
    starts: &[usize],
    frame: Frame,
    ordered: bool,
    impls: bool,
    sizes: &mut [u64],
    findings: &mut [u32],
) -> Verdict
    requires { Searchable image.now starts.now frame ordered impls findings.old }
    ensures { Found (schema_of frame.edition image.now) sizes.old sizes.new findings.old findings.new result }
{
    let endless = count_endless(image, starts, frame, ordered, findings);
    let count = count_lacking(image, starts, frame, impls, findings, endless);
    if (findings.len() as u64) < 6 * count {
        table::clear(sizes);
        table::clear_findings(findings);
        return Verdict::Refused(12, 0);
    }
    Verdict::Accepted(count)
}

// The findings of an image whose sizes stand. Most images can have none, and need no tables to look for them.
fn find(
    image: &[u8],
    starts: &[usize],
    frame: Frame,
    sizes: &mut [u64],
    findings: &mut [u32],
) -> Verdict
    requires { Promise image.now starts.now frame × (findings.old ≡ fitted (length findings.old) []) }
    ensures { Found (schema_of frame.edition image.now) sizes.old sizes.new findings.old findings.new result }
{
    let impls = conformance::has_impls(image, starts, frame);
    if order::is_ordered(image, starts, frame) {
        if impls {
            return search(image, starts, frame, true, true, sizes, findings);
        }
        return Verdict::Accepted(0);
    }
    search(image, starts, frame, false, impls, sizes, findings)
}

// Checks an image. The size table gets three numbers a slot, the findings table six a finding, and zeros after them; on a
// refusal both are zero.
fn check_by(
    image: &[u8],
    edition: Edition,
    entry: Entry,
    sizes: &mut [u64],
    findings: &mut [u32],
) -> Verdict
    ensures { Answered entry edition image.now sizes.old sizes.new findings.old findings.new result }
{
    table::clear_findings(findings);
    let mut starts = [0usize; 512];
    match reader::read_into(image, edition, &mut starts) {
        Reading::Accepted(frame) => {
            let count = frame.slots as usize;
            let slots = &starts[0..count];
            match turns::size_slots(image, slots, frame, entry, sizes) {
                Sizing::Accepted => find(image, slots, frame, sizes, findings),
                Sizing::Refused(number, place) => Verdict::Refused(number, place),
            }
        }
        Reading::Refused(number, place) => {
            table::clear(sizes);
            Verdict::Refused(number, place as u64)
        }
    }
}

// Checks an image of edition one.
pub fn check(image: &[u8], sizes: &mut [u64], findings: &mut [u32]) -> Verdict
    ensures { Answered Entry.Ordinary Edition.One image.now sizes.old sizes.new findings.old findings.new result }
{
    check_by(image, Edition::One, Entry::Ordinary, sizes, findings)
}

// Checks an image of edition two.
pub fn check_two(image: &[u8], sizes: &mut [u64], findings: &mut [u32]) -> Verdict
    ensures { Answered Entry.Ordinary Edition.Two image.now sizes.old sizes.new findings.old findings.new result }
{
    check_by(image, Edition::Two, Entry::Ordinary, sizes, findings)
}

// Checks an image of edition one for the head board, where every field starts on a whole byte.
pub fn check_aligned(image: &[u8], sizes: &mut [u64], findings: &mut [u32]) -> Verdict
    ensures { Answered Entry.HeadBoard Edition.One image.now sizes.old sizes.new findings.old findings.new result }
{
    check_by(image, Edition::One, Entry::HeadBoard, sizes, findings)
}

// Checks an image of edition two for the head board.
pub fn check_aligned_two(image: &[u8], sizes: &mut [u64], findings: &mut [u32]) -> Verdict
    ensures { Answered Entry.HeadBoard Edition.Two image.now sizes.old sizes.new findings.old findings.new result }
{
    check_by(image, Edition::Two, Entry::HeadBoard, sizes, findings)
}
