// Endless types, class 1: the declared messages that hold themselves directly.
#![tactic(auto)]

ghost use Rattle.std.specs.Prelude.{◌+◌, ◌*◌, ◌≤◌, ◌^◌, [], ◌≡◌, length, replicate};
ghost use Rattle.image.specs.Schema.{slot_of};
ghost use Rattle.reader.specs.Reading.{schema_of};
ghost use Rattle.findings.specs.Finding.{noted};
ghost use Rattle.findings.specs.Adding.{Adds};
ghost use Rattle.findings.specs.Endless.{endless_at};
ghost use Rattle.recursion.specs.Recursion.{Ready, Checked, Tables, FindingAt};

use findings::Finding;
use image::Frame;
use number::Ranged;
use view::Part;

// The finding of a message, whose span stands in front.
fn finding_at(image: &[u8], body: usize, slot: u32) -> Finding
    ensures { FindingAt image.now body slot result }
{
    let offset = view::take(image, body);
    let length = view::take(image, offset.next);
    Finding {
        class: 1,
        slot,
        offset: offset.value,
        length: length.value,
        a: 0,
        b: 0,
    }
}

// So many findings that are alike.
fn put_findings(findings: &mut [u32], count: u64, more: u64, finding: Finding) -> u64
    requires { count + more ≤ 2 ^ 32 }
    ensures { Adds more findings.old findings.new count result (replicate more finding) }
{
    for n in count..count + more {
        findings::put_finding(findings, n, finding);
    }
    count + more
}

// A declared slot. One that is no message, or holds itself nowhere, has no findings.
fn check_slot(
    image: &[u8],
    starts: &[usize],
    frame: Frame,
    messages: &[bool],
    first: &[u16],
    parts: &[u16],
    slot: u64,
    count: u64,
    findings: &mut [u32],
) -> u64
    requires { Tables image.now starts.now frame messages.now first.now parts.now × (count ≤ 2 ^ 27) }
    ensures { Adds 65536 findings.old findings.new count result (endless_at (schema_of frame.edition image.now) slot (slot_of (schema_of frame.edition image.now) slot)) }
{
    if frame.slots <= slot {
        return count;
    }
    let i = slot as usize;
    if messages[i] {
        let more = walks::count_recursion(messages, first, parts, i);
        if more == 0 {
            return count;
        }
        let Part::At(_, body) = view::slot_part(image, starts, i) else {
            return count;
        };
        let finding = finding_at(image, body, slot as u32);
        return put_findings(findings, count, more, finding);
    }
    count
}

// All places of the declaration list, in order.
fn check_declared(
    image: &[u8],
    starts: &[usize],
    frame: Frame,
    messages: &[bool],
    first: &[u16],
    parts: &[u16],
    findings: &mut [u32],
) -> u64
    requires { Tables image.now starts.now frame messages.now first.now parts.now × (findings.old ≡ noted (length findings.old) []) }
    ensures { Checked (schema_of frame.edition image.now) findings.old findings.new result }
{
    let mut p = frame.declared;
    let mut count = 0;
    for _ in 0..frame.declarations {
        let Ranged::Value(slot, next) = number::read_below(image, p, 4294967296) else {
            return count;
        };
        count = check_slot(
            image, starts, frame, messages, first, parts, slot, count, findings,
        );
        p = next;
    }
    count
}

// With a table for so many names; a name takes two bytes of the image.
fn check_sized<const N: usize>(
    image: &[u8],
    starts: &[usize],
    frame: Frame,
    findings: &mut [u32],
) -> u64
    requires { Ready image.now starts.now frame findings.old × (length image.now ≤ 2 * N) × (N ≤ 32768) }
    ensures { Checked (schema_of frame.edition image.now) findings.old findings.new result }
{
    let mut messages = [false; 512];
    let mut first = [0u16; 513];
    let mut parts = [0u16; N];
    parts::list_slots(image, starts, frame, &mut messages, &mut first, &mut parts);
    check_declared(image, starts, frame, &messages, &first, &parts, findings)
}

// Endless types of an accepted image: how many findings there are, and the findings, as far as the table reaches. A small
// image has few names, and no large table is cleared for it.
pub fn check_recursion(image: &[u8], starts: &[usize], frame: Frame, findings: &mut [u32]) -> u64
    requires { Ready image.now starts.now frame findings.old }
    ensures { Checked (schema_of frame.edition image.now) findings.old findings.new result }
{
    if image.len() <= 2048 {
        check_sized::<1024>(image, starts, frame, findings)
    } else {
        check_sized::<32768>(image, starts, frame, findings)
    }
}
