// The text that the program writes for an image, put into a buffer that the caller lends.
#![tactic(auto)]

ghost use Rattle.std.specs.Prelude.{length};
ghost use Rattle.lines.specs.Lines.{Written};
ghost use Rattle.report.specs.Text.{text_for, VerdictWritten};

use typeck::Verdict;

fn write_verdict(verdict: Verdict, sizes: &[u64], findings: &[u32], out: &mut [u8]) -> usize
    ensures { VerdictWritten (length out.old) verdict sizes.now findings.now out.new result }
{
    match verdict {
        Verdict::Accepted(count) => lines::write_accepted(sizes, findings, count, out),
        Verdict::Refused(number, place) => lines::write_refused(number as u64, place, out),
    }
}

// Checks an image, with places for 512 slots and 1,000 findings, and writes its text. Answers how many bytes of the buffer
// it takes.
pub fn report(image: &[u8], out: &mut [u8]) -> usize
    ensures { Written (length out.old) (text_for image.now) out.new result }
{
    let mut sizes = [0u64; 1536];
    let mut findings = [0u32; 6000];
    let verdict = typeck::check(image, &mut sizes, &mut findings);
    write_verdict(verdict, &sizes, &findings, out)
}
