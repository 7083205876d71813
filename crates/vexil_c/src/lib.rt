// What C programs link: each export is the library's function, with its clauses.
#![tactic(auto)]

ghost use Rattle.vexil.specs.Answer.{ReadTold, SizesTold, Told};

use slot::Edition;
use turns::Entry;
use vexil::Answer;

// Reads an image of edition one. The table gets where each slot starts, as far as it reaches, and zeros after.
#[unsafe(no_mangle)]
pub extern "C" fn vexil_read(image: &[u8], starts: &mut [usize]) -> Answer
    ensures { ReadTold Edition.One image.now starts.old starts.new result.number result.value }
{
    vexil::vexil_read(image, starts)
}

// Reads an image of edition two. The table gets where each slot starts, as far as it reaches, and zeros after.
#[unsafe(no_mangle)]
pub extern "C" fn vexil_read_two(image: &[u8], starts: &mut [usize]) -> Answer
    ensures { ReadTold Edition.Two image.now starts.old starts.new result.number result.value }
{
    vexil::vexil_read_two(image, starts)
}

// Widths and sizes of an image of edition one: three numbers a slot in the table.
#[unsafe(no_mangle)]
pub extern "C" fn vexil_sizes(image: &[u8], sizes: &mut [u64]) -> Answer
    ensures { SizesTold image.now sizes.old sizes.new result.number result.value }
{
    vexil::vexil_sizes(image, sizes)
}

// The whole check of an image of edition one: three numbers a slot, six a finding.
#[unsafe(no_mangle)]
pub extern "C" fn vexil_check(image: &[u8], sizes: &mut [u64], findings: &mut [u32]) -> Answer
    ensures { Told Entry.Ordinary Edition.One image.now sizes.old sizes.new findings.old findings.new result.number result.value }
{
    vexil::vexil_check(image, sizes, findings)
}

// The whole check of an image of edition two: three numbers a slot, six a finding.
#[unsafe(no_mangle)]
pub extern "C" fn vexil_check_two(image: &[u8], sizes: &mut [u64], findings: &mut [u32]) -> Answer
    ensures { Told Entry.Ordinary Edition.Two image.now sizes.old sizes.new findings.old findings.new result.number result.value }
{
    vexil::vexil_check_two(image, sizes, findings)
}

// The whole check of an image of edition one for the head board, where every field starts on a whole byte.
#[unsafe(no_mangle)]
pub extern "C" fn vexil_check_aligned(
    image: &[u8],
    sizes: &mut [u64],
    findings: &mut [u32],
) -> Answer
    ensures { Told Entry.HeadBoard Edition.One image.now sizes.old sizes.new findings.old findings.new result.number result.value }
{
    vexil::vexil_check_aligned(image, sizes, findings)
}

// The whole check of an image of edition two for the head board.
#[unsafe(no_mangle)]
pub extern "C" fn vexil_check_aligned_two(
    image: &[u8],
    sizes: &mut [u64],
    findings: &mut [u32],
) -> Answer
    ensures { Told Entry.HeadBoard Edition.Two image.now sizes.old sizes.new findings.old findings.new result.number result.value }
{
    vexil::vexil_check_aligned_two(image, sizes, findings)
}
