// The program's text, put into a buffer that the caller lends. What has no place in it is left out.
#![tactic(auto)]

ghost use Rattle.std.specs.Prelude.{◌≡◌, [], ◌∷◌, ◌/◌, ◌<◌, min, length};
ghost use Rattle.lines.specs.Lines.{number_text, spaced, line, header, size_line, size_lines, found_word, finding_at, found_lines, end_line, refused_text, accepted_text, Holds};
ghost use Rattle.lines.specs.Growing.{Grows};

// A text in a buffer: its first `used` bytes, and zeros after them.
#[derive(Drop)]
struct Text<'a> {
    out: &'a mut [u8],
    used: usize,
}

impl<'a> Text<'a> {
    // The header, in a clear buffer.
    fn new(out: &'a mut [u8]) -> Text<'a>
        ensures same_buffer { result.out.ghost_name ≡ out.entry.ghost_name }
        ensures text { Holds (length out.old) header result.out.now result.used }
    {
        out.fill(0);
        let mut text = Text { out, used: 0 };
        text.append(b"vexil-typeck 1\n");
        text
    }

    fn put(&mut self, byte: u8)
        ensures { Grows self.old (byte ∷ []) self.new }
    {
        if self.used < self.out.len() {
            self.out[self.used] = byte;
            self.used += 1;
        }
    }

    fn append(&mut self, text: &[u8])
        ensures { Grows self.old text.now self.new }
    {
        for byte in text {
            self.put(*byte);
        }
    }

    fn put_number(&mut self, n: u64)
        ensures { Grows self.old (number_text n) self.new }
    {
        let mut digits = [0u8; 20];
        let count = io::decimal(n, &mut digits);
        self.append(&digits[..count]);
    }

    // A space before each number.
    fn put_numbers(&mut self, numbers: &[u64])
        ensures { Grows self.old (spaced numbers.now) self.new }
    {
        for number in numbers {
            self.put(b' ');
            self.put_number(*number);
        }
    }

    fn put_line(&mut self, word: &[u8], numbers: &[u64])
        ensures { Grows self.old (line word.now numbers.now) self.new }
    {
        self.append(word);
        self.put_numbers(numbers);
        self.put(b'\n');
    }

    // A slot's line, unless all three of its numbers are zero.
    fn put_size(&mut self, slot: u64, a: u64, b: u64, c: u64)
        ensures { Grows self.old (size_line slot a b c) self.new }
    {
        if a != 0 || b != 0 || c != 0 {
            self.put_line(b"size", &[slot, a, b, c]);
        }
    }

    fn put_sizes(&mut self, sizes: &[u64])
        ensures { Grows self.old (size_lines (length sizes.now / 3) sizes.now) self.new }
    {
        for (slot, size) in sizes.chunks_exact(3).enumerate() {
            self.put_size(slot as u64, size[0], size[1], size[2]);
        }
    }

    // The first `count` findings, as far as they lie whole in the table.
    fn put_findings(&mut self, findings: &[u32], count: u64)
        ensures { Grows self.old (found_lines (min count (length findings.now / 6)) findings.now) self.new }
    {
        for finding in findings.chunks_exact(6).take(count as usize) {
            let numbers = [
                u64::from(finding[0]),
                u64::from(finding[1]),
                u64::from(finding[2]),
                u64::from(finding[3]),
                u64::from(finding[4]),
                u64::from(finding[5]),
            ];
            self.put_line(b"found", &numbers);
        }
    }

    fn put_end(&mut self, count: u64)
        ensures { Grows self.old (end_line count) self.new }
    {
        self.put_line(b"end", &[count]);
    }
}

// Writes the text of a refusal, and answers how many bytes of the buffer it takes.
pub fn write_refused(number: u64, place: u64, out: &mut [u8]) -> usize
    ensures { Holds (length out.old) (refused_text number place) out.new result }
{
    let mut text = Text::new(out);
    text.put_line(b"refused", &[number, place]);
    text.used
}

// Writes the text of an accepted image: its size table, its first `count` findings and their number. Answers how many
// bytes of the buffer it takes.
pub fn write_accepted(sizes: &[u64], findings: &[u32], count: u64, out: &mut [u8]) -> usize
    ensures { Holds (length out.old) (accepted_text sizes.now findings.now count) out.new result }
{
    let mut text = Text::new(out);
    text.put_sizes(sizes);
    text.put_findings(findings, count);
    text.put_end(count);
    text.used
}
