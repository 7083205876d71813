// Reads an image from standard input, checks it, and writes its size table and findings, or why it is refused. No contract can
// say what a file brings or takes, so all that is decided between the two stands in functions of its own: what reads goes by
// any reader, and says what it makes of one whose bytes are known.
#![tactic(auto)]

ghost use Rattle.std.specs.Prelude.{◌+◌, ◌≤◌, ◌<◌, ◌^◌, ◌≡◌, length, IfOk};
ghost use Rattle.vexcheck.specs.Input.{step_of, text_of_input, TookAll, AnswersInput};

use std::io;
use std::io::Read;

// Where to go on behind a read: a failed one fails the whole, and one without bytes is the end.
#[tactic(auto, unfolding(crate::specs::Input::step_of))]
fn after_read(at: usize, got: io::Result<usize>) -> io::Result<Option<usize>>
    requires { IfOk got (λ n. at + n < 2 ^ 64) }
    ensures { result ≡ step_of at got }
{
    match got? {
        0 => Ok(None),
        n => Ok(Some(at + n)),
    }
}

// Reads until the buffer is full or the input ends. Answers how many bytes stand at the front; a failed read fails the whole.
fn take_all<R: Read>(input: &mut R, buf: &mut [u8]) -> io::Result<usize>
    ensures within { IfOk result (λ n. n ≤ length buf.new) }
    ensures bytes { TookAll (R.remaining input.old) result buf.new }
{
    let mut at = 0;
    while at < buf.len() {
        match after_read(at, input.read(&mut buf[at..]))? {
            Some(next) => at = next,
            None => break,
        }
    }
    Ok(at)
}

// The text for whatever standard input brought, whole.
fn text<'a>(taken: io::Result<usize>, image: &[u8], out: &'a mut [u8]) -> &'a [u8]
    requires { IfOk taken (λ n. n ≤ length image.now) × (180000 ≤ length out.old) }
    ensures { result.now ≡ text_of_input taken image.now }
{
    let used = match taken {
        Ok(n) => report::report(&image[..n], out),
        Err(_) => lines::write_refused(0, 0, out),
    };
    &out[..used]
}

// Reads an image and answers its text. The buffer for it has a place more than an image may have bytes, so that a longer one
// is refused and not cut.
fn answer<'a, R: Read>(input: &mut R, image: &mut [u8], out: &'a mut [u8]) -> &'a [u8]
    requires places { 65536 < length image.old }
    requires room { 180000 ≤ length out.old }
    ensures { AnswersInput (R.remaining input.old) result.now }
{
    let taken = take_all(input, image);
    text(taken, image, out)
}

fn main(rt: HostRuntime) -> io::Result<()> {
    let mut image = [0u8; 65537];
    let mut out = [0u8; 180000];
    rt.write_all(answer(&mut rt.stdin(), &mut image, &mut out))
}
