ghost use Rattle.std.specs.Prelude.{◌≡◌, ◌<◌, ◌≤◌, length};
ghost use Rattle.answers.specs.Answers.{digit, taken_bytes, refused_bytes, Writes};
ghost use Rattle.refusals.specs.Causes.{number_of};

use crate::layer::Layer;
use crate::reply::Reply;
use refusals::Refusal;

// The capital digit of a number below 16. The library gives a small letter, in a `char`, to be raised and narrowed: no plainer.
fn capital(n: u8) -> u8
    requires { n < 16 }
    ensures { result ≡ digit n }
{
    if n < 10 { b'0' + n } else { b'A' - 10 + n }
}

// Writes a line of bytes to the front of a buffer, whose rest stays, and answers the length of the line.
// A buffer below 16 bytes is refused, and nothing is written.
fn write_line(bytes: &[u8], buffer: &mut [u8]) -> Result<usize, Refusal>
    requires { length bytes.now ≤ 7 }
    ensures { Writes bytes.now buffer.old buffer.new result }
{
    if buffer.len() < 16 {
        return Err(Refusal::BufferLength);
    }
    // by the index, since a proof knows nothing of what is written through chunks of a slice
    for (i, byte) in bytes.iter().enumerate() {
        buffer[2 * i] = capital(*byte / 16);
        buffer[2 * i + 1] = capital(*byte % 16);
    }
    let end = 2 * bytes.len();
    buffer[end] = b'\n';
    Ok(end + 1)
}

// Writes the answer to a taken frame to the front of a buffer, whose rest stays, and answers the length of the line.
// A buffer below 16 bytes is refused, and nothing is written. The kind is any byte: a kind of frame would ask more of callers.
pub fn write_taken(kind: u8, reply: Reply, buffer: &mut [u8]) -> Result<usize, Refusal>
    ensures { Writes (taken_bytes kind reply) buffer.old buffer.new result }
{
    match reply {
        Reply::Done => write_line(&[kind, 0], buffer),
        Reply::Amount(amount) => {
            let [a, b, c, d] = amount.to_be_bytes();
            write_line(&[kind, 0, a, b, c, d], buffer)
        }
    }
}

// Writes the answer to a refused line to the front of a buffer, whose rest stays, and answers the length of the line.
// A buffer below 16 bytes is refused, and nothing is written. The kind is any byte, as a line that is no frame has none.
pub fn write_refused(
    kind: u8,
    cause: Refusal,
    layer: Layer,
    buffer: &mut [u8],
) -> Result<usize, Refusal>
    ensures { Writes (refused_bytes kind (number_of cause) layer) buffer.old buffer.new result }
{
    write_line(&[kind, cause.into(), layer.into()], buffer)
}
