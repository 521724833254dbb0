// From the answer to what is printed.
// "prints each entry as lowercase hex on a line, or `refused N`"
// By places, not by `output::Output`: the room is known before, and a promise by `Output` holds only where that is carried beside it, so it would be no plainer.
ghost use Rattle.std.specs.Prelude.{◌+◌, ◌*◌, ◌≤◌, ◌<◌, length, take, drop};
ghost use Rattle.spec.specs.Lists.{gather};
ghost use Rattle.spec.specs.Program.{hex, line, says_refused};
ghost use Rattle.lent.specs.Bytes.{Stored};
ghost use Rattle.refusal.specs.Numbers.{number_of};
ghost use Rattle.answer.specs.Told.{told};
ghost use Rattle.map.specs.Promises.{Spells, PutsHex, Lists, Lined, Shows, Prints};

use lent::{get8, get32, put8, put16, put64};
use refusal::Refusal;

// The character of a digit.
fn character(value: usize) -> usize
    requires { value < 16 }
    ensures { Spells value result }
{
    if value <= 9 {
        return 0x30 + value;
    }
    0x57 + value
}

// A byte's two digits.
fn put_digits(out: &mut [u8], at: usize, byte: usize)
    requires { (at + 2 ≤ length out.old) × (byte < 256) }
    ensures { Stored 2 out.old at (hex byte) out.new }
{
    put8(out, at, character(byte / 16));
    put8(out, at + 1, character(byte % 16));
}

// Two digits for each of `count` bytes of `raw`, from `from` on.
fn put_hex(raw: &[u8], from: usize, count: usize, out: &mut [u8], at: usize)
    requires { PutsHex raw.now from count out.old at (2 * count) }
    ensures { Stored (2 * count) out.old at (gather hex (take count (drop from raw.now))) out.new }
{
    for i in 0..count {
        put_digits(out, at + 2 * i, get8(raw, from + i));
    }
}

// The same, on a line.
fn put_line(raw: &[u8], from: usize, count: usize, out: &mut [u8], at: usize)
    requires { PutsHex raw.now from count out.old at (2 * count + 1) }
    ensures { Stored (2 * count + 1) out.old at (line (gather hex (take count (drop from raw.now)))) out.new }
{
    put_hex(raw, from, count, out, at);
    put8(out, at + 2 * count, 0x0A);
}

// A line for each entry that stands in the first `count` bytes of `raw`; gives where the last line ends.
pub fn put_lines(raw: &[u8], count: usize, out: &mut [u8]) -> usize
    requires { Lists raw.now count out.old }
    ensures { Lined raw.now count out.old out.new result }
{
    let mut at = 0;
    let mut end = 0;
    // No `for`: each entry says how far the next one is.
    while at < count {
        let size = get32(raw, at) + 6;
        put_line(raw, at, size, out, end);
        end += 2 * size + 1;
        at += size;
    }
    end
}

// The line of a refusal; gives where it ends.
pub fn put_refused(refusal: Refusal, out: &mut [u8]) -> usize
    requires { 11 ≤ length out.old }
    ensures { Stored result out.old 0 (says_refused (number_of refusal)) out.new }
{
    let number = refusal.number();
    // `refused` and a space, the first character in the lowest byte
    put64(out, 0, 0x2064_6573_7566_6572);
    if number < 10 {
        put16(out, 8, 0x0A30 + number);
        return 10;
    }
    put16(out, 8, 0x3030 + number / 10 + 256 * (number % 10));
    put8(out, 10, 0x0A);
    11
}

// What is printed of an answer: the number of its refusal, or the entries that stand in the first bytes of `raw`; gives where it ends.
pub fn put_answer(answer: Result<usize, Refusal>, raw: &[u8], out: &mut [u8]) -> usize
    requires { Shows (told answer).number (told answer).written raw.now out.old }
    ensures { Prints (told answer).number (told answer).written raw.now out.old out.new result }
{
    match answer {
        Ok(written) => put_lines(raw, written, out),
        Err(refusal) => put_refused(refusal, out),
    }
}
