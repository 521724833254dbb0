// From what is typed to the code.
// "input not an even number of hex digits with at most one closing line feed, or over 512 bytes of code"
ghost use Rattle.std.specs.Prelude.{◌≤◌, length};
ghost use Rattle.map.specs.Promises.{Worth, Decodes};

use lent::{get8, put8};

// What a character is worth as a digit, if it is one.
fn worth(character: usize) -> Option<usize>
    ensures { Worth character result }
{
    if character < 0x30 {
        return None;
    }
    if character <= 0x39 {
        return Some(character - 0x30);
    }
    if character < 0x41 {
        return None;
    }
    if character <= 0x46 {
        return Some(character - 0x37);
    }
    if character < 0x61 {
        return None;
    }
    if character <= 0x66 {
        return Some(character - 0x57);
    }
    None
}

// The code that is typed, put at the start of `code`: its length, or none where it is refused.
pub fn decode(code: &mut [u8], text: &[u8]) -> Option<usize>
    requires { 512 ≤ length code.old }
    ensures { Decodes text.now code.old code.new result }
{
    let size = text.len();
    if 1025 < size {
        return None;
    }
    let count = size / 2;
    for i in 0..count {
        let first = get8(text, 2 * i);
        let second = get8(text, 2 * i + 1);
        let Some(a) = worth(first) else {
            return None;
        };
        let Some(b) = worth(second) else {
            return None;
        };
        put8(code, i, 16 * a + b);
    }
    if 2 * count == size {
        return Some(count);
    }
    if get8(text, 2 * count) == 0x0A {
        return Some(count);
    }
    None
}
