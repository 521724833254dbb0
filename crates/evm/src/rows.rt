// The rows of document 01, "Opcode rows": an instruction by its byte, and by the range that the byte lies in.
ghost use Rattle.std.specs.Prelude.{◌≡◌};
ghost use Rattle.spec.specs.Opcodes.{row};
ghost use Rattle.evm.specs.Rows.{RowIs, SizeIs, ArgumentIs, WordsAre, each};

// An instruction's bytes of code, the words that it takes and gives, and whether its byte is known: a flag, since the document gives an unknown byte a row too, 0/0.
#[derive(Clone, Copy)]
pub struct Row {
    pub size: u8,
    pub taken: u8,
    pub given: u8,
    pub known: bool,
}

// The words that a known instruction takes and gives.
#[derive(Clone, Copy, PartialEq, Eq)]
struct Words {
    taken: u8,
    given: u8,
}

impl Row {
    // The row of a byte. "Every other byte is unknown: size 1, 0/0."
    pub fn of(op: u8) -> Row
        ensures { RowIs op result }
    {
        let size = size_of(op) as u8;
        match words_of(op) {
            Some(words) => Row {
                size,
                taken: words.taken,
                given: words.given,
                known: true,
            },
            None => Row {
                size,
                taken: 0,
                given: 0,
                known: false,
            },
        }
    }
}

// "Size is 1, save PUSHk, which is 1+k."
pub fn size_of(op: u8) -> usize
    ensures { SizeIs op result }
{
    1 + argument_of(op)
}

// The bytes of code after the instruction's own that belong to it: k of PUSHk, and none of another.
#[tactic(auto, using(crate::proofs::Arguments::argument_ways))]
fn argument_of(op: u8) -> usize
    ensures { ArgumentIs op result }
{
    match op {
        0x60..=0x7f => op as usize - 0x60 + 1,
        _ => 0,
    }
}

// "Given as taken/given, bytes in hex", in the document's order. "Every other byte is unknown."
#[tactic(auto, using(crate::proofs::Listed::log_row))]
fn words_of(op: u8) -> Option<Words>
    ensures { WordsAre op result }
{
    match op {
        0x00 | 0x5b | 0xfe => each(0, 0),
        0x01..=0x07 | 0x0a | 0x0b | 0x10..=0x14 | 0x16..=0x18 | 0x1a..=0x1d | 0x20 => each(2, 1),
        0x08 | 0x09 | 0xf0 => each(3, 1),
        0x15 | 0x19 | 0x1e | 0x31 | 0x35 | 0x3b | 0x3f | 0x40 | 0x49 | 0x51 | 0x54 | 0x5c => each(
            1, 1,
        ),
        0x30 | 0x32..=0x34 | 0x36 | 0x38 | 0x3a | 0x3d | 0x41..=0x48 | 0x4a => each(0, 1),
        0x58..=0x5a | 0x5f | 0x60..=0x7f => each(0, 1),
        0x37 | 0x39 | 0x3e | 0x5e => each(3, 0),
        0x3c => each(4, 0),
        0x50 | 0x56 | 0xff => each(1, 0),
        0x52 | 0x53 | 0x55 | 0x57 | 0x5d | 0xf3 | 0xfd => each(2, 0),
        // DUPk
        0x80..=0x8f => {
            let k = op - 0x80 + 1;
            each(k, k + 1)
        }
        // SWAPk
        0x90..=0x9f => {
            let k = op - 0x90 + 1;
            each(k + 1, k + 1)
        }
        // LOGk
        0xa0..=0xa4 => {
            let k = op - 0xa0;
            each(k + 2, 0)
        }
        0xf1 | 0xf2 => each(7, 1),
        0xf4 | 0xfa => each(6, 1),
        0xf5 => each(4, 1),
        _ => None,
    }
}

// Is the byte known?
pub fn known(op: u8) -> bool
    ensures { result ≡ (row op).known }
{
    words_of(op).is_some()
}

// A known byte, with the words that it takes and gives.
fn each(taken: u8, given: u8) -> Option<Words>
    ensures { result ≡ each taken given }
{
    Some(Words { taken, given })
}
