// The answer in the rooms that the program lends, and its print.
// "runs at limit 500,000 with 33,024 bytes of W and 32,768 of each other buffer"
ghost use Rattle.std.specs.Prelude.{◌≤◌, length};
ghost use Rattle.spec.specs.Opcodes.{in_mode};
ghost use Rattle.spec.specs.Answer.{answer};
ghost use Rattle.spec.specs.Program.{lends, prints};
ghost use Rattle.lent.specs.Bytes.{Stored};
ghost use Rattle.layout.specs.Buffers.{held};
ghost use Rattle.map.specs.Rooms.{Lends};

use crate::lines::put_answer;
use answer::map_code;
use layout::buffers::Buffers;

// The answer for a code, printed. Its records are of kind 8 and its mode is 0, so that document 01's sessions stand.
fn put_map(code: &[u8], buffers: &mut Buffers<'_>, raw: &mut [u8], out: &mut [u8]) -> usize
    requires { Lends (held buffers.old) raw.old out.old }
    ensures { Stored result out.old 0 (prints (answer (in_mode 0) lends 500000 1 code.now)) out.new }
{
    let answer = map_code(500000, 1, 0, code, buffers, raw);
    put_answer(answer, raw, out)
}

// The same, in rooms of its own.
pub fn put_code(code: &[u8], out: &mut [u8]) -> usize
    requires { 98304 ≤ length out.old }
    ensures { Stored result out.old 0 (prints (answer (in_mode 0) lends 500000 1 code.now)) out.new }
{
    let mut w = [0u8; 33024];
    let mut p = [0u8; 32768];
    let mut s = [0u8; 32768];
    let mut t = [0u8; 32768];
    let mut r = [0u8; 32768];
    let mut q = [0u8; 32768];
    let mut raw = [0u8; 32768];
    let mut buffers = Buffers {
        w: &mut w,
        p: &mut p,
        s: &mut s,
        t: &mut t,
        r: &mut r,
        q: &mut q,
    };
    put_map(code, &mut buffers, &mut raw, out)
}
