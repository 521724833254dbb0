// The program of document 01: a code in hex on standard input, its map or a refusal on standard output.
// "The program reads hex of either case on standard input"
#![tactic(auto)]

mod digits;
mod lines;
mod rooms;

ghost use Rattle.std.specs.Prelude.{◌≤◌, length};
ghost use Rattle.spec.specs.Program.{program};
ghost use Rattle.lent.specs.Bytes.{Stored};

use digits::decode;
use lines::put_refused;
use refusal::Refusal;
use rooms::put_code;

// What the program prints, from what is typed: it is put at the start of `out`, and its end is given.
fn render(out: &mut [u8], text: &[u8]) -> usize
    requires { 98304 ≤ length out.old }
    ensures { Stored result out.old 0 (program text.now) out.new }
{
    let mut code = [0u8; 512];
    let Some(size) = decode(&mut code, text) else {
        return put_refused(Refusal::Input, out);
    };
    put_code(&code[..size], out)
}

// A text of 1,026 characters is refused whatever follows it (`first-decide` in proofs/Refusing.antt), so that no more is read.
fn main() {
    let mut text = [0u8; 1026];
    let n = io::read_full(0, &mut text);
    let mut out = [0u8; 98304];
    let end = render(&mut out, &text[..n]);
    io::write_all(1, &out[..end]);
}
