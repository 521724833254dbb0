// What stands between two of a list.
// "no spaces, numbers in plain decimal"
ghost use Rattle.std.specs.Prelude.{◌+◌, ◌^◌, ◌≤◌};
ghost use Rattle.output.specs.Promises.{PutsFew};
ghost use Rattle.json_text.specs.Rows.{mark};

use output::Output;

// A comma, behind what a list has already: there is nothing yet where it began.
pub fn add_comma(begin: usize, output: &mut Output<'_>)
    requires { output.old.end + 1 ≤ 2 ^ 62 }
    ensures { PutsFew 1 output.old (mark begin output.old.end) output.new }
{
    if output.end != begin {
        output.add_text(b",");
    }
}
