// What is put of a row of R: its path and its destination.
// "a missing destination being null"
ghost use Rattle.std.specs.Prelude.{◌++◌, ◌+◌, ◌*◌, ◌^◌, ◌≤◌, ◌<◌, length};
ghost use Rattle.spec.specs.Json.{decimal};
ghost use Rattle.output.specs.Promises.{PutsFew};
ghost use Rattle.tables.specs.Addrs.{addrs};
ghost use Rattle.entries.specs.Rows.{steps_of};
ghost use Rattle.json_text.specs.Rows.{mark, lined, said_of, goal_text, way_text};
ghost use Rattle.json_text.specs.Promises.{PutsWay, Small};

use crate::comma::add_comma;
use entries::found::{Found, Span};
use lent::get16;
use output::Output;

// One address more of a path.
fn add_address(address: usize, begin: usize, output: &mut Output<'_>)
    requires { (address < 65536) × (output.old.end + 6 ≤ 2 ^ 62) }
    ensures { PutsFew 6 output.old (mark begin output.old.end ++ decimal address) output.new }
{
    add_comma(begin, output);
    output.add_decimal(address);
}

// The addresses of a path.
fn add_path(q: &[u8], span: Span, output: &mut Output<'_>)
    requires { (2 * (span.from + span.steps) ≤ length q.now) × (output.old.end + 6 * span.steps ≤ 2 ^ 62) }
    ensures { PutsFew (6 * span.steps) output.old (lined decimal (addrs q.now span.from span.steps)) output.new }
{
    let begin = output.end;
    for i in 0..span.steps {
        add_address(get16(q, 2 * (span.from + i)), begin, output);
    }
}

// A destination, or that there is none: from the path's end on.
fn add_goal(goal: Option<usize>, output: &mut Output<'_>)
    requires { (Small goal) × (output.old.end + 13 ≤ 2 ^ 62) }
    ensures { PutsFew 13 output.old (goal_text (said_of goal)) output.new }
{
    match goal {
        None => output.add_text(b"],\"to\":null}"),
        Some(to) => {
            output.add_named(b"],\"to\":", to);
            output.add_text(b"}");
        }
    }
}

// A row's path and its destination.
pub fn add_way(found: &Found<'_>, row: usize, output: &mut Output<'_>)
    requires { PutsWay found.now.r.now found.now.q.now row output.old.end 22 }
    ensures { PutsFew (22 + 6 * steps_of found.now.r.now row) output.old (way_text found.now.r.now found.now.q.now row) output.new }
{
    let span = found.path_of(row);
    output.add_text(b"{\"path\":[");
    add_path(found.q, span, output);
    add_goal(found.goal_of(row), output);
}
