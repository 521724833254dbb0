// What an entry is to the order of the entries.
ghost use Rattle.std.specs.Prelude.{◌≡◌, ◌<◌, Some, Ok};
ghost use Rattle.reader.specs.Shapes.{entry_at};
ghost use Rattle.reader.specs.Classes.{class_of, start_of, form_of, block_step, way_step, record_step, step_of, block_inside, record_inside};

use crate::entry::{Entry, entry_at};

// A block by its start, a dynamic one also by its count; a record by whether it has its number.
#[derive(Clone, Copy)]
pub enum Class {
    Head,
    Block { start: usize },
    Dynamic { start: usize, count: usize },
    Way,
    Record { numbered: bool },
}

// Behind the head: blocks may come, from a start on; or also 7s of the dynamic block at `block`, of whose count so many are left; or records
// alone, of the form of those before.
#[derive(Clone, Copy)]
pub enum Order {
    Blocks {
        low: usize,
    },
    Sevens {
        low: usize,
        block: usize,
        left: usize,
    },
    Records {
        form: usize,
    },
}

// The class of an entry; none where it is bad wherever it stands: "success bytes over 1".
#[tactic(auto, using(crate::proofs::Classing::class_fair, crate::proofs::Classing::class_unfair))]
fn class_of(entry: Entry) -> Option<Class>
    ensures { result ≡ class_of (Ok entry) }
{
    match entry {
        Entry::Head { .. } => Some(Class::Head),
        Entry::Terminate { start, success, .. } => {
            if success <= 1 {
                Some(Class::Block { start })
            } else {
                None
            }
        }
        Entry::Jump { start, .. } | Entry::Jumpi { start, .. } => Some(Class::Block { start }),
        Entry::DynamicJump { start, count, .. } | Entry::DynamicJumpi { start, count, .. } => {
            Some(Class::Dynamic { start, count })
        }
        Entry::Way { .. } => Some(Class::Way),
        Entry::Record { energy, .. } => Some(Class::Record {
            numbered: energy.is_some(),
        }),
    }
}

// The class of the entry at an offset; none also for "unknown kinds", "cut entries, and bodies longer or shorter than their kind says".
pub fn class_at(map: &[u8], at: usize) -> Option<Class>
    ensures { result ≡ class_of (entry_at map.now at) }
{
    match entry_at(map, at) {
        Ok(entry) => class_of(entry),
        Err(_) => None,
    }
}

// A block at a start, with the order behind it. "A block start not above the one before" is bad, and so is a block behind a record.
fn after_block(order: Order, start: usize, then: Order) -> Option<Order>
    ensures { result ≡ block_step start order then }
{
    match order {
        Order::Blocks { low } => {
            if low <= start {
                return Some(then);
            }
            None
        }
        Order::Sevens { low, left, .. } => {
            if left == 0 && low <= start {
                return Some(then);
            }
            None
        }
        Order::Records { .. } => None,
    }
}

// A 7: one of those that are left. "Kind 7 away from a dynamic block" is bad.
fn after_way(order: Order) -> Option<Order>
    ensures { result ≡ way_step order }
{
    match order {
        Order::Sevens { low, block, left } => {
            if left == 0 {
                return None;
            }
            Some(Order::Sevens {
                low,
                block,
                left: left - 1,
            })
        }
        _ => None,
    }
}

// The form of a record, with its number or without: where its path length stands in the body, which the definitions tell its kind by.
// `numbered` is a fact that the result depends on: it chooses no step to run.
fn form_of(numbered: bool) -> usize
    ensures { result ≡ form_of numbered }
{
    if numbered { 8 } else { 4 }
}

// A record, where no 7 is left to come. "After one of 8 and 9 the other is a bad entry".
#[tactic(auto, using(crate::proofs::Classing::record_same, crate::proofs::Classing::record_other))]
fn after_record(order: Order, form: usize) -> Option<Order>
    ensures { result ≡ record_step form order }
{
    match order {
        Order::Blocks { .. } => Some(Order::Records { form }),
        Order::Sevens { left, .. } => {
            if left != 0 {
                return None;
            }
            Some(Order::Records { form })
        }
        Order::Records { form: before } => {
            if form != before {
                return None;
            }
            Some(Order::Records { form: before })
        }
    }
}

// The order behind an entry at an offset; none where it is bad there, as a second head is.
pub fn behind(class: Class, order: Order, at: usize) -> Option<Order>
    requires { start_of (Some class) < 65536 }
    ensures { result ≡ step_of (Some class) order at }
{
    match class {
        Class::Head => None,
        Class::Block { start } => after_block(order, start, Order::Blocks { low: start + 1 }),
        Class::Dynamic { start, count } => after_block(
            order,
            start,
            Order::Sevens {
                low: start + 1,
                block: at,
                left: count,
            },
        ),
        Class::Way => after_way(order),
        Class::Record { numbered } => after_record(order, form_of(numbered)),
    }
}

// How many blocks the entry is.
pub fn blocks_in(class: Class) -> usize
    ensures { result ≡ block_inside (Some class) }
{
    match class {
        Class::Block { .. } | Class::Dynamic { .. } => 1,
        _ => 0,
    }
}

// How many records the entry is.
pub fn records_in(class: Class) -> usize
    ensures { result ≡ record_inside (Some class) }
{
    match class {
        Class::Record { .. } => 1,
        _ => 0,
    }
}
