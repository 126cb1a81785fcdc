//! What a line of a schedule asks of a thread.
ghost use Rattle.std.specs.Prelude.{◌≡◌};
ghost use Rattle.std.specs.Option.{option_map};
ghost use Rattle.text_parts.specs.Text.{texts_of};
ghost use Rattle.workload_drive.specs.Schedule.Orders.{go_of, order_of};
ghost use Rattle.workload_drive.specs.Schedule.ForProofs.{order_in};

use crate::statement::{LARGEST, from_one};
use call_words::{Verb, call_of};
use text_parts::{is_same, number_within};

/// The most steps of a schedule.
pub(crate) const MOST_STEPS: u64 = 1_000_000;

/// What a thread is asked: so many steps, or a call on the module of a name.
#[derive(Clone, Copy, Drop)]
pub(crate) enum Order<'a> {
    Go(usize),
    Make(Verb, &'a [u8]),
}

fn go_of<'a>(words: &[&'a [u8]]) -> Option<Order<'a>>
    ensures { option_map order_in result ≡ go_of (texts_of words.now) }
{
    match words {
        [] => Some(Order::Go(1)),
        [count] => {
            let count = from_one(number_within(MOST_STEPS, count))?;
            Some(Order::Go(count as usize))
        }
        _ => None,
    }
}

/// What the words after a thread ask of it, or `None` if they have no form.
pub(crate) fn order_of<'a>(words: &[&'a [u8]]) -> Option<Order<'a>>
    ensures { option_map order_in result ≡ order_of (texts_of words.now) }
{
    let [first, rest @ ..] = words else {
        return None;
    };
    if is_same(first, b"go") {
        return go_of(rest);
    }
    let [worker, ..] = rest else {
        return None;
    };
    let said = call_of(words, number_within(LARGEST, worker))?;
    let order = Order::Make(said.verb, said.name);
    said.later.is_empty().then_some(order)
}
