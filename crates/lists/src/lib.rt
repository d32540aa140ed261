// Two lists of calls compared, as programs in C and Rust call it. `lists_c` gives C the name.
#![tactic(auto)]

ghost use Rattle.std.specs.Prelude.{◌≡◌};
ghost use Rattle.lists.specs.ListReplies.{Replied, comparison_number, comparison_value};

use export::Reply;
use history::Comparison;

// A function and no `From`, which may stand only where one of the two types does.
fn reply_of(comparison: Comparison) -> Reply
    ensures { (result.number ≡ comparison_number comparison) × (result.value ≡ comparison_value comparison) }
{
    match comparison {
        Comparison::Equal => Reply {
            number: 0,
            value: 1,
        },
        Comparison::Different => Reply {
            number: 0,
            value: 0,
        },
        Comparison::BadLength => Reply {
            number: 1,
            value: 0,
        },
    }
}

// Runs two lists of calls, each from a fresh book, and says whether they leave the same book.
pub fn strike_book_compare_lists(
    left: &mut [u32],
    right: &mut [u32],
    pool: &mut [u32],
    calls: &[u32],
    others: &[u32],
) -> Reply
    ensures { Replied left.old right.old pool.old calls.now
        others.now result left.new right.new pool.new }
{
    reply_of(history::compare_lists(left, right, pool, calls, others))
}
