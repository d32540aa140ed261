// The comparison of two lists under its C name. It has an archive of its own: in that of `export` the calls of a sheet
// would no longer be compiled into the loop over its lines, which makes a sheet slower by about a tenth.
#![tactic(auto)]

ghost use Rattle.lists.specs.ListReplies.{Replied};

use export::Reply;

// Runs two lists of calls, each from a fresh book, and says whether they leave the same book.
#[unsafe(no_mangle)]
pub extern "C" fn strike_book_compare_lists(
    left: &mut [u32],
    right: &mut [u32],
    pool: &mut [u32],
    calls: &[u32],
    others: &[u32],
) -> Reply
    ensures { Replied left.old right.old pool.old calls.now
        others.now result left.new right.new pool.new }
{
    lists::strike_book_compare_lists(left, right, pool, calls, others)
}
