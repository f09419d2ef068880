//! The rule that the table of a queue keeps.
use crate::views::View;
use atomic_table::TableRule;
use kmc_partcore::QueueShape;

/// The rule: the steps of the queue's seats lead to this state. A queue opens with one seat that has all writers and all readers.
pub struct Reached;

impl<T> TableRule<Option<T>, View<T>, QueueShape> for Reached {
    ghost use Rattle.kmc_partqueue.specs.Reached.{IsReached};
    ghost use Rattle.kmc_partqueue.specs.Dealing.{all_seats};

    ghost holds = { IsReached };

    ghost first = { all_seats };
}
