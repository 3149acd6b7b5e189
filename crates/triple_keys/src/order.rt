//! The orders in which the ids of a statement stand in keys.
ghost use Rattle.std.specs.Prelude.{◌≡◌};
ghost use Rattle.triple_keys.specs.Orders.{order_for, OrderServes, first_of, second_of, third_of};

/// An order, named for its positions: `Pos` is predicate, object, subject.
#[derive(Clone, Copy, Debug, PartialEq, Eq)]
pub enum Order {
    Spo,
    Pos,
    Osp,
}

/// The ids that a statement must have, where a position is bound.
#[derive(Clone, Copy, Debug, PartialEq, Eq)]
pub struct Bound {
    pub subject: Option<u64>,
    pub predicate: Option<u64>,
    pub object: Option<u64>,
}

/// Values of the three positions, in the order of a key.
#[derive(Clone, Copy, PartialEq, Eq, PartialOrd, Ord)]
pub(crate) struct InOrder<T> {
    pub(crate) first: T,
    pub(crate) second: T,
    pub(crate) third: T,
}

/// The order in which the bound ids stand first.
pub fn choose(bound: Bound) -> Order
    ensures table { result ≡ order_for bound }
    ensures first { OrderServes result bound }
{
    match (bound.subject, bound.predicate, bound.object) {
        (None, Some(_), _) => Order::Pos,
        (_, None, Some(_)) => Order::Osp,
        _ => Order::Spo,
    }
}

pub(crate) fn arrange<T: Copy>(order: Order, subject: T, predicate: T, object: T) -> InOrder<T>
    ensures first { result.first ≡ first_of order subject predicate object }
    ensures second { result.second ≡ second_of order subject predicate object }
    ensures third { result.third ≡ third_of order subject predicate object }
{
    let (first, second, third) = match order {
        Order::Spo => (subject, predicate, object),
        Order::Pos => (predicate, object, subject),
        Order::Osp => (object, subject, predicate),
    };
    InOrder {
        first,
        second,
        third,
    }
}
