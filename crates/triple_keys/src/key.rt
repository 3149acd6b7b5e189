//! Keys of three ids.
ghost use Rattle.std.specs.Prelude.{◌≡◌, ◌≢◌, ◌↔◌, length, IsNone, IfOk, IfSome};
ghost use Rattle.std.specs.Ordering.{nat_cmp};
ghost use Rattle.std.specs.Cmp.Lexicographic.{slice_cmp};
ghost use Rattle.triple_keys.specs.Keys.{key_bytes, AreIds, ids_at};
ghost use Rattle.triple_keys.specs.Orders.{ids_cmp};
ghost use Rattle.triple_keys.specs.declared.key.Ids.{Ids as TheIds};

use crate::order::{Order, arrange};
use base_core::{Want, get_u64};
use fed_bytes::Key;
use std::alloc::Global;
use std::cmp::Ordering;

/// The ids of a statement's terms.
#[derive(Clone, Copy, Debug, PartialEq, Eq)]
pub struct Ids {
    pub subject: u64,
    pub predicate: u64,
    pub object: u64,
}

/// The key of the ids in an order.
pub fn key_of(alloc: Global, order: Order, ids: Ids) -> Result<Key, Want>
    ensures { IfOk result (λ key. key ≡ key_bytes order ids) }
{
    let ids = arrange(order, ids.subject, ids.predicate, ids.object);
    let mut bytes = [0u8; 24];
    bytes[..8].copy_from_slice(&ids.first.to_be_bytes());
    bytes[8..16].copy_from_slice(&ids.second.to_be_bytes());
    bytes[16..].copy_from_slice(&ids.third.to_be_bytes());
    Key::of(alloc, &bytes)
}

/// How two keys of ids in an order stand to each other: as the ids do, by the first, then the second, then the third.
pub fn compare(order: Order, one: &Ids, other: &Ids) -> Ordering
    ensures ids { result ≡ ids_cmp order one.now other.now }
    ensures keys { result ≡ slice_cmp nat_cmp (key_bytes order one.now) (key_bytes order other.now) }
{
    let one = arrange(order, one.subject, one.predicate, one.object);
    let other = arrange(order, other.subject, other.predicate, other.object);
    one.cmp(&other)
}

/// The ids of a key.
pub fn ids_of(order: Order, key: &[u8]) -> Option<Ids>
    ensures length { IsNone result ↔ (length key.now ≢ 24) }
    ensures fits { IfSome result AreIds }
    ensures spelled { IfSome result (λ ids. key.now ≡ key_bytes order ids) }
    ensures again { (ids : TheIds) → AreIds ids → key.now ≡ key_bytes order ids → result ≡ Some ids }
{
    if key.len() != 24 {
        return None;
    }
    let Some(first) = get_u64(key, 0) else {
        return None;
    };
    let Some(second) = get_u64(key, 8) else {
        return None;
    };
    let Some(third) = get_u64(key, 16) else {
        return None;
    };
    Some(put_back(order, first, second, third))
}

/// The ids that stand so in a key.
fn put_back(order: Order, first: u64, second: u64, third: u64) -> Ids
    ensures places { result ≡ ids_at order first second third }
    ensures fits { AreIds result }
{
    match order {
        Order::Spo => Ids {
            subject: first,
            predicate: second,
            object: third,
        },
        Order::Pos => Ids {
            predicate: first,
            object: second,
            subject: third,
        },
        Order::Osp => Ids {
            object: first,
            subject: second,
            predicate: third,
        },
    }
}
