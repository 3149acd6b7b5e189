//! The span of the keys whose ids agree with the bound ones.
ghost use Rattle.std.specs.Prelude.{◌≡◌, ◌++◌, ◌<◌, ◌^◌, IfOk, IfSome, OnOk, OnErr};
ghost use Rattle.fed_bytes.specs.Keys.{IsIn};
ghost use Rattle.triple_keys.specs.Orders.{order_for};
ghost use Rattle.triple_keys.specs.Keys.{IsBoundSpan, bound_bytes};

use crate::order::{Bound, Order, arrange};
use base_core::{Want, put_u64};
use fed_bytes::Span;
use std::alloc::Global;

/// The span whose keys have the bound ids, in the order in which these stand first.
pub fn span_of(alloc: Global, order: Order, bound: Bound) -> Result<Span, Want>
    requires { order ≡ order_for bound }
    ensures keys { IfOk result (λ span. IsBoundSpan order bound span) }
    ensures own { IfOk result (λ span. IsIn span span.left) }
{
    let bound = arrange(order, bound.subject, bound.predicate, bound.object);
    let mut prefix = Vec::new(alloc);
    put_bound(bound.first, &mut prefix)?;
    put_bound(bound.second, &mut prefix)?;
    put_bound(bound.third, &mut prefix)?;
    Span::of_prefix(alloc, &prefix)
}

/// Appends the id of a bound position.
fn put_bound(id: Option<u64>, out: &mut Vec<u8>) -> Result<(), Want>
    ensures ok { OnOk result (out.new.items ≡ out.old.items ++ bound_bytes id) }
    ensures err { OnErr result (out.new.items ≡ out.old.items) }
    ensures fits { IfSome id (λ n. n < 2 ^ 64) }
{
    match id {
        None => Ok(()),
        Some(id) => put_u64(id, out),
    }
}
