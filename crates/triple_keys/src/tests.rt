use super::*;
use std::test::Fail;

const IDS: Ids = Ids {
    subject: 1,
    predicate: 2,
    object: 3,
};

#[test]
fn keys_have_their_worked_bytes(rt: HostRuntime) -> Result<(), Fail> {
    let spo = key_of(rt.alloc(), Order::Spo, IDS)?;
    assert_eq!(rt;
        spo.bytes(),
        b"\0\0\0\0\0\0\0\x01\0\0\0\0\0\0\0\x02\0\0\0\0\0\0\0\x03".as_slice()
    );
    let pos = key_of(rt.alloc(), Order::Pos, IDS)?;
    assert_eq!(rt;
        pos.bytes(),
        b"\0\0\0\0\0\0\0\x02\0\0\0\0\0\0\0\x03\0\0\0\0\0\0\0\x01".as_slice()
    );
    let osp = key_of(rt.alloc(), Order::Osp, IDS)?;
    assert_eq!(rt;
        osp.bytes(),
        b"\0\0\0\0\0\0\0\x03\0\0\0\0\0\0\0\x01\0\0\0\0\0\0\0\x02".as_slice()
    );
    Ok(())
}

#[test]
fn spans_have_the_keys_of_the_bound_ids(rt: HostRuntime) -> Result<(), Fail> {
    let bound = Bound {
        subject: Some(1),
        predicate: None,
        object: Some(3),
    };
    assert!(rt; choose(bound) == Order::Osp);
    let span = span_of(rt.alloc(), choose(bound), bound)?;
    assert!(rt; span.contains(key_of(rt.alloc(), Order::Osp, IDS)?.bytes()));
    let other = Ids { subject: 2, ..IDS };
    assert!(rt; !span.contains(key_of(rt.alloc(), Order::Osp, other)?.bytes()));
    Ok(())
}
