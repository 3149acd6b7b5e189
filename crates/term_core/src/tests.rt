ghost use Rattle.std.specs.Prelude.{◌≡◌, ◌<◌, ◌^◌, length, IfOk};
ghost use Rattle.term_core.specs.Spelling.{HasShortForm};

use super::*;
use base_core::{Text, Want};
use std::alloc::Global;
use std::test::Fail;

fn iri(alloc: Global, text: &str) -> Result<Term, Want>
    ensures { IfOk result HasShortForm }
{
    Ok(Term::Iri(Text::of(alloc, text)?))
}

fn blank(alloc: Global, at: u64) -> Result<Term, Want>
    ensures { IfOk result HasShortForm }
{
    let label = Text::of(alloc, "a")?;
    Ok(Term::Blank { at, label })
}

/// The bytes read as a term and spelled again.
fn respelled(alloc: Global, bytes: &[u8]) -> Result<Vec<u8>, TermFault>
    requires { length bytes.now < 2 ^ 32 }
    ensures { IfOk result (λ made. made.items ≡ bytes.now) }
{
    let term = Term::decode(alloc, bytes)?;
    Ok(term.encode(alloc)?)
}

fn fault(alloc: Global, bytes: &[u8]) -> Option<TermFault>
    requires { length bytes.now < 2 ^ 32 }
{
    Term::decode(alloc, bytes).err()
}

#[test]
fn terms_are_spelled_as_the_table_says(rt: HostRuntime) -> Result<(), Fail> {
    let iri = iri(rt.alloc(), "http://e/a")?;
    assert_eq!(rt;
        iri.encode(rt.alloc())?.as_slice(),
        b"\x01http://e/a".as_slice()
    );
    let tagged = Term::Tagged {
        form: Text::of(rt.alloc(), "x")?,
        tag: Text::of(rt.alloc(), "en")?,
    };
    assert_eq!(rt;
        tagged.encode(rt.alloc())?.as_slice(),
        b"\x03\0\0\0\x01xen".as_slice()
    );
    let blank = blank(rt.alloc(), 1)?;
    assert_eq!(rt;
        blank.encode(rt.alloc())?.as_slice(),
        b"\x04\0\0\0\0\0\0\0\x01a".as_slice()
    );
    Ok(())
}

#[test]
fn what_is_spelled_is_read(rt: HostRuntime) -> Result<(), Fail> {
    let iri = b"\x01http://e/\xc3\xa9".as_slice();
    assert_eq!(rt; respelled(rt.alloc(), iri)?.as_slice(), iri);
    let literal = b"\x02\0\0\0\x03a\xc3\xa9http://e/d".as_slice();
    assert_eq!(rt; respelled(rt.alloc(), literal)?.as_slice(), literal);
    let tagged = b"\x03\0\0\0\0de-ch-1996".as_slice();
    assert_eq!(rt; respelled(rt.alloc(), tagged)?.as_slice(), tagged);
    let blank = b"\x04\0\0\0\0\0\0\x01\x02b.1".as_slice();
    assert_eq!(rt; respelled(rt.alloc(), blank)?.as_slice(), blank);
    Ok(())
}

#[test]
fn what_is_bad_behind_a_form_is_named_at_its_offset(rt: HostRuntime) {
    assert_eq!(rt;
        fault(rt.alloc(), b"\x02\0\0\0\x01xhttp://e/<"),
        Some(TermFault::BadTerm { at: 6 })
    );
    assert_eq!(rt;
        fault(rt.alloc(), b"\x03\0\0\0\x01xEN"),
        Some(TermFault::BadTerm { at: 6 })
    );
    assert_eq!(rt;
        fault(rt.alloc(), b"\x03\0\0\0\x01xen-"),
        Some(TermFault::BadTerm { at: 6 })
    );
    assert_eq!(rt;
        fault(rt.alloc(), b"\x03\0\0\0\x01x"),
        Some(TermFault::BadTerm { at: 6 })
    );
}

#[test]
fn faults_are_printed(rt: HostRuntime) -> Result<(), Fail> {
    let bad = TermFault::BadTerm { at: 6 };
    assert_eq!(rt;
        format!(in rt.alloc(); "{bad}")?.as_str(),
        "no term: the field at byte 6 breaks its rule"
    );
    let want = TermFault::from(Want::NoMemory);
    assert_eq!(rt; format!(in rt.alloc(); "{want}")?.as_str(), "no memory");
    Ok(())
}

#[test]
fn parts_keep_their_rules(rt: HostRuntime) {
    assert!(rt; is_iri("http://e/a#b"));
    assert!(rt; !is_iri("http://e/{a}"));
    assert!(rt; is_tag("en-gb-oed1"));
    assert!(rt; !is_tag("en--gb"));
    assert!(rt; !is_tag("e1"));
    assert!(rt; is_label("0a.b-\u{b7}"));
    assert!(rt; !is_label("a."));
}
