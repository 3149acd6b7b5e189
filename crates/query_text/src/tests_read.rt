//! Texts that are queries, and texts that nearly are. `tests.rt` says how a line is read.
use crate::tests::wrong_lines;
use std::test::Fail;

const STRINGS: &str = r#"
?s ?p : ?s ?p "a" . => SELECT*{?s?p"a"}
?s ?p : ?s ?p "a" . => SELECT*{?s?p'a'}
?s ?p : ?s ?p "" . => SELECT*{?s?p""}
?s ?p : ?s ?p "" . => SELECT*{?s?p''.}
?s ?p : ?s ?p "a\"b" . => SELECT*{?s?p'a"b'}
?s ?p : ?s ?p "a'b" . => SELECT*{?s?p"a'b"}
?s ?p : ?s ?p "a'b" . => SELECT*{?s?p'a\'b'}
?s ?p : ?s ?p "a\"b" . => SELECT*{?s?p"a\"b"}
?s ?p : ?s ?p "\\" . => SELECT*{?s?p"\\"}
?s ?p : ?s ?p "\t\n\r" . => SELECT*{?s?p"\t\n\r"}
?s ?p : ?s ?p "\tb" . => SELECT*{?s?p"→b"}
?s ?p : ?s ?p "AB" . => SELECT*{?s?p"\u0041\U00000042"}
?s ?p : ?s ?p "é😀" . => SELECT*{?s?p"é\U0001F600"}
?s ?p : ?s ?p "￿" . => SELECT*{?s?p"\uFFFF"}
?s ?p : ?s ?p "a#b" . => SELECT*{?s?p"a#b"}
?s ?p : ?s ?p "a"@en . => SELECT*{?s?p"a"@en}
?s ?p : ?s ?p "a"@en-us . => SELECT*{?s?p"a" @EN-Us}
?s ?p : ?s ?p "a"@en-1 . => SELECT*{?s?p'a'@en-1.}
?s ?p : ?s ?p "a"^^<b> . => SELECT*{?s?p"a"^^<b>}
?s ?p : ?s ?p "a"^^<b> . => SELECT*{?s?p'a' ^^ <b>.}
?s ?p : ?s ?p "a"^^<cb> . => PREFIX ex:<c>SELECT*{?s?p"a"^^ex:b}
?p ?o : "a"@en ?p ?o . => SELECT*{"a"@en?p?o}
?p ?o : "a"^^<b> ?p ?o . => SELECT*{"a"^^<b>?p?o}
?s ?p : ?s ?p <a> . => SELECT*{?s?p<\u0061>}
?s ?p : ?s ?p <a> . => SELECT*{?s?p<\U00000061>}
?s ?p : ?s ?p <a#b> . => SELECT*{?s?p<a#b>}
out LONG => SELECT*{?s?p§""""}
out LONG => SELECT*{?s?p §"""a}
at => SELECT*{?s?p "" §"a}
"#;

#[test]
fn strings_and_iris_are_read(rt: HostRuntime) -> Result<(), Fail> {
    let wrong = wrong_lines(rt.alloc(), STRINGS)?;
    assert!(rt; wrong.is_empty(), "{wrong}");
    Ok(())
}

const NAMES: &str = r#"
?b : ?a ?b ?c . => SELECT ?b { ?a ?b ?c }
?c ?a ?c : ?a ?b ?c . => SELECT ?c $a ?c { ?a ?b ?c }
?z : ?a ?b ?c . => SELECT ?z { $a ?b $c }
?x ?x : => SELECT ?x $x { }
?a ?b : ?a ?b ?a . ?b ?a ?b . => SELECT * { ?a ?b ?a . ?b ?a ?b }
?1 ?_ ?é ?a·b ?a‿1 : => SELECT ?1 ?_ ?é ?a·b ?a‿1 { }
?X ?x : => SELECT ?X ?x { }
out ? => SELECT §?- { }
out ? => SELECT §?· { }
at => SELECT ?a§-b { }
at => SELECT ?a§:b { }
out ? => SELECT §??a { }
?p ?q : _:0 ?p _:1 . _:1 ?q _:0 . => SELECT*{_:x ?p _:y . _:y ?q _:x}
?p : _:0 ?p _:0 . => SELECT*{_:a.b?p _:a.b.}
?p : _:0 ?p _:1 . => SELECT*{_:a-b?p _:a}
?p ?x : _:0 ?p ?x . => SELECT*{_:x?p?x}
?p : _:0 ?p _:1 . _:2 ?p _:0 . => SELECT*{_:1?p _:_ . _:é?p _:1}
at => SELECT*{_:x ?p _:y._§:y ?q _:x}
at => SELECT*{§_:-a ?p ?o}
at => SELECT*{_:a§:b ?p ?o}
"#;

#[test]
fn names_and_labels_are_numbered_by_first_appearance(rt: HostRuntime) -> Result<(), Fail> {
    let wrong = wrong_lines(rt.alloc(), NAMES)?;
    assert!(rt; wrong.is_empty(), "{wrong}");
    Ok(())
}

const GROUPS: &str = r#"
?s ?p ?o : ?s ?p ?o . => SELECT*{?s?p?o;}
?s ?p ?o : ?s ?p ?o . => SELECT*{?s?p?o;;.}
?s ?p ?o ?q ?r ?t : ?s ?p ?o . ?s ?q ?r . ?t ?p ?o . => SELECT*{?s?p?o;;?q?r;.?t?p?o}
?s ?p ?o ?r ?q ?t : ?s ?p ?o . ?s ?p ?r . ?s ?q ?o . ?s ?q ?t . => SELECT*{?s?p?o,?r;?q?o,?t}
?p ?o : <a> ?p "x"@en . <a> ?p "y"^^<t> . <a> ?p "1"^^<http://www.w3.org/2001/XMLSchema#integer> . <a> ?p "true"^^<http://www.w3.org/2001/XMLSchema#boolean> . <a> ?p _:0 . <a> ?p ?o . => SELECT*{<a>?p"x"@en,"y"^^<t>,1,true,_:b,?o}
?n ?age : ?p <http://xmlns.com/foaf/0.1/name> ?n . ?p <http://xmlns.com/foaf/0.1/knows> ?f . ?f <http://example.org/age> ?age . => PREFIX foaf: <http://xmlns.com/foaf/0.1/> PREFIX ex: <http://example.org/> SELECT ?n ?age WHERE { ?p foaf:name ?n ; foaf:knows ?f . ?f ex:age ?age }
?f : ?f <http://example.org/age> "42"^^<http://www.w3.org/2001/XMLSchema#integer> . => PREFIX ex: <http://example.org/> SELECT ?f { ?f ex:age 42 }
?s ?p : ?s ?p "1"^^<http://www.w3.org/2001/XMLSchema#integer> . ?s ?p "2"^^<http://www.w3.org/2001/XMLSchema#integer> . ?s ?p "3"^^<http://www.w3.org/2001/XMLSchema#integer> . ?s ?p "4"^^<http://www.w3.org/2001/XMLSchema#integer> . ?s ?p "5"^^<http://www.w3.org/2001/XMLSchema#integer> . ?s ?p "6"^^<http://www.w3.org/2001/XMLSchema#integer> . ?s ?p "7"^^<http://www.w3.org/2001/XMLSchema#integer> . ?s ?p "8"^^<http://www.w3.org/2001/XMLSchema#integer> . ?s ?p "9"^^<http://www.w3.org/2001/XMLSchema#integer> . ?s ?p "10"^^<http://www.w3.org/2001/XMLSchema#integer> . ?s ?p "11"^^<http://www.w3.org/2001/XMLSchema#integer> . ?s ?p "12"^^<http://www.w3.org/2001/XMLSchema#integer> . ?s ?p "13"^^<http://www.w3.org/2001/XMLSchema#integer> . ?s ?p "14"^^<http://www.w3.org/2001/XMLSchema#integer> . ?s ?p "15"^^<http://www.w3.org/2001/XMLSchema#integer> . ?s ?p "16"^^<http://www.w3.org/2001/XMLSchema#integer> . => SELECT*{?s?p 1,2,3,4,5,6,7,8,9,10,11,12,13,14,15,16}
many => SELECT*{?s?p 1,2,3,4,5,6,7,8,9,10,11,12,13,14,15,16,17}
many => SELECT*{?s?p 1;?p 2;?p 3;?p 4;?p 5;?p 6;?p 7;?p 8;?p 9;?p 10;?p 11;?p 12;?p 13;?p 14;?p 15;?p 16;?p 17.}
many => SELECT ?z {?s?p?o.?s?p?o.?s?p?o.?s?p?o.?s?p?o.?s?p?o.?s?p?o.?s?p?o.?s?p?o.?s?p?o.?s?p?o.?s?p?o.?s?p?o.?s?p?o.?s?p?o.?s?p?o.?s?p?o.?s?p?o.?s?p?o.?s?p?o.?s?p?o.?s?p?o.?s?p?o.?s?p?o.?s?p?o.?s?p?o.?s?p?o.?s?p?o.?s?p?o.?s?p?o}
at => SELECT*{?s?p 1,2,3,4,5,6,7,8,9,10,11,12,13,14,15,16,17§
out FILTER => SELECT*{?s?p 1,2,3,4,5,6,7,8,9,10,11,12,13,14,15,16,17 §FILTER(?s)}
at => SELECT*{?s?p 1,2,3,4,5,6,7,8,9,10,11,12,13,14,15,16,17,§ex:a}
"#;

#[test]
fn triples_are_grouped(rt: HostRuntime) -> Result<(), Fail> {
    let wrong = wrong_lines(rt.alloc(), GROUPS)?;
    assert!(rt; wrong.is_empty(), "{wrong}");
    Ok(())
}
