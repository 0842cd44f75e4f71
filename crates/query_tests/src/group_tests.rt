//! Groups, and the trees that they spell: a text a line, and its tree behind an arrow; without an arrow
//! it is no query.

use crate::showing::expect_trees;
use std::alloc::Global;
use std::test::Fail;

/// Triple patterns.
const TRIPLES: &str = "{ ?s ?p ?o } => { (bgp [ ?s ?p ?o]) }
{ ?s ?p ?o . } => { (bgp [ ?s ?p ?o]) }
{ ?s ?p ?o . ?a ?b ?c . } => { (bgp [ ?s ?p ?o] [ ?a ?b ?c]) }
{ ?s ?p ?o, 'x' ; <x:p> -1 ;; . _:b ?p true } => { (bgp [ ?s ?p ?o] [ ?s ?p 'x'] [ ?s <x:p> -1:integer] [ _:b ?p true:boolean]) }
{ ?s ?p ?o ; ?q ?r } => { (bgp [ ?s ?p ?o] [ ?s ?q ?r]) }
{ ?s ?p ?o ;;; ?q ?r ; } => { (bgp [ ?s ?p ?o] [ ?s ?q ?r]) }
{ ?s ?p ?o ; } => { (bgp [ ?s ?p ?o]) }
{ ?s ?p ?a, ?b, ?c } => { (bgp [ ?s ?p ?a] [ ?s ?p ?b] [ ?s ?p ?c]) }
{ ?s a <x:C> } => { (bgp [ ?s <http://www.w3.org/1999/02/22-rdf-syntax-ns#type> <x:C>]) }
{ ?s ?p ?o ; a ?b, ?c } => { (bgp [ ?s ?p ?o] [ ?s <http://www.w3.org/1999/02/22-rdf-syntax-ns#type> ?b] [ ?s <http://www.w3.org/1999/02/22-rdf-syntax-ns#type> ?c]) }
{ _:a ?p _:a . } => { (bgp [ _:a ?p _:a]) }
{ 'a' ?p 5 . 5 ?p 'b'@en } => { (bgp [ 'a' ?p 5:integer] [ 5:integer ?p 'b'@en]) }
{ ?s ?p 5.?a ?b ?c } => { (bgp [ ?s ?p 5:integer] [ ?a ?b ?c]) }
{ ?s ?p 5 . -3 ?q ?r } => { (bgp [ ?s ?p 5:integer] [ -3:integer ?q ?r]) }
{ + 5 ?p - 1.5 } => { (bgp [ +5:integer ?p -1.5:decimal]) }";

/// Groups and their parts.
const GROUPS: &str = "{} => { }
{ ?s ?p ?o . FILTER(?o) . ?a ?b ?c } => { (bgp [ ?s ?p ?o]) (filter ?o) (bgp [ ?a ?b ?c]) }
{ ?s ?p ?o FILTER(?o) ?a ?b ?c . FILTER(?c) } => { (bgp [ ?s ?p ?o]) (filter ?o) (bgp [ ?a ?b ?c]) (filter ?c) }
{ FILTER(?a) . FILTER(?b) . } => { (filter ?a) (filter ?b) }
{ FILTER STR(?a) } => { (filter (Str ?a)) }
{ FILTER BOUND(?a) . ?s ?p ?o } => { (filter (Bound ?a)) (bgp [ ?s ?p ?o]) }
{ {} } => { (union { }) }
{ {} {} . {} } => { (union { }) (union { }) (union { }) }
{ ?s ?p ?o {} ?a ?b ?c } => { (bgp [ ?s ?p ?o]) (union { }) (bgp [ ?a ?b ?c]) }
{ {} UNION { ?s ?p ?o } . } => { (union { } { (bgp [ ?s ?p ?o]) }) }
{ {} uNiOn {} UNION { FILTER(?a) } } => { (union { } { } { (filter ?a) }) }
{ {} UNION {} {} } => { (union { } { }) (union { }) }
{ OPTIONAL {} MINUS { {} } } => { optional { } minus { (union { }) } }
{ OPTIONAL {} . OPTIONAL {} . MINUS {} . } => { optional { } optional { } minus { } }
{ oPtIoNaL {} mInUs {} fIlTeR(?a) vAlUeS ?x {} } => { optional { } minus { } (filter ?a) (values ?x) }
{ OPTIONAL { OPTIONAL { ?s ?p ?o } } . ?a ?b ?c } => { optional { optional { (bgp [ ?s ?p ?o]) } } (bgp [ ?a ?b ?c]) }
{ BIND(1 + 1 AS ?x) } => { (bind ?x (1:integer +1:integer)) }
{ bInD(?a aS ?b) . BIND(?b AS ?c) } => { (bind ?b ?a) (bind ?c ?b) }
{ VALUES ?x { 1 UNDEF 'a' } } => { (values ?x [ x=1:integer] [] [ x='a']) }
{ VALUES ?x {} } => { (values ?x) }
{ VALUES ?x { 5 -3 } } => { (values ?x [ x=5:integer] [ x=-3:integer]) }
{ VALUES ?x { <x:a> true 'b'@en 'c'^^<x:t> +1 } } => { (values ?x [ x=<x:a>] [ x=true:boolean] [ x='b'@en] [ x='c'^<x:t>] [ x=+1:integer]) }
{ VALUES (?x) { (1) (uNdEf) } } => { (values ?x [ x=1:integer] []) }
{ VALUES (?x ?y) { (1 UNDEF) (UNDEF -2) } } => { (values ?x ?y [ x=1:integer] [ y=-2:integer]) }
{ VALUES (?y ?x) { (1 2) } } => { (values ?y ?x [ x=2:integer y=1:integer]) }
{ VALUES (?x ?y) {} . } => { (values ?x ?y) }
{ VALUES () { () () } } => { (values [] []) }
{ VALUES () {} ?s ?p ?o } => { (values) (bgp [ ?s ?p ?o]) }";

/// Texts that are no group for their triple patterns.
const NO_TRIPLES: &str = "{ ?s }
{ ?s ?p }
{ ?s ?p ?o ?a }
{ ?s ?p ?o ?a ?b ?c }
{ . }
{ . ?s ?p ?o }
{ ?s ?p ?o . . }
{ ?s ?p ?o , }
{ ?s ?p , ?o }
{ ?s ?p ?o , , ?q }
{ ; }
{ ; ?p ?o }
{ ?s ; ?p ?o }
{ ?s ?p ; }
{ ?s ?p ?o ; ?q }
{ ?s ?p ?o ; , ?q }
{ ?s ?p ?o . ; }
{ ?s 'p' ?o }
{ ?s 5 ?o }
{ ?s _:p ?o }
{ ?s A ?o }
{ a a a }
{ ?s a a }
{ ?s <p> ?o }
{ ?s ?p UNDEF }
{ ?s ?p - ?o }
{ ?s ?p 5 -3 }
{ ?s ?p ?o.5 ?q ?r }
{ ?s ?p (?o) }
{ (?s) ?p ?o }
{ ?s ?p STR(?o) }
{ ?s <x:a>/<x:b> ?o }
{ ?s ^<x:a> ?o }";

/// Texts that are no group for their other parts.
const NO_GROUPS: &str = "{
}
{} {}
{}}
{{}
( )
{ , }
{ OPTIONAL }
{ OPTIONAL ?s ?p ?o }
{ OPTIONAL FILTER(?a) }
{ OPTIONAL {} . . }
{ MINUS }
{ MINUS ?s ?p ?o }
{ MINUS {} UNION {} }
{ UNION {} }
{ {} UNION }
{ {} UNION UNION {} }
{ {} . UNION {} }
{ {} UNION OPTIONAL {} }
{ ?s ?p ?o UNION {} }
{ OPTIONAL {} UNION {} }
{ {} , {} }
{ {} . . }
{ FILTER }
{ FILTER ?a }
{ FILTER 1 }
{ FILTER !?a }
{ FILTER () }
{ FILTER (?a, ?b) }
{ FILTER(?a }
{ FILTER BOUND }
{ FILTER COUNT(?a) }
{ FILTER(SUM(?a) > 1) }
{ . FILTER(?a) }
{ FILTER(?a) . . }
{ BIND }
{ BIND() }
{ BIND(1) }
{ BIND 1 AS ?x }
{ BIND(1 AS 2) }
{ BIND(1 ?x) }
{ BIND(AS ?x) }
{ BIND((1 AS ?x)) }
{ BIND(1 AS ?x }
{ BIND(1 AS ?x, 2 AS ?y) }
{ BIND(SUM(?a) AS ?x) }
{ VALUES }
{ VALUES ?x }
{ VALUES ?x (1) }
{ VALUES ?x { 1 }
{ VALUES ?x ?y {} }
{ VALUES ?x { (1) } }
{ VALUES ?x { 1, 2 } }
{ VALUES ?x { - } }
{ VALUES ?x { ?y } }
{ VALUES ?x { _:b } }
{ VALUES ?x { STR(1) } }
{ VALUES <x:a> { 1 } }
{ VALUES (?x) { 1 } }
{ VALUES (?x) { () } }
{ VALUES (?x) { (1 2) } }
{ VALUES (?x ?y) { (1) } }
{ VALUES (?x ?y) { (1 2) (3) } }
{ VALUES (?x ?y) { (1 2 3) } }
{ VALUES (?x ?y) { (1, 2) } }
{ VALUES (?x, ?y) {} }
{ VALUES (1) {} }
{ VALUES () { (1) } }
{ VALUES () { 1 } }";

/// Fails where a line is read as another tree behind `SELECT *`, or as none.
fn expect_lines(alloc: Global, lines: &str) -> Result<(), Fail> {
    expect_trees(alloc, lines, ("SELECT * ", ""), ("* ", ""))
}

#[test]
fn reads_groups(rt: HostRuntime) -> Result<(), Fail> {
    expect_lines(rt.alloc(), TRIPLES)?;
    expect_lines(rt.alloc(), GROUPS)
}

#[test]
fn refuses_groups(rt: HostRuntime) -> Result<(), Fail> {
    expect_lines(rt.alloc(), NO_TRIPLES)?;
    expect_lines(rt.alloc(), NO_GROUPS)
}
