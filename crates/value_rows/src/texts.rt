// Texts of values: written exactly, read in every form, refused otherwise.
use b_values::{Face, Prefs, ReadFault, SetFace, Ty, Value, read_value, write_value};
use sqlite_items::{Boxed, Items};
use std::alloc::{AllocError, Global};
use std::process::Abort;

fn set_face(alloc: Global, name: &str, elements: &[&str]) -> Result<SetFace, AllocError> {
    let mut names = Items::new(alloc);
    for element in elements {
        names.push(Items::from_slice(alloc, element.as_bytes())?)?;
    }
    Ok(SetFace {
        name: Items::from_slice(alloc, name.as_bytes())?,
        elements: names,
    })
}

/// A machine with two sets, which have a name in common.
fn face(alloc: Global) -> Result<Face, AllocError> {
    let mut sets = Items::new(alloc);
    sets.push(set_face(alloc, "S", &["a", "b", "prj1"])?)?;
    sets.push(set_face(alloc, "T", &["b", "c_2"])?)?;
    Ok(Face {
        name: Items::new(alloc),
        sets,
        constants: Items::new(alloc),
        variables: Items::new(alloc),
        ops: Items::new(alloc),
        prefs: Prefs::default(),
    })
}

fn pair_of(alloc: Global, a: Ty, b: Ty) -> Option<Ty> {
    let a = Boxed::new(alloc, a).ok()?;
    let b = Boxed::new(alloc, b).ok()?;
    Some(Ty::Pair(a, b))
}

fn set_of(alloc: Global, a: Ty) -> Option<Ty> {
    Some(Ty::Set(Boxed::new(alloc, a).ok()?))
}

/// Sets in sets, deeper than any text that is read.
fn deep_type(alloc: Global) -> Option<Ty> {
    let mut ty = set_of(alloc, Ty::Int)?;
    for _ in 0..120 {
        ty = set_of(alloc, ty)?;
    }
    Some(ty)
}

/// The type of a name; none for want of memory.
fn type_of(alloc: Global, name: &str) -> Option<Ty> {
    match name {
        "number" => Some(Ty::Int),
        "truth" => Some(Ty::Truth),
        "string" => Some(Ty::Text),
        "element of S" => Some(Ty::Elem(0)),
        "element of T" => Some(Ty::Elem(1)),
        "element of none" => Some(Ty::Elem(2)),
        "couple and number" => pair_of(alloc, pair_of(alloc, Ty::Int, Ty::Int)?, Ty::Int),
        "number and couple" => pair_of(alloc, Ty::Int, pair_of(alloc, Ty::Int, Ty::Int)?),
        "set" => set_of(alloc, Ty::Int),
        "sequence" => set_of(alloc, pair_of(alloc, Ty::Int, Ty::Truth)?),
        "family" => set_of(alloc, set_of(alloc, Ty::Int)?),
        "deep" => deep_type(alloc),
        _ => None,
    }
}

/// What is written of what is read; `V1` where the text is none of the type. None for want of memory.
fn read_again(alloc: Global, ty: &Ty, text: &[u8]) -> Option<Vec<u8>> {
    let face = face(alloc).ok()?;
    match read_value(alloc, &face, ty, text) {
        Ok(v) => write_value(alloc, &face, &v).ok(),
        Err(ReadFault::NotAValue) => b"V1".to_vec(alloc).ok(),
        Err(ReadFault::Memory) => None,
    }
}

/// What is written of what this text reads to.
fn reads(rt: &impl Abort, alloc: Global, ty: &Ty, text: &[u8], want: &[u8]) {
    let got = read_again(alloc, ty, text).expect(rt, "memory");
    assert_eq!(rt; got.as_slice(), want, "{}", text.escape_ascii());
}

/// Each line of a table has a text and what is written of what it reads to.
fn reads_all(rt: &impl Abort, alloc: Global, name: &str, table: &str) {
    let ty = type_of(alloc, name).expect(rt, name);
    for line in table.lines() {
        let (text, want) = line.split_once(';').expect(rt, line);
        reads(rt, alloc, &ty, text.as_bytes(), want.as_bytes());
    }
}

const NUMBERS: &str = "0;0
 12  ;12
-5;-5
 -  5 ;-5
-0;0
007;7
170141183460469231731687303715884105727;170141183460469231731687303715884105727
170141183460469231731687303715884105728;V1
-170141183460469231731687303715884105728;-170141183460469231731687303715884105728
-170141183460469231731687303715884105729;V1
0000170141183460469231731687303715884105727;170141183460469231731687303715884105727
1 0;V1
--5;V1
+5;V1
-;V1
;V1
5x;V1
5,;V1
(5);V1
\t5;V1";

const STRINGS: &str = r#""";""
 "a  b" ;"a  b"
"\"\\\n\t";"\"\\\n\t"
"é{[(";"é{[("
"\r";V1
"a;V1
"a\";V1
a;V1
"a""b";V1"#;

const LEFT_COUPLES: &str = "1|->2|->3;((1|->2)|->3)
((1|->2)|->3);((1|->2)|->3)
(1|->2)|->3;((1|->2)|->3)
(1|->2|->3);((1|->2)|->3)
((1,2),3);((1|->2)|->3)
(1,2)|->3;((1|->2)|->3)
 ( 1 |-> 2 , 3 ) ;((1|->2)|->3)
((1|->2))|->3;V1
(((1|->2)|->3));V1
1|->(2|->3);V1
(1,2,3);V1
1,2|->3;V1
(1|->2|->3;V1
1|->2|->3);V1
1|->2;V1
1|->2|->3|->4;V1
1| ->2|->3;V1
(1)|->2|->3;V1";

const RIGHT_COUPLES: &str = "1|->(2|->3);(1|->(2|->3))
(1,(2,3));(1|->(2|->3))
(1,2|->3);(1|->(2|->3))
1|->2|->3;V1
(1|->2|->3);V1";

const SETS: &str = "{};{}
 { } ;{}
{3,-1,2,3};{-1,2,3}
{ 10 , 9 };{9,10}
{1,};V1
{,1};V1
{1 2};V1
{1;V1
{1}};V1
[1];V1
<>;V1
({1});V1";

const SEQUENCES: &str = "[TRUE,FALSE];{(1|->TRUE),(2|->FALSE)}
 [ TRUE ] ;{(1|->TRUE)}
[];{}
<>;{}
{};{}
{2|->FALSE,(1,TRUE),1|->TRUE};{(1|->TRUE),(2|->FALSE)}
< >;V1
[TRUE;V1
[1|->TRUE];V1";

const TRUTHS: &str = "TRUE;TRUE
 FALSE ;FALSE
true;V1
TRUEx;V1
TRU;V1";

const FIRST_ELEMENTS: &str = "a;a
 b ;b
prj1;prj1
c_2;V1
B;V1
a b;V1
prj;V1";

const FAMILIES: &str = "{{2,1},{},{1,2}};{{},{1,2}}";

#[test]
fn reads_texts_of_each_type(rt: HostRuntime) {
    for (name, table) in [
        ("number", NUMBERS),
        ("truth", TRUTHS),
        ("string", STRINGS),
        ("element of S", FIRST_ELEMENTS),
        ("element of T", "c_2;c_2\na;V1"),
        ("element of none", "a;V1"),
        ("couple and number", LEFT_COUPLES),
        ("number and couple", RIGHT_COUPLES),
        ("set", SETS),
        ("sequence", SEQUENCES),
        ("family", FAMILIES),
    ] {
        reads_all(&rt, rt.alloc(), name, table);
    }
}

#[test]
fn reads_bytes_in_strings(rt: HostRuntime) {
    reads(&rt, rt.alloc(), &Ty::Text, b"\"a\nb\"", b"V1");
    reads(&rt, rt.alloc(), &Ty::Text, b"\"\xc3\"", b"V1");
    reads(&rt, rt.alloc(), &Ty::Text, b"\"\t\"", b"\"\\t\"");
}

#[test]
fn reads_a_shared_name_by_its_set(rt: HostRuntime) {
    let face = face(rt.alloc()).expect(&rt, "memory");
    let element = read_value(rt.alloc(), &face, &Ty::Elem(1), b"b").expect(&rt, "an element");
    assert!(rt; element == Value::Elem { set: 1, index: 0 });
}

/// So many opening brackets, and as many closing ones.
fn nested(alloc: Global, depth: usize) -> Result<Vec<u8>, AllocError> {
    let mut text = Vec::new(alloc);
    for _ in 0..depth {
        text.push(b'{')?;
    }
    for _ in 0..depth {
        text.push(b'}')?;
    }
    Ok(text)
}

#[test]
fn counts_open_brackets(rt: HostRuntime) {
    let ty = type_of(rt.alloc(), "deep").expect(&rt, "memory");
    let most = nested(rt.alloc(), 100).expect(&rt, "memory");
    reads(&rt, rt.alloc(), &ty, most.as_slice(), most.as_slice());
    let over = nested(rt.alloc(), 101).expect(&rt, "memory");
    reads(&rt, rt.alloc(), &ty, over.as_slice(), b"V1");
}
