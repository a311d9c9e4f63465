// Texts of formulas and what their trees are printed as.
use b_ast::Expr;
use b_expand::ParseFault;
use b_lex::lex;
use b_parse_expr::tree_of_text;
use b_print::texts::print_expr;
use std::alloc::{AllocError, Global};
use std::process::Abort;
use std::test::Fail;

// The canonical text of a text's tree, or none where the text has no tree.
fn canonical(alloc: Global, text: &[u8]) -> Result<Option<Vec<u8>>, Fail> {
    let tokens = lex(alloc, text)?;
    match tree_of_text(alloc, text, &tokens) {
        Ok(formula) => Ok(Some(print_expr(alloc, &Expr { formula })?)),
        Err(ParseFault::Refused { kind: _, at: _ }) => Ok(None),
        Err(ParseFault::Memory) => Err(Fail::from("no memory")),
    }
}

// Whether a text's tree is printed as this.
fn is_printed(alloc: Global, text: &[u8], wanted: &[u8]) -> Result<bool, Fail> {
    match canonical(alloc, text)? {
        Some(printed) => Ok(printed.as_slice() == wanted),
        None => Ok(false),
    }
}

// Each line has a text and its canonical text.
const FORMS: &str = "1-(2-3)@1 - (2 - 3)
1-2-3@1 - 2 - 3
(1-2)-3@(1 - 2) - 3
2**3**2@2 ** 3 ** 2
2**(3**2)@2 ** (3 ** 2)
-2**2@-2 ** 2
-(2**2)@-(2 ** 2)
-(-1)@-(-1)
2- -3@2 - -3
((1))@1
007@7
\"a\\n\\\"b\\\\\\t\"@\"a\\n\\\"b\\\\\\t\"
x $0@x$0
TRUE@TRUE
1=1@1 = 1
(x=1&y=1)&z=1@(x = 1 & y = 1) & z = 1
x=1 or y=1&z=1@x = 1 or y = 1 & z = 1
(x=1=>y=1)=>z=1@(x = 1 => y = 1) => z = 1
not(x=1)@not(x = 1)
bool(x=1)@bool(x = 1)
card(S)@card(S)
prj1(S,T)@prj1(S,T)
<>@[]
[]@[]
[1,2]@[1,2]
{}@{}
{1,2-1}@{1,2 - 1}
(1,2)@1 |-> 2
(1,2,3)@1 |-> 2 |-> 3
((1,2),3)@(1 |-> 2) |-> 3
(r;s)@(r ; s)
card(r;s)@card(r ; s)
card((r;s)||t)@card((r ; s) || t)
{r;s}@{r ; s}
f(1)@f(1)
f(1)(2)@f(1)(2)
(f(1))(2)@(f(1))(2)
(-f)(1)@(-f)(1)
-f(1)@-f(1)
r~[S]@r~[S]
(r~)[S]@(r~)[S]
(r;s)[S]@(r ; s)[S]
IF x=1 THEN 2 ELSE 3 END@IF x = 1 THEN 2 ELSE 3 END
IF x=1 THEN (r;s) ELSE t END@IF x = 1 THEN (r ; s) ELSE t END
IF x=1 THEN 2 ELSE 3 END-1@IF x = 1 THEN 2 ELSE 3 END - 1
{x|x:1..2}@{x | x : 1 .. 2}
{x,y|x=y}@{x,y | x = y}
#x.(x=1)@#x.(x = 1)
#(x).(x=1)@#x.(x = 1)
#(x,y).(x=y)@#(x,y).(x = y)
!x.(x=1=>x=2)@!x.(x = 1 => x = 2)
!(x,y).(x=y=>y=x)@!(x,y).(x = y => y = x)
%(x).(x:1..2|x)@%x.(x : 1 .. 2 | x)
%(x,y).(x=y|x)@%(x,y).(x = y | x)
SIGMA(x).(x:1..2|x)@SIGMA(x).(x : 1 .. 2 | x)
SIGMA x.(x:1..2|x)@SIGMA(x).(x : 1 .. 2 | x)
PI(x,y).(x=y|x)@PI(x,y).(x = y | x)
UNION(x).(x:S|x)@UNION(x).(x : S | x)
INTER(x).(x:S|x)@INTER(x).(x : S | x)
%x.(x=1|(r;s))@%x.(x = 1 | r ; s)";

// A canonical text is its own.
#[test]
fn forms(rt: HostRuntime) -> Result<(), Fail> {
    for line in FORMS.lines() {
        let Some((text, wanted)) = line.split_once('@') else {
            return Err(Fail::from("a line without a canonical text"));
        };
        assert!(rt;
            is_printed(rt.alloc(), text.as_bytes(), wanted.as_bytes())?,
            "{text}"
        );
        assert!(rt;
            is_printed(rt.alloc(), wanted.as_bytes(), wanted.as_bytes())?,
            "{wanted}"
        );
    }
    Ok(())
}

// The binary operators, each with its priority.
const OPERATORS: &str = "200@**
190@*
190@/
190@mod
180@+
180@-
170@..
160@|->
160@\\/
160@/\\
160@^
160@->
160@<-
160@/|\\
160@\\|/
160@<|
160@|>
160@<<|
160@|>>
160@<+
160@><
125@<->
125@+->
125@-->
125@>+>
125@>->
125@+->>
125@-->>
125@>->>
060@:
060@/:
060@<:
060@/<:
060@<<:
060@/<<:
060@=
060@/=
060@<
060@>
060@<=
060@>=
050@<=>
040@&
040@or
030@=>
020@;
020@||";

// The parts one after another, in the brackets of a function word.
fn joined(alloc: Global, parts: &[&str]) -> Result<Vec<u8>, AllocError> {
    let mut text = Vec::new(alloc);
    text.extend_from_slice(b"card(")?;
    for part in parts {
        text.extend_from_slice(part.as_bytes())?;
    }
    text.push(b')')?;
    Ok(text)
}

// A bracketed text is printed with its brackets where the inner operator binds no tighter than the outer one, and then
// the text without brackets has another tree or none; elsewhere it is printed without them.
fn expect(
    rt: &impl Abort,
    alloc: Global,
    bracketed: &[u8],
    bare: &[u8],
    tighter: bool,
) -> Result<(), Fail> {
    if tighter {
        assert!(rt; is_printed(alloc, bracketed, bare)?);
        assert!(rt; is_printed(alloc, bare, bare)?);
    } else {
        assert!(rt; is_printed(alloc, bracketed, bracketed)?);
        assert!(rt; !is_printed(alloc, bare, bracketed)?);
    }
    Ok(())
}

fn expect_pair(rt: &impl Abort, alloc: Global, first: &str, second: &str) -> Result<(), Fail> {
    let Some((p, o)) = first.split_once('@') else {
        return Err(Fail::from("a line without an operator"));
    };
    let Some((q, n)) = second.split_once('@') else {
        return Err(Fail::from("a line without an operator"));
    };
    let bare = joined(alloc, &["a ", o, " b ", n, " c"])?;
    let right = joined(alloc, &["a ", o, " (b ", n, " c)"])?;
    expect(rt, alloc, &right, &bare, q.as_bytes() > p.as_bytes())?;
    let left = joined(alloc, &["(a ", o, " b) ", n, " c"])?;
    expect(rt, alloc, &left, &bare, p.as_bytes() > q.as_bytes())
}

// Each operator as the left and as the right operand of each other.
#[test]
fn pairs_of_operators(rt: HostRuntime) -> Result<(), Fail> {
    let mut count = 0u64;
    for first in OPERATORS.lines() {
        for second in OPERATORS.lines() {
            expect_pair(&rt, rt.alloc(), first, second)?;
            count = count.wrapping_add(1);
        }
    }
    assert_eq!(rt; count, 2209);
    Ok(())
}
