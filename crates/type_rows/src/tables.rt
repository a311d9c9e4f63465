// Each line has a formula and the type of the whole, or the kind of its refusal.
use crate::names::{answer, known};
use std::alloc::Global;
use std::process::Abort;
use std::test::Fail;

fn try_all(rt: &impl Abort, alloc: Global, table: &str) -> Result<(), Fail> {
    let names = known(alloc)?;
    for line in table.lines() {
        let Some((text, wanted)) = line.split_once('@') else {
            return Err(Fail::from("a line without a type"));
        };
        let said = answer(alloc, &names, text.as_bytes())?;
        assert_eq!(rt; said.as_slice(), wanted.as_bytes());
    }
    Ok(())
}

const NUMBERS: &str = "n + n@INTEGER
n - 1@INTEGER
n * 2@INTEGER
-n@INTEGER
succ(n)@INTEGER
pred(n)@INTEGER
n / 2@INTEGER
n mod 2@INTEGER
n ** 2@INTEGER
1 .. n@POW(INTEGER)
min({n})@INTEGER
max(1 .. n)@INTEGER
card(S)@INTEGER
SIGMA(x).(x : S | 1)@INTEGER
PI(x).(x : 1 .. 3 | x)@INTEGER
5@INTEGER
MININT@INTEGER
MAXINT@INTEGER
n + b@C3
n + S@C3
n - b@C3
n - S@C3
n * p@C3
-S@C3
succ(b)@C3
pred(p)@C3
b / n@C3
n mod S@C3
S ** 2@C3
b .. n@C3
min(S)@C3
max(n)@C3
card(n)@C3
SIGMA(x).(x : S | x)@C3
PI(x).(x : S | b)@C3";

const SETS: &str = "S \\/ S@POW(P)
S /\\ S@POW(P)
S - S@POW(P)
S * T@POW(P * Q)
POW(S)@POW(POW(P))
FIN(S)@POW(POW(P))
POW1(S)@POW(POW(P))
FIN1(S)@POW(POW(P))
union(w)@POW(P)
inter(w)@POW(P)
UNION(x).(x : S | {x})@POW(P)
INTER(x).(x : S | {x})@POW(P)
{p,p}@POW(P)
{x | x : S}@POW(P)
{x,y | x : S & y : T}@POW(P * Q)
{x,y,i | x : S & y : T & i = 1}@POW(P * Q * INTEGER)
INTEGER@POW(INTEGER)
NATURAL@POW(INTEGER)
NATURAL1@POW(INTEGER)
INT@POW(INTEGER)
NAT@POW(INTEGER)
NAT1@POW(INTEGER)
BOOL@POW(BOOL)
STRING@POW(STRING)
\"a\"@STRING
S \\/ T@C3
S /\\ n@C3
S - T@C3
S - n@C3
S * n@C3
POW(n)@C3
FIN(p)@C3
union(S)@C3
inter(n)@C3
UNION(x).(x : S | x)@C3
INTER(x).(x : S | 1)@C3
{p,u}@C3
{x | x : n}@C3";

const RELATIONS: &str = "S <-> T@POW(POW(P * Q))
S +-> T@POW(POW(P * Q))
S --> T@POW(POW(P * Q))
S >+> T@POW(POW(P * Q))
S >-> T@POW(POW(P * Q))
S +->> T@POW(POW(P * Q))
S -->> T@POW(POW(P * Q))
S >->> T@POW(POW(P * Q))
dom(r)@POW(P)
ran(r)@POW(Q)
r~@POW(Q * P)
id(S)@POW(P * P)
r[S]@POW(Q)
S <| r@POW(P * Q)
S <<| r@POW(P * Q)
r |> T@POW(P * Q)
r |>> T@POW(P * Q)
r <+ r@POW(P * Q)
(r ; z)@POW(P * INTEGER)
r >< h@POW(P * (Q * P))
(r || z)@POW(P * Q * (Q * INTEGER))
prj1(S,T)@POW(P * Q * P)
prj2(S,T)@POW(P * Q * Q)
iterate(h,2)@POW(P * P)
closure1(h)@POW(P * P)
closure(h)@POW(P * P)
r(p)@Q
z(r(p))@INTEGER
%x.(x : S | 1)@POW(P * INTEGER)
%(x,y).(x : S & y : T | 1)@POW(P * Q * INTEGER)
p |-> u@P * Q
(p,u,n)@P * Q * INTEGER
p |-> (u |-> n)@P * (Q * INTEGER)
S +-> n@C3
p --> T@C3
dom(S)@C3
ran(n)@C3
S~@C3
id(n)@C3
r[T]@C3
S[S]@C3
T <| r@C3
S <<| z@C3
r |> S@C3
r |>> n@C3
r <+ z@C3
(r ; r)@C3
(z ; r)@C3
r >< z@C3
(r || S)@C3
prj1(S,n)@C3
prj2(p,T)@C3
iterate(r,2)@C3
iterate(h,b)@C3
closure1(r)@C3
closure(S)@C3
r(u)@C3
S(p)@C3
%x.(x : n | 1)@C3";

const SEQUENCES: &str = "[p,p]@POW(INTEGER * P)
seq(S)@POW(POW(INTEGER * P))
seq1(S)@POW(POW(INTEGER * P))
iseq(S)@POW(POW(INTEGER * P))
perm(S)@POW(POW(INTEGER * P))
size(q)@INTEGER
rev(q)@POW(INTEGER * P)
q ^ q@POW(INTEGER * P)
p -> q@POW(INTEGER * P)
q <- p@POW(INTEGER * P)
first(q)@P
last(q)@P
front(q)@POW(INTEGER * P)
tail(q)@POW(INTEGER * P)
conc(c)@POW(INTEGER * P)
q /|\\ 1@POW(INTEGER * P)
q \\|/ 1@POW(INTEGER * P)
[p,u]@C3
seq(n)@C3
perm(p)@C3
size(S)@C3
rev(r)@C3
q ^ r@C3
u -> q@C3
q <- u@C3
first(r)@C3
last(n)@C3
front(h)@C3
tail(S)@C3
conc(q)@C3
q /|\\ b@C3
r \\|/ 1@C3";

const PREDICATES: &str = "p = p@BOOL
p /= p@BOOL
p : S@BOOL
p /: S@BOOL
S <: S@BOOL
S /<: S@BOOL
S <<: S@BOOL
S /<<: S@BOOL
n < n@BOOL
n > n@BOOL
n <= n@BOOL
n >= n@BOOL
p : S & n = 1@BOOL
p : S or n = 1@BOOL
p : S => n = 1@BOOL
p : S <=> n = 1@BOOL
not(p : S)@BOOL
#x.(x : S)@BOOL
!x.(x : S => x = p)@BOOL
bool(p : S)@BOOL
TRUE@BOOL
IF p : S THEN n ELSE 1 END@INTEGER
p = u@C3
p /= n@C3
p : T@C3
S /: S@C3
S <: T@C3
p <: S@C3
S <<: n@C3
p < p@C3
n <= b@C3
b >= n@C3
#x.(x : n)@C3
!x.(x : S => x = u)@C3
IF p : S THEN n ELSE p END@C3";

const OPEN: &str = "{}@C4
[]@C4
<>@C4
S \\/ {}@POW(P)
{} = S@BOOL
{} = {}@C4
q ^ []@POW(INTEGER * P)
r \\/ []@C3
z \\/ {}@POW(Q * INTEGER)
{{}} \\/ w@POW(POW(P))
{{}}@C4
card({})@C4
#x.(1 = 1)@C4
#x.(x = x)@C4
#(x,y).(x - y = x)@C4
#(x,y).(x - y = x & x : NAT)@BOOL
#(x,y).(x - y = x & y <: S)@BOOL
#(x,y).(x * y = x * y)@C4
#(x,y).(x * y = x)@BOOL
#(x,y).(x * y = 1)@BOOL
#(x,y).(x * y : S <-> T)@BOOL
#(x,y).(x * y = r)@BOOL
#x.(x * x = x)@BOOL
{x | x * x = x}@POW(INTEGER)
#(x,y).(x - y = y & y * x = x)@BOOL
#(x,y,i).(x - y = i & i - x = y & y = 1)@BOOL
#(x,y).(x - y : S)@C3
#(x,y).(x - y = b)@C3
#(x,y).(x - y = n & y = S)@C3
{x | x = {x}}@C3
#x.(x : x)@C3";

const NAMES: &str = "k + 1@C1
n$0 + 1@C1
#x.(x = 1) & x = 1@C1
SIGMA(x).(x = k | x)@C1
{x | x : S & y : T}@C1
#(x,x).(x = 1)@C2
{x,x | x : S}@C2
%(x,y,x).(x : S & y : T | 1)@C2
!(x,x).(x = 1 => x = 1)@C2
SIGMA(x,x).(x = 1 | x)@C2
#(x,x).(k = 1)@C1
k = n + b@C1
#(x,x).(x = n + b)@C2
n + b = card({})@C3
#n.(n : S)@BOOL
{n | n : S}@POW(P)
%n.(n : S | n)@POW(P * P)
SIGMA(p).(p : 1 .. 2 | p)@INTEGER
#x.(x : S & #x.(x : T & x = u) & x = p)@BOOL
#x.(x : S & #x.(x : T & x = p))@C3
#x.(x = 1 & #x.(x : S & #x.(x : T)))@BOOL
{p | p = 1} = {n}@BOOL
{p | p = 1} = S@C3";

#[test]
fn numbers(rt: HostRuntime) -> Result<(), Fail> {
    try_all(&rt, rt.alloc(), NUMBERS)
}

#[test]
fn sets(rt: HostRuntime) -> Result<(), Fail> {
    try_all(&rt, rt.alloc(), SETS)
}

#[test]
fn relations(rt: HostRuntime) -> Result<(), Fail> {
    try_all(&rt, rt.alloc(), RELATIONS)
}

#[test]
fn sequences(rt: HostRuntime) -> Result<(), Fail> {
    try_all(&rt, rt.alloc(), SEQUENCES)
}

#[test]
fn predicates(rt: HostRuntime) -> Result<(), Fail> {
    try_all(&rt, rt.alloc(), PREDICATES)
}

#[test]
fn open_types(rt: HostRuntime) -> Result<(), Fail> {
    try_all(&rt, rt.alloc(), OPEN)
}

#[test]
fn hidden_and_unknown_names(rt: HostRuntime) -> Result<(), Fail> {
    try_all(&rt, rt.alloc(), NAMES)
}
