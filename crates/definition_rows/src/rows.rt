//! Lines with definitions, a text, and what is said of it: its canonical text, or why it is no formula.

/// Right uses, and two wrong ones of a name that has two definitions.
pub const ROWS: &str = "@1 + 2@1 + 2
@f(1,2)@f(1 |-> 2)
d::1@d + d@1 + 1
d::1 + 2@d * 3@(1 + 2) * 3
d::1 - 2@d - 3@(1 - 2) - 3
d:p,q:p - q@d(1,2) * 3@(1 - 2) * 3
d:p,q:q - p@d(1,2)@2 - 1
d:p:p + p@d(1 + 2)@(1 + 2) + (1 + 2)
d:p:1@d(2)@1
d:p:1@d(1 = 2)@1
d::1;;e::d + d@e * e@(1 + 1) * (1 + 1)
d::1;;d::2@d@1
d::1;;d::d@d@1
d:p:p;;d:p,q:q@d(3)@3
e::p + 1;;d:p:e * 2@d(5)@(p + 1) * 2
e::1;;d:e:e + 1@d(5)@5 + 1
d:p,p:p@d(1,2)@1
d:p:?#x.(x = p)@d(1)@#x.(x = 1)
d:p:?#x.(x = p)@d(x)@#x.(x = x)
d:p:p@d((1,2))@1 |-> 2
d:p:p@d(1)(2)@1(2)
d:p:p@d(f(1))(2)@(f(1))(2)
d::f@d(1)@f(1)
d::f@d(1,2)@f(1 |-> 2)
d::?1 = 1@d & d@1 = 1 & 1 = 1
d::?1 = 1@bool(d)@bool(1 = 1)
d:p:?p & p@d(1 = 2)@1 = 2 & 1 = 2
d:p:?!x.(p)@d(x = 1 => x = 2)@!x.(x = 1 => x = 2)
d::?x = 1 => x = 2@!x.(d)@!x.(x = 1 => x = 2)
d::1@x$0 + d@x$0 + 1
x::1@x$0@x$0
d:x:x$0@d(1)@x$0
d::skip@1@1
d::1;;d::skip@d@1
d::skip;;d::1@d@none";

/// The same in an order in which uses stand before what they use. The last definition of a name is never meant, and no
/// circle goes through it.
pub const ANY_ORDER: &str = "a::b + 1;;b::2@a@2 + 1
c::b * b;;b::a + 1;;a::2@c@(2 + 1) * (2 + 1)
d::?e & 1 = 1;;e::?2 = 2@d@2 = 2 & 1 = 1
g:p:f(p) + 1;;f:p:p * p@g(3)@3 * 3 + 1
d::e;;e::1;;e::2@d@1
e::1;;d::e;;e::2@d@1
e::1;;e::2;;d::e@d@1
d::e;;e::f;;f::1;;e::2@d@1
d::1;;d::e;;e::d@e@1
d::1;;e::d;;d::e@d + e@1 + 1
d::1;;d::d@d@1
d::f;;d::d;;f::1@d@1
d:e:e + 1;;e::d(2)@e@2 + 1
d::e;;e::skip@1@1
d::?#d.(d = 1)@1@1
d::?#d.(d = 1)@d@none
d::?e;;e::?#d.(d = 1)@1@1
d::?e;;e::?#d.(d = 1)@d@none
d::?!x.(x = 1 => e);;e::?#x.(x = 1)@e@#x.(x = 1)
s::do d;;d::1@d@1
d::1;;s::do s;;s::skip@d@circle
d::d@d@circle
d::d@1@circle
d::e;;e::d@1@circle
d::e;;e::f;;f::d@f@circle
a::1;;d::e + a;;e::d + a@a@circle
d:p:d(p)@d(1)@circle
d::k(d);;k:p:1@1@circle
d::1 + e;;e:p:{x | x = d & x = p}@1@circle
s::do t;;t::do s@1@circle
s::do d;;d::s@1@circle";

/// Each line has definitions and a text that uses them wrongly.
pub const WRONG_USES: &str = "d:p:p@d
d:p:p@d + 1
d:p:p@d(1,2)
d:p:p@d~
d:p:p@d[1]
d:p,q:p@d(1)
d:p,q:p@d((1,2))
d:p,q:p@d(1 |-> 2)
d:p,q:p@d(1)(2)
d:p,q:p@d(1,2,3)
d:p:?p = 1@d & 1 = 1
d:p:p;;e::d@e
d:p:p;;e:p:d(p,p)@e(1)
d:p:p;;k:p:1@k(d)
d:p:p;;k:p:1@k(d(1,2))
d::?1 = 1@d + 1
d::?1 = 1@-d
d::?1 = 1@d = d
d::?1 = 1@{d}
d::?1 = 1@card(d)
d::?1 = 1@d(1)
d::?1 = 1@f(d)
d::?1 = 1@f[d]
d::?1 = 1@%x.(x = 1 | d)
d::?1 = 1@IF 1 = 1 THEN d ELSE 2 END
d::?1 = 1@!x.(d)
d::?1 = 1;;e::d@e
d::?1 = 1;;e:p:p + 1@e(d)
d::1@d & 1 = 1
d::1@not(d)
d::1@bool(d)
d::1@#x.(d)
d::1@!x.(d)
d::1@{x | d}
d::1@%x.(d | x)
d::1@IF d THEN 1 ELSE 2 END
d::1;;e::?d@e
d::1;;e:p:?p & p@e(d)
d::1 + (1 = 1)@d
d:p:p + 1@d(1 = 1)
d:p:p@d(1 = 1)
d:p:?p & p@d(1)
d:p:?bool(p) = p@d(1)
d:p:?bool(p) = p@d(1 = 1)
d:p:?!x.(p)@d(x = 1 & x = 2)
d::skip@d
d::skip@d + 1
d::skip@d & 1 = 1
d::skip@bool(d)
d::skip@d(1)
d:p:skip@d(1)
d::skip;;e::d@e
d::skip;;k:p:1@k(d)
d:p:?#p.(p = 1)@d(1)
d:p:?#p.(p = 1)@d(p)
d:p:?#(x,p).(x = p)@d(1)
d:p:?!p.(p = 1 => p = 1)@d(1)
d:p:{p | p = 1}@d(1)
d:p:{x,p | x = p}@d(1)
d:p:%p.(p = 1 | 1)@d(1)
d:p:SIGMA(p).(p = 1 | 1)@d(1)
d:p:PI(p).(p = 1 | 1)@d(1)
d:p:UNION(p).(p = 1 | {1})@d(1)
d:p:INTER(p).(p = 1 | {1})@d(1)
d:p,q:?#q.(q = p)@d(1,2)
d::1@#d.(d = 1)
d::1@#(x,d).(x = d)
d::1@!d.(d = 1 => d = 1)
d::1@{d | d = 1}
d::1@{x,d | x = d}
d::1@%d.(d = 1 | 1)
d::1@SIGMA(d).(d = 1 | 1)
d::1@PI(d).(d = 1 | 1)
d::1@UNION(d).(d = 1 | {1})
d::1@INTER(d).(d = 1 | {1})
d:p:p@{d | d = 1}
d::?1 = 1@{d | d = 1}
d::skip@{d | d = 1}
d::?#d.(d = 1)@d
d::1;;e::?#d.(d = 1)@e
e::?#d.(d = 1);;d::1@e
d::1;;k:p:1@k({d | d = 1})
d:p:1@d(1 + (1 = 2))
d:p:#x.(x = p)@d(1)
d::1@SIGMA(d).(d = 1 | d)
d:p:p + 1@d
d:p:p + 1@d(1,2)
d:p,q:p + q@d(1)
d:p,q:p + q@d((1,2))
d:p,q:p + q@d[1]
d:p:p@d(1 = 2)
d:p:?!x.(p)@d(x = 1)";

/// Definitions, a text, and how many brackets stand round it: a use puts its body one bracket deeper, and an argument
/// stands one deeper than its parameter.
pub const DEPTHS: &str = "d::1@d@99@1
d::1@d@100@deep
d::(1)@d@98@1
d::(1)@d@99@deep
d:p:(p)@d(1)@97@1
d:p:(p)@d(1)@98@deep
d:p:2@d(1)@99@2";

/// Definitions with d1 among them, a pattern by which d2 and so on are made of the one before (`#`), up to which, and a text.
/// A few doublings are read, and a hundred names for one number. What grows is refused before anything of its size is
/// built, and an argument that vanishes is never built: it is judged by summaries, however wide and deep it would be.
pub const GROWING: &str = "k:x:1;;d1::1 + 1@::# + #@2@d2@(1 + 1) + (1 + 1)
k:x:1;;d1:x:x + x@:x:#(x) + #(x)@2@d2(1)@(1 + 1) + (1 + 1)
k:x:1;;d1:x:x + x@:x:#(#(x))@2@d2(1)@(1 + 1) + (1 + 1)
k:x:1;;d1::1 + 1@::# + #@2@k(d2)@1
d1:x:x + 1@:x:#(#(x))@6@d6(1)@deep
d1::1@::#@100@d100@1
d1::1@::#@101@d101@deep
d1::1@::#@3000@d3000@deep
k:x:1;;d1::1 + 1@::# + #@30@d30@wide
k:x:1;;d1:x:x + x@:x:#(x) + #(x)@30@d30(1)@wide
k:x:1;;d1:x:x + x@:x:#(#(x))@30@d30(1)@deep
k:x:1;;d1:x:x + x + x + x@:x:#(#(x))@5@d5(1)@wide
k:x:1;;d1::1 + 1@::# + #@30@k(d30)@1
k:x:1;;d1:x:x + x@:x:#(x) + #(x)@30@k(d30(1))@1
k:x:1;;d1:x:x + x@:x:#(#(x))@30@k(d30(1))@1
k:x:1;;d1::1 + 1@::# + #@30@k(d30 + (1 = 1))@none
k:x:1;;d1::1@::#@500@k(d500)@1
k:x:1;;d1::1@::#@501@d501@deep
k:x:1;;d1::1@::#@2000@k(d2000)@1
k:x:1;;d1::1@::k(#)@251@d251@1
k:x:1;;d1::1@::k(#)@2000@d2000@1
k:x:1;;d1::1@::k(#)@2000@k(d2000) + d1@1 + 1
k:x:1;;d1:p,q:p + q@:p,q:#(p+p,q+q) + #(p+p+1,q+q) + #(p+p,q+q+1) + #(p+p+1,q+q+1)@2@k(d2(1,2))@1
k:x:1;;d1:p,q:p + q@:p,q:#(p+p,q+q) + #(p+p+1,q+q) + #(p+p,q+q+1) + #(p+p+1,q+q+1)@20@d20(1,2)@wide
k:x:1;;d1:p,q:p + q@:p,q:#(p+p,q+q) + #(p+p+1,q+q) + #(p+p,q+q+1) + #(p+p+1,q+q+1)@20@k(d20(1,2))@1
k:x:1;;d1:p,q:p + q@:p,q:#(p+p,q+q) + #(p+p+1,q+q) + #(p+p,q+q+1) + #(p+p+1,q+q+1)@20@k(d20(1,2) + (1 = 1))@none
k:x:1;;d1:p,q:p + q@:p,q:#(p+q,p) + #(q,p+1)@2@d2(1,2)@((1 + 2) + 1) + (2 + (1 + 1))
k:x:1;;d1:p,q:p + q@:p,q:#(p+q,p) + #(q,p+1)@30@d30(1,2)@wide
k:x:1;;d1:p,q:p + q@:p,q:#(p+q,p) + #(q,p+1)@30@k(d30(1,2))@1
k:x:1;;d1::1@::#@10000@d10000@deep
k:x:1;;d1::1@::#@10000@k(d10000)@1
k:x:1;;d1::d10000@::#@10000@k(d10000)@circle";

/// Read in its order, a body knows the definitions before it alone.
pub const IN_ORDER: &str = "a::b + 1;;b::2@a@b + 1
b::2;;a::b + 1@a@2 + 1";

/// What is known of an expanded tree: its sort, its nodes, and the most brackets open at a place.
pub const MEASURED: &str = "d::1 + 2;;k:x:1@d * k(d)@Expression 5 Some(1)
d::?1 = 2@d & d@Predicate 7 Some(1)
k:x:1@k@nothing";

/// Where a text is refused: at its first use of a definition, or where it begins.
pub const REFUSED: &str = "k:x:1@1 + k(1, 2)@4
k:x:1@ x & 1@1
k:x:1@k(1)@fits";

/// The names of an arranged table, or the place of a definition in a circle. Definitions come behind those that they use,
/// and those of a name that has an earlier one come last.
pub const ARRANGED: &str = "a::b;;b::1@ba
a::b + c;;b::c;;c::1@cba
d::1;;d::e;;e::d@ded
a::1;;d::d@1";
