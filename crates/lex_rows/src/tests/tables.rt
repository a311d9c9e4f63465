// The rows of the tables, one a line. A text is written as it stands, but for `@` and two digits of base 16, which stand for
// that byte. Behind it and a "`" stands what it is cut into: for each byte that separates or stands in a comment a dot, and
// for each token a letter a byte, the first one great: N a name, D a number, T a string, W a reserved word, S a sign. Where
// the text is refused stands `!` with the kind and the place.

// Tokens of each kind beside one another.
pub(super) const TOKENS: &str = r#"x $0`N.Ss
x$0@0Dx`NSs.N
12ab`DdNn
a_1 0007`Nnn.Dddd
170141183460469231731687303715884105727`Ddddddddddddddddddddddddddddddddddddddd
a<=>b`NSssN
<=a`SsN
+->>>`SsssS
1..2`DSsD
"a\"\\\n\tb"`Tttttttttttt
"@E2@82@AC@F0@9F@98@80@09"x`TtttttttttN
// "c`.....
//`..
/**/`....
/* c */x`.......N
/*/*/x`.....N
/***/x`.....N
x//@FF@0Dy@0Az`N......N
x/*@80@0A*/y`N......N
x/y`NSN"#;

// Each fault at its place.
pub(super) const FAULTS: &str = r#"/* a`!OpenComment 0
x /*/`!OpenComment 2
"a`!OpenString 0
x "a@0Ab"`!OpenString 2
"a\`!OpenString 0
"a\@0A"`!OpenString 0
170141183460469231731687303715884105728`!NumberTooWide 0
1 999999999999999999999999999999999999999999`!NumberTooWide 2
?`!BadByte 0
x ? "`!BadByte 2
"?" ?`!BadByte 4
$`!BadByte 0
$1`!BadByte 0
_a`!BadByte 0
a'b`!BadByte 1
\x`!BadByte 0
@80`!BadByte 0
"\q"`!BadByte 2
"\@E2"`!BadByte 2
"a@FF`!BadByte 2
"a@FF@0A`!BadByte 2
"@E2@82`!BadByte 1
"@E2@82"`!BadByte 1
"@C0@80"`!BadByte 1
"@ED@A0@80"`!BadByte 1
"@F4@90@80@80"`!BadByte 1"#;

// What separates, and what does not.
pub(super) const SEPARATORS: &str = r#"`
 `.
@09@0D@0A `....
a b`N.N
a@09b`N.N
a@0Db`N.N
a@0Ab`N.N
a@0D@0Ab`N..N
  a  `..N..
a@0Bb`!BadByte 1
a@0Cb`!BadByte 1
a@00`!BadByte 1
a@C2@A0b`!BadByte 1"#;

// Comments within a text and at its end.
pub(super) const COMMENTS: &str = r#"/`S
x/`NS
x/y`NSN
x/ /`NS.S
x/ *`NS.S
/**/`....
x/**/`N....
x/***/`N.....
x/* */y`N.....N
x/*@0A*/y`N.....N
x/*@0D*/y`N.....N
/* // */x`........N
/* " */x`.......N
/*/*/x`.....N
/*/**/x`......N
/**//`....S
/**//x`....SN
/**///x`.......
/**//*`!OpenComment 4
/*`!OpenComment 0
/*/`!OpenComment 0
x /*/`!OpenComment 2
x/*/ y`!OpenComment 1
/* *`!OpenComment 0
/* * /`!OpenComment 0
/* */ /*`!OpenComment 6
/* a@0A`!OpenComment 0
/*"*/"`!OpenString 5
//`..
///`...
//*`...
//*/x`.....
x//`N..
x//y`N...
x//@0A`N...
x//@0Ay`N...N
x//@0Dy`N....
x//@0D@0Ay`N....N
x// /*@0Ay`N......N
x// "@0Ay`N.....N
//@0A//`.....
//@0A/*`!OpenComment 3
"/*"`Tttt
"//"`Tttt
*/`SS
x*/y`NSSN
x**/y`NSsSN
x**//y`NSs...
x*/*y*/z`NS.....N
x/\/y`NSsSN
x/\//y`NSs...
x\/*y`NSsSN
x\//y`NSsSN
x\///y`NSs...
x\//*y*/z`NSs.....N"#;

// Strings with their escapes, and strings that are cut.
pub(super) const STRINGS: &str = r#"""`Tt
"a"`Ttt
" a/* "`Ttttttt
"a"b`TttN
a"b"`NTtt
1"b"`DTtt
"a""b"`TttTtt
"@0D"`Ttt
"@09"`Ttt
"@00"`Ttt
"@7F"`Ttt
"\""`Tttt
"\\"`Tttt
"\n"`Tttt
"\t"`Tttt
"\"\\\n\t"`Tttttttttt
"\\n"`Ttttt
"\r"`!BadByte 2
"\0"`!BadByte 2
"\N"`!BadByte 2
"\T"`!BadByte 2
"\'"`!BadByte 2
"\/"`!BadByte 2
"\ "`!BadByte 2
"\@0D"`!BadByte 2
"\@09"`!BadByte 2
"\@C3@A9"`!BadByte 2
"\@FF"`!BadByte 2
"\\\q"`!BadByte 4
x "a\q"`!BadByte 5
"`!OpenString 0
"a`!OpenString 0
x "a`!OpenString 2
"" "`!OpenString 3
"a@0A`!OpenString 0
"a@0A"`!OpenString 0
x"a@0Ab"`!OpenString 1
"\`!OpenString 0
"\"`!OpenString 0
"\\`!OpenString 0
"\\\`!OpenString 0
"\\\"`!OpenString 0
"\@0A`!OpenString 0
"\@0A"`!OpenString 0
"a\\@0A"`!OpenString 0
"\q`!BadByte 2
"\q@0A`!BadByte 2
"a@0A\q"`!OpenString 0
"a@0A@FF"`!OpenString 0
"@FF`!BadByte 1
"a@FF@0A`!BadByte 2
"@FF\q"`!BadByte 1
"\q@FF"`!BadByte 2"#;

// Bytes above 127 in strings, in comments and elsewhere.
pub(super) const CHARACTERS: &str = r#""@C2@80"`Tttt
"@C3@A9"`Tttt
"@DF@BF"`Tttt
"@E0@A0@80"`Ttttt
"@E2@82@AC"`Ttttt
"@ED@9F@BF"`Ttttt
"@EE@80@80"`Ttttt
"@EF@BF@BF"`Ttttt
"@F0@90@80@80"`Tttttt
"@F0@9F@98@80"`Tttttt
"@F4@8F@BF@BF"`Tttttt
"@80"`!BadByte 1
"@BF"`!BadByte 1
"@C0@80"`!BadByte 1
"@C1@BF"`!BadByte 1
"@C3"`!BadByte 1
"@C3a"`!BadByte 1
"@C3\n"`!BadByte 1
"@C3@C3@A9"`!BadByte 1
"@C3@A9@A9"`!BadByte 3
"@E0@9F@BF"`!BadByte 1
"@E2"`!BadByte 1
"@E2@82"`!BadByte 1
"@E2@82a"`!BadByte 1
"@E2a@82"`!BadByte 1
"@E2@82@C3"`!BadByte 1
"@ED@A0@80"`!BadByte 1
"@ED@BF@BF"`!BadByte 1
"@F0@8F@BF@BF"`!BadByte 1
"@F0@9F@98"`!BadByte 1
"@F0@9F@98a"`!BadByte 1
"@F4@90@80@80"`!BadByte 1
"@F5@80@80@80"`!BadByte 1
"@F8@88@80@80@80"`!BadByte 1
"@FE"`!BadByte 1
"a@FF"`!BadByte 2
"@E2@82@AC@E2@82"`!BadByte 4
"@C3@A9@F0@9F@98"`!BadByte 3
"@C3`!BadByte 1
"@E2`!BadByte 1
"@E2@82`!BadByte 1
"@F0@9F@98`!BadByte 1
"@E2@82@AC`!OpenString 0
"a@C3@0A"`!BadByte 2
"@E2@82@0A"`!BadByte 1
@80`!BadByte 0
@C3@A9`!BadByte 0
x@C3@A9`!BadByte 1
x @E2@82@AC`!BadByte 2
1@F0@9F@98@80`!BadByte 1
+@FF`!BadByte 1
"a"@C3@A9`!BadByte 3
/*@C3*/x`.....N
/*@E2@82@AC*/x`.......N
/*@FF`!OpenComment 0
//@FF`...
//@E2@82@0Ax`.....N
x//@80@0D@0Ay`N.....N"#;

// Numbers beside the greatest that is read, and what stands directly behind digits.
pub(super) const NUMBERS: &str = r#"0`D
007`Ddd
170141183460469231731687303715884105727`Ddddddddddddddddddddddddddddddddddddddd
170141183460469231731687303715884105728`!NumberTooWide 0
000170141183460469231731687303715884105727`Dddddddddddddddddddddddddddddddddddddddddd
000170141183460469231731687303715884105728`!NumberTooWide 0
0000000000000000000000000000000000000000000000000000000000001`Ddddddddddddddddddddddddddddddddddddddddddddddddddddddddddddd
000000000000000000000000000000000000000000000000000000000000170141183460469231731687303715884105727`Ddddddddddddddddddddddddddddddddddddddddddddddddddddddddddddddddddddddddddddddddddddddddddddddddddd
000000000000000000000000000000000000000000000000000000000000170141183460469231731687303715884105728`!NumberTooWide 0
170141183460469231731687303715884105737`!NumberTooWide 0
340282366920938463463374607431768211455`!NumberTooWide 0
340282366920938463463374607431768211456`!NumberTooWide 0
340282366920938463463374607431768211457`!NumberTooWide 0
100000000000000000000000000000000000000`Ddddddddddddddddddddddddddddddddddddddd
1000000000000000000000000000000000000000`!NumberTooWide 0
99999999999999999999999999999999999999`Dddddddddddddddddddddddddddddddddddddd
999999999999999999999999999999999999999`!NumberTooWide 0
x 170141183460469231731687303715884105728`!NumberTooWide 2
-170141183460469231731687303715884105727`SDdddddddddddddddddddddddddddddddddddddd
-170141183460469231731687303715884105728`!NumberTooWide 1
170141183460469231731687303715884105727x`DddddddddddddddddddddddddddddddddddddddN
170141183460469231731687303715884105728x`!NumberTooWide 0
170141183460469231731687303715884105727 170141183460469231731687303715884105728`!NumberTooWide 40
170141183460469231731687303715884105728 "`!NumberTooWide 0
1.5`DSD
1..2`DSsD
1...2`DSsSD
1 2`D.D
0x1F`DNnn
12ab`DdNn
1_0`!BadByte 1
1/**/2`D....D
$0`Ss
$0$0`SsSs
x$0`NSs
$00`SsD
$01`SsD
$0x`SsN
1$0`DSs
$`!BadByte 0
$1`!BadByte 0
$ 0`!BadByte 0
$$0`!BadByte 0
x$`!BadByte 1
$x`!BadByte 0"#;

// Names beside reserved words.
pub(super) const NAMES: &str = r#"a`N
a_`Nn
a__1`Nnnn
A1b2`Nnnn
_a`!BadByte 0
1a`DN
a'`!BadByte 1
a$0b`NSsN
a.b`NSN
xor`Nnn
orx`Nnn
or1`Nnn
or_`Nnn
Or`Nn
OR`Ww
oR`Nn
or or`Ww.Ww
or/**/or`Ww....Ww
or+not`WwSWww
1or2`DNnn
1or 2`DWw.D
POW1`Wwww
POW2`Nnnn
POW11`Nnnnn
POW 1`Www.D
closure1`Wwwwwwww
closure12`Nnnnnnnnn
prj`Nnn
prj1`Wwww
prj3`Nnnn
seq_1`Nnnnn
NAT2`Nnnn
NATURAL1`Wwwwwwww
INTEGERS`Nnnnnnnn
machine`Nnnnnnn
MACHINES`Nnnnnnnn
SETS`Wwww
SET`Nnn
BEGINEND`Nnnnnnnn
BEGIN END`Wwwww.Www
struct`Wwwwww
rec(a:1)`WwwSNSDS
SEES`Wwww"#;

// Two signs, and behind a "`" what they are cut into where nothing stands between them. These are the pairs that begin like a longer sign
// or a comment, and those of which one begins the other.
pub(super) const PAIRS: &str = r"=> =`SsS
<=> <`SssS
<=> <=`SssSs
: =>`SsS
: :`Ss
: =`Ss
: ==`SsS
: :=`SsS
: ::`SsS
/: /`SsS
<: <`SsS
<<: <`SssS
/<: /`SssS
/<<: /`SsssS
= =>`SsS
= =`Ss
= ==`SsS
= >`Ss
= >=`SsS
= >+>`SsSS
= >->`SsSs
= >->>`SsSsS
= ><`SsS
/= /`SsS
== =`SsS
< =>`Sss
< <=>`SSss
< :`Ss
< <:`Sss
< <<:`SSss
< =`Ss
< ==`SsS
< <`SS
< >`Ss
< <=`SSs
< >=`SsS
< -`Ss
< +`Ss
< <->`SSss
< +->`SsSs
< -->`SssS
< >+>`SsSS
< >->`SsSs
< +->>`SsSsS
< -->>`SssSS
< >->>`SsSsS
< <|`Sss
< |>`SsS
< <<|`SSss
< |>>`SsSS
< <+`SSs
< ><`SsS
< ||`SsS
< |`Ss
< |->`SsSs
< ->`Sss
< <-`SSs
< <--`SSss
< <>`SSs
< :=`SsS
< ::`SsS
> =>`SsS
> <=>`SsSs
> <:`SsS
> <<:`SsSs
> =`Ss
> ==`SsS
> <`Ss
> <=`SsS
> >=`SSs
> -`SS
> +`SS
> <->`SsSs
> +->`SSss
> -->`SSss
> >+>`SSss
> >->`SSss
> +->>`SSsss
> -->>`SSsss
> >->>`SSsss
> <|`SsS
> <<|`SsSs
> <+`SsS
> ><`SSs
> ->`Sss
> <-`SsS
> <--`SsSS
> <>`SsS
<= <=>`SsSss
<= <`SsS
<= >`Sss
<= >=`SssS
<= >+>`SssSS
<= >->`SssSs
<= >->>`SssSsS
<= ><`SssS
>= >`SsS
\/ /:`SsSs
\/ /<:`SsSss
\/ /<<:`SsSsss
\/ /=`SsSs
\/ /\`SsSs
\/ *`SsS
\/ /`SsS
\/ **`SsSs
\/ /|\`SsSss
/\ /`SsS
- >`Ss
- >=`SsS
- -`SS
- -->`SSss
- >+>`SsSS
- >->`SsSs
- -->>`SSsss
- >->>`SsSsS
- ><`SsS
- ->`Sss
* *`Ss
* **`SsS
/ =>`SsS
/ <=>`SSss
/ :`Ss
/ /:`...
/ <:`Sss
/ <<:`Ssss
/ /<:`....
/ /<<:`.....
/ =`Ss
/ /=`...
/ ==`SsS
/ <`SS
/ <=`SSs
/ \/`SsS
/ /\`...
/ *`!OpenComment 0
/ /`..
/ **`!OpenComment 0
/ <->`SSss
/ <|`SSs
/ |>`SSs
/ <<|`SSss
/ |>>`SSss
/ <+`SSs
/ ||`SSs
/ |`SS
/ |->`SSss
/ <-`SSs
/ <--`SSss
/ /|\`....
/ \|/`SsSS
/ <>`SSs
/ :=`SsS
/ ::`SsS
** *`SsS
+ -`SS
+ +->`SSss
+ -->`SSss
+ +->>`SSsss
+ -->>`SSsss
+ ->`Sss
.. .`SsS
. ..`SsS
. .`Ss
<-> <`SssS
<-> <-`SssSs
+-> >`Ssss
+-> >=`SsssS
+-> +`SssS
+-> >+>`SsssSS
+-> >->`SsssSs
+-> +->>`SssSsss
+-> >->>`SsssSsS
+-> ><`SsssS
--> >`Ssss
--> >=`SsssS
--> -`SssS
--> >+>`SsssSS
--> >->`SsssSs
--> -->>`SssSsss
--> >->>`SsssSsS
--> ><`SsssS
>+> >`SssS
>-> >`Ssss
>-> >=`SsssS
>-> >+>`SsssSS
>-> >->`SsssSs
>-> >->>`SsssSsS
>-> ><`SsssS
+->> +`SsssS
+->> +->`SsssSss
-->> -`SsssS
-->> -->`SsssSss
>->> >`SsssS
>->> >->`SsssSss
<| <`SsS
|> >`Sss
|> >=`SssS
|> >+>`SssSS
|> >->`SssSs
|> >->>`SssSsS
|> |>>`SsSss
|> ><`SssS
|> |`SsS
<<| <`SssS
|>> |>`SssSs
|>> |`SssS
<+ <`SsS
>< >`SsS
|| |`SsS
| >`Ss
| >=`SsS
| -`SS
| -->`SSss
| >+>`SsSS
| >->`SsSs
| -->>`SSsss
| >->>`SsSsS
| |>`SsS
| |>>`SsSS
| ><`SsS
| ||`SsS
| |`Ss
| |->`SsSs
| ->`Sss
|-> |`SssS
-> -`SsS
<- <`SsS
<- >`Sss
<- >=`SssS
<- -`Sss
<- <->`SsSss
<- -->`SssSs
<- >+>`SssSS
<- >->`SssSs
<- -->>`SssSsS
<- >->>`SssSsS
<- ><`SssS
<- ->`SssS
<- <--`SsSss
<-- <`SssS
<-- <-`SssSs
/|\ /`SssS
\|/ /:`SssSs
\|/ /<:`SssSss
\|/ /<<:`SssSsss
\|/ /=`SssSs
\|/ /\`SssSs
\|/ *`SssS
\|/ /`SssS
\|/ **`SssSs
\|/ /|\`SssSss
<> <`SsS
:= :`SsS
:: :`SsS";

// What each byte is where it stands alone: a row of 32 letters for 32 bytes, as above, with B for a bad byte and Q for the
// quote, which leaves a string open.
pub(super) const BYTES: &str = "BBBBBBBBB..BB.BBBBBBBBBBBBBBBBBB
.SQSBSSBSSSSSSSSDDDDDDDDDDSSSSSB
BNNNNNNNNNNNNNNNNNNNNNNNNNNSBSSB
BNNNNNNNNNNNNNNNNNNNNNNNNNNSSSSB
BBBBBBBBBBBBBBBBBBBBBBBBBBBBBBBB
BBBBBBBBBBBBBBBBBBBBBBBBBBBBBBBB
BBBBBBBBBBBBBBBBBBBBBBBBBBBBBBBB
BBBBBBBBBBBBBBBBBBBBBBBBBBBBBBBB";

// The reserved words.
pub(super) const WORDS: &str =
    "or not mod POW POW1 FIN FIN1 UNION INTER SIGMA PI union inter dom ran id prj1 prj2 iterate closure closure1
card min max succ pred bool seq seq1 iseq perm size first last front tail rev conc INTEGER NATURAL NATURAL1
INT NAT NAT1 STRING BOOL TRUE FALSE MININT MAXINT skip BEGIN PRE ASSERT CHOICE OR IF THEN ELSIF ELSE SELECT
WHEN CASE OF EITHER ANY WHERE LET BE IN END MACHINE SETS CONSTANTS CONCRETE_CONSTANTS ABSTRACT_CONSTANTS
PROPERTIES VARIABLES ABSTRACT_VARIABLES CONCRETE_VARIABLES INVARIANT ASSERTIONS DEFINITIONS INITIALISATION
OPERATIONS REFINEMENT IMPLEMENTATION REFINES INCLUDES SEES USES EXTENDS PROMOTES IMPORTS CONSTRAINTS VALUES
LOCAL_OPERATIONS VAR WHILE DO VARIANT rec struct";
