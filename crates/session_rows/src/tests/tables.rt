// The rows of the tables, one a line: a line of a session, a "`" and its command as Rust shows it, with bytes as numbers, or E1.
// A byte is written as it stands, or as `@` and two digits of base 16.

// Each command.
pub(super) const FORMS: &str = r#"info`Info
ops`Ops
step 1`Step(1)
do up`Do { op: Items { items: [117, 112] }, pred: None }
do pick n = 12`Do { op: Items { items: [112, 105, 99, 107] }, pred: Some(Items { items: [110, 32, 61, 32, 49, 50] }) }
do $setup_constants`Do { op: Items { items: [36, 115, 101, 116, 117, 112, 95, 99, 111, 110, 115, 116, 97, 110, 116, 115] }, pred: None }
do $initialise_machine c = 1`Do { op: Items { items: [36, 105, 110, 105, 116, 105, 97, 108, 105, 115, 101, 95, 109, 97, 99, 104, 105, 110, 101] }, pred: Some(Items { items: [99, 32, 61, 32, 49] }) }
back`Back
forward`Forward
jump 0`Jump(0)
trace`Trace
state`State
show 3`Show(3)
eval 2 ** 3 ** 2`Eval(Items { items: [50, 32, 42, 42, 32, 51, 32, 42, 42, 32, 50] })
eval // no comment`Eval(Items { items: [47, 47, 32, 110, 111, 32, 99, 111, 109, 109, 101, 110, 116] })
sub fl+1`Sub(Items { items: [102, 108, 43, 49] })
unsub 9`Unsub(9)
subs`Subs
inv`Inv
keep k`Keep(Items { items: [107] })
use k_1`Use(Items { items: [107, 95, 49] })
save t.json`Save(Items { items: [116, 46, 106, 115, 111, 110] })
replay t.json`Replay(Items { items: [116, 46, 106, 115, 111, 110] })
migrate old.json new.json`Migrate { from: Items { items: [111, 108, 100, 46, 106, 115, 111, 110] }, to: Items { items: [110, 101, 119, 46, 106, 115, 111, 110] } }
visb`Visb
click door`Click(Items { items: [100, 111, 111, 114] })
click a door, left`Click(Items { items: [97, 32, 100, 111, 111, 114, 44, 32, 108, 101, 102, 116] })
random 2 7`Random { steps: 2, seed: 7 }
quit`Quit
`Blank"#;

// Blanks, returns and comments.
pub(super) const BLANKS: &str = r#"@20@20`Blank
@09 @09`Blank
//`Blank
@20// step 1`Blank
/`E1
/ /`E1
@20@09ops@09@20`Ops
step@091`Step(1)
step @09 1 @09`Step(1)
eval @09 a  + b@09@20`Eval(Items { items: [97, 32, 32, 43, 32, 98] })
random @092@09 7@20`Random { steps: 2, seed: 7 }
do@09up@09 fl < 3@20`Do { op: Items { items: [117, 112] }, pred: Some(Items { items: [102, 108, 32, 60, 32, 51] }) }
ops@0D`E1
@0Dops`E1
@0D`E1
step 1@0D`E1
eval a@0D`Eval(Items { items: [97, 13] })
eval @0D`Eval(Items { items: [13] })
eval a@C2@A0`Eval(Items { items: [97, 194, 160] })
ops//`E1
ops //`E1
ops@0B`E1
step1`E1
OPS`E1"#;

// Numbers.
pub(super) const NUMBERS: &str = r#"step 007`Step(7)
jump 00000000000000000000000000000000000000000000000000`Jump(0)
step 18446744073709551615`Step(18446744073709551615)
step 0018446744073709551615`Step(18446744073709551615)
step 18446744073709551616`E1
step 340282366920938463463374607431768211456`E1
step 340282366920938463463374607431768211457`E1
step`E1
step -1`E1
step +1`E1
step 1 2`E1
step 0`Step(0)
step 1x`E1
step 0x1`E1
show 1,000`E1
unsub one`E1
random 1 0`Random { steps: 1, seed: 0 }
random 1000 18446744073709551615`Random { steps: 1000, seed: 18446744073709551615 }
random 0 1`E1
random 1001 1`E1
random 1 18446744073709551616`E1
random 1`E1
random 1 2 3`E1
random 0001 0002`Random { steps: 1, seed: 2 }"#;

// Names, and names of documents.
pub(super) const NAMES: &str = r#"keep`E1
keep a b`E1
keep 1a`E1
keep _a`E1
keep a-b`E1
keep MACHINE`E1
keep machine`Keep(Items { items: [109, 97, 99, 104, 105, 110, 101] })
keep WHILE`E1
keep rec`E1
use skip`E1
use skipped`Use(Items { items: [115, 107, 105, 112, 112, 101, 100] })
keep $setup_constants`E1
keep Ab_9`Keep(Items { items: [65, 98, 95, 57] })
keep @C3@A9`E1
do`E1
do 1`E1
do or`E1
do struct`E1
do $setup`E1
do $setup_constants1`E1
do fly`Do { op: Items { items: [102, 108, 121] }, pred: None }
do up(1)`E1
do up=1`E1
save`E1
save a b`E1
save .t`E1
save -t`E1
save _t`Save(Items { items: [95, 116] })
save 9-._Z`Save(Items { items: [57, 45, 46, 95, 90] })
save a/b`E1
save MACHINE`Save(Items { items: [77, 65, 67, 72, 73, 78, 69] })
replay ..`E1
replay a..`Replay(Items { items: [97, 46, 46] })
migrate a`E1
migrate a a`Migrate { from: Items { items: [97] }, to: Items { items: [97] } }
migrate a -b`E1
migrate .a b`E1
migrate a b c`E1"#;

// What is no command.
pub(super) const OTHERS: &str = r#"fly`E1
info 1`E1
ops x`E1
back 1`E1
forward 1`E1
trace x`E1
state 1`E1
subs 1`E1
inv x`E1
visb x`E1
quit now`E1
eval`E1
eval@20`E1
sub@09`E1
click`E1
show`E1
s`E1
steps 1`E1"#;
