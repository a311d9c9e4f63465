// Trees made by hand and what they are printed as.
use b_ast::{
    After, Bound, Collector, Constant, Expr, Formula, Function, Link, Operator, Place, Pred,
    Quantifier,
};
use b_print::spellings::{constant_word, function_word, priority, quantifier_sign, sign_of};
use b_print::texts::{print_expr, print_pred};
use sqlite_items::{Boxed, Items};
use std::alloc::{AllocError, Global};
use std::process::Abort;
use std::test::Fail;

const HERE: Place = Place {
    machine: false,
    at: 0,
    depth: 0,
};

fn number(n: u128) -> Formula {
    Formula::Number(HERE, n)
}

fn name(alloc: Global, x: &[u8]) -> Result<Formula, AllocError> {
    Ok(Formula::Name(HERE, Items::from_slice(alloc, x)?))
}

fn two(alloc: Global, a: Formula, operator: Operator, b: Formula) -> Result<Formula, AllocError> {
    let mut links = Items::new(alloc);
    links.push(Link {
        operator,
        at: HERE,
        operand: b,
    })?;
    Ok(Formula::Chain(Boxed::new(alloc, a)?, links))
}

fn minus(alloc: Global, e: Formula) -> Result<Formula, AllocError> {
    Ok(Formula::Negative(HERE, Boxed::new(alloc, e)?))
}

// x = 1
fn equation(alloc: Global) -> Result<Formula, AllocError> {
    two(alloc, name(alloc, b"x")?, Operator::Equal, number(1))
}

fn bound(alloc: Global, names: &[&[u8]]) -> Result<Items<Bound>, AllocError> {
    let mut all = Items::new(alloc);
    for name in names {
        all.push(Bound {
            name: Items::from_slice(alloc, name)?,
            at: HERE,
        })?;
    }
    Ok(all)
}

fn prints(rt: &impl Abort, alloc: Global, formula: Formula, text: &[u8]) -> Result<(), AllocError> {
    let printed = print_expr(alloc, &Expr { formula })?;
    assert_eq!(rt; printed.as_slice(), text);
    Ok(())
}

// x : 1 .. 2
fn within(alloc: Global) -> Result<Formula, AllocError> {
    let interval = two(alloc, number(1), Operator::Interval, number(2))?;
    two(alloc, name(alloc, b"x")?, Operator::Member, interval)
}

fn collected(alloc: Global, collector: Collector) -> Result<Formula, AllocError> {
    let names = bound(alloc, &[b"x"])?;
    let test = Boxed::new(alloc, within(alloc)?)?;
    let value = Boxed::new(alloc, name(alloc, b"x")?)?;
    Ok(Formula::Collected(HERE, collector, names, test, value))
}

fn row(alloc: Global, head: Formula, form: After) -> Result<Formula, AllocError> {
    let mut forms = Items::new(alloc);
    forms.push(form)?;
    Ok(Formula::Row(Boxed::new(alloc, head)?, forms))
}

// 1 - (2 - 3)
fn right_difference(alloc: Global) -> Result<Formula, AllocError> {
    let inner = two(alloc, number(2), Operator::Minus, number(3))?;
    two(alloc, number(1), Operator::Minus, inner)
}

// (1 - 2) - 3
fn left_difference(alloc: Global) -> Result<Formula, AllocError> {
    let inner = two(alloc, number(1), Operator::Minus, number(2))?;
    two(alloc, inner, Operator::Minus, number(3))
}

// 1 * 2 + 3
fn sum_of_product(alloc: Global) -> Result<Formula, AllocError> {
    let inner = two(alloc, number(1), Operator::Times, number(2))?;
    two(alloc, inner, Operator::Plus, number(3))
}

// -2 ** 2
fn power_of_negative(alloc: Global) -> Result<Formula, AllocError> {
    let inner = minus(alloc, number(2))?;
    two(alloc, inner, Operator::Power, number(2))
}

// (r ; s)
fn composition(alloc: Global) -> Result<Formula, AllocError> {
    let left = name(alloc, b"r")?;
    let right = name(alloc, b"s")?;
    two(alloc, left, Operator::Composition, right)
}

#[test]
fn chains(rt: HostRuntime) -> Result<(), Fail> {
    let alloc = rt.alloc();
    prints(&rt, alloc, right_difference(alloc)?, b"1 - (2 - 3)")?;
    prints(&rt, alloc, left_difference(alloc)?, b"(1 - 2) - 3")?;
    prints(&rt, alloc, sum_of_product(alloc)?, b"1 * 2 + 3")?;
    prints(&rt, alloc, power_of_negative(alloc)?, b"-2 ** 2")?;
    prints(&rt, alloc, composition(alloc)?, b"(r ; s)")?;
    Ok(())
}

fn quoted(alloc: Global) -> Result<Formula, AllocError> {
    Ok(Formula::Text(HERE, Items::from_slice(alloc, b"a\"\\\n\t")?))
}

// -(-x)
fn twice_negative(alloc: Global) -> Result<Formula, AllocError> {
    let inner = minus(alloc, name(alloc, b"x")?)?;
    minus(alloc, inner)
}

// (f(1))(2)
fn twice_applied(alloc: Global) -> Result<Formula, AllocError> {
    let once = row(alloc, name(alloc, b"f")?, After::Apply(HERE, number(1)))?;
    row(alloc, once, After::Apply(HERE, number(2)))
}

// r[S]
fn image(alloc: Global) -> Result<Formula, AllocError> {
    let set = name(alloc, b"S")?;
    row(alloc, name(alloc, b"r")?, After::Image(HERE, set))
}

fn choice(alloc: Global) -> Result<Formula, AllocError> {
    let test = Boxed::new(alloc, equation(alloc)?)?;
    let first = Boxed::new(alloc, number(2))?;
    let second = Boxed::new(alloc, Formula::Constant(HERE, Constant::MaxInt))?;
    Ok(Formula::If(HERE, test, first, second))
}

#[test]
fn operands(rt: HostRuntime) -> Result<(), Fail> {
    let alloc = rt.alloc();
    let empty = Formula::Sequence(HERE, Items::new(alloc));
    prints(&rt, alloc, empty, b"[]")?;
    prints(&rt, alloc, quoted(alloc)?, b"\"a\\\"\\\\\\n\\t\"")?;
    prints(&rt, alloc, twice_negative(alloc)?, b"-(-x)")?;
    prints(&rt, alloc, twice_applied(alloc)?, b"(f(1))(2)")?;
    prints(&rt, alloc, image(alloc)?, b"r[S]")?;
    prints(
        &rt,
        alloc,
        choice(alloc)?,
        b"IF x = 1 THEN 2 ELSE MAXINT END",
    )?;
    Ok(())
}

// {x,y | x = 1}
fn pairs(alloc: Global) -> Result<Formula, AllocError> {
    let names = bound(alloc, &[b"x", b"y"])?;
    let body = Boxed::new(alloc, equation(alloc)?)?;
    Ok(Formula::Comprehension(HERE, names, body))
}

// #x.(x = 1)
fn some(alloc: Global) -> Result<Formula, AllocError> {
    let names = bound(alloc, &[b"x"])?;
    let body = Boxed::new(alloc, equation(alloc)?)?;
    Ok(Formula::Quantified(HERE, Quantifier::Exists, names, body))
}

// !(x,y).(x = 1)
fn all(alloc: Global) -> Result<Formula, AllocError> {
    let names = bound(alloc, &[b"x", b"y"])?;
    let body = Boxed::new(alloc, equation(alloc)?)?;
    Ok(Formula::Quantified(HERE, Quantifier::ForAll, names, body))
}

fn prints_collected(
    rt: &impl Abort,
    alloc: Global,
    collector: Collector,
    text: &[u8],
) -> Result<(), AllocError> {
    prints(rt, alloc, collected(alloc, collector)?, text)
}

#[test]
fn collectors(rt: HostRuntime) -> Result<(), Fail> {
    let alloc = rt.alloc();
    prints_collected(&rt, alloc, Collector::Lambda, b"%x.(x : 1 .. 2 | x)")?;
    prints_collected(&rt, alloc, Collector::Sum, b"SIGMA(x).(x : 1 .. 2 | x)")?;
    prints_collected(&rt, alloc, Collector::Product, b"PI(x).(x : 1 .. 2 | x)")?;
    prints_collected(&rt, alloc, Collector::Union, b"UNION(x).(x : 1 .. 2 | x)")?;
    prints_collected(&rt, alloc, Collector::Inter, b"INTER(x).(x : 1 .. 2 | x)")?;
    Ok(())
}

#[test]
fn binders(rt: HostRuntime) -> Result<(), Fail> {
    let alloc = rt.alloc();
    prints(&rt, alloc, pairs(alloc)?, b"{x,y | x = 1}")?;
    prints(&rt, alloc, all(alloc)?, b"!(x,y).(x = 1)")?;
    let formula = some(alloc)?;
    let printed = print_pred(alloc, &Pred { formula })?;
    assert_eq!(rt; printed.as_slice(), b"#x.(x = 1)".as_slice());
    Ok(())
}

#[test]
fn words(rt: HostRuntime) -> Result<(), Fail> {
    let rows: [(Function, &[u8]); 32] = [
        (Function::Pow, b"POW"),
        (Function::Pow1, b"POW1"),
        (Function::Fin, b"FIN"),
        (Function::Fin1, b"FIN1"),
        (Function::Union, b"union"),
        (Function::Inter, b"inter"),
        (Function::Dom, b"dom"),
        (Function::Ran, b"ran"),
        (Function::Id, b"id"),
        (Function::Closure, b"closure"),
        (Function::Closure1, b"closure1"),
        (Function::Card, b"card"),
        (Function::Min, b"min"),
        (Function::Max, b"max"),
        (Function::Succ, b"succ"),
        (Function::Pred, b"pred"),
        (Function::Seq, b"seq"),
        (Function::Seq1, b"seq1"),
        (Function::Iseq, b"iseq"),
        (Function::Perm, b"perm"),
        (Function::Size, b"size"),
        (Function::First, b"first"),
        (Function::Last, b"last"),
        (Function::Front, b"front"),
        (Function::Tail, b"tail"),
        (Function::Rev, b"rev"),
        (Function::Conc, b"conc"),
        (Function::Bool, b"bool"),
        (Function::Not, b"not"),
        (Function::Prj1, b"prj1"),
        (Function::Prj2, b"prj2"),
        (Function::Iterate, b"iterate"),
    ];
    for (function, word) in rows {
        assert_eq!(rt; function_word(function), word);
    }
    assert_eq!(rt; sign_of(Operator::Take), b"/|\\".as_slice());
    assert_eq!(rt; constant_word(Constant::Natural1), b"NATURAL1".as_slice());
    assert_eq!(rt; quantifier_sign(Quantifier::ForAll), b"!".as_slice());
    assert_eq!(rt; priority(Operator::Power), 200);
    Ok(())
}
