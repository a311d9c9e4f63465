//! Which trees are expressions and which are predicates, once definitions are expanded.
ghost use Rattle.std.specs.Prelude.{◌≡◌, map};
ghost use Rattle.b_ast.specs.Sorts as spec;

use crate::{After, Formula, Function, Link, Operator, Quantifier, Sort};

/// The sort that an operator asks of its operands.
pub fn operand_sort(operator: Operator) -> Sort
    ensures { result ≡ spec.operand_sort operator }
{
    match operator {
        Operator::Equivalence | Operator::And | Operator::Or | Operator::Implication =>
            Sort::Predicate,
        _ => Sort::Expression,
    }
}

/// The sort of a chain that begins with an operator.
pub fn chain_sort(operator: Operator) -> Sort
    ensures { result ≡ spec.chain_sort operator }
{
    match operator {
        Operator::Implication => Sort::Implication,
        Operator::Equivalence
        | Operator::And
        | Operator::Or
        | Operator::Member
        | Operator::NotMember
        | Operator::Subset
        | Operator::NotSubset
        | Operator::StrictSubset
        | Operator::NotStrictSubset
        | Operator::Equal
        | Operator::NotEqual
        | Operator::Less
        | Operator::Greater
        | Operator::LessOrEqual
        | Operator::GreaterOrEqual => Sort::Predicate,
        _ => Sort::Expression,
    }
}

/// The sort that a function word asks of its arguments.
pub fn argument_sort(function: Function) -> Sort
    ensures { result ≡ spec.argument_sort function }
{
    match function {
        Function::Bool | Function::Not => Sort::Predicate,
        _ => Sort::Expression,
    }
}

/// The sort of a function word with its arguments.
pub fn call_sort(function: Function) -> Sort
    ensures { result ≡ spec.call_sort function }
{
    match function {
        Function::Not => Sort::Predicate,
        _ => Sort::Expression,
    }
}

/// The sort that a quantifier asks of its formula.
pub fn body_sort(quantifier: Quantifier) -> Sort
    ensures { result ≡ spec.body_sort quantifier }
{
    match quantifier {
        Quantifier::Exists => Sort::Predicate,
        Quantifier::ForAll => Sort::Implication,
    }
}

/// Whether a tree has a wanted sort: an implication is a predicate too.
pub fn fits(wanted: Sort, sort: Option<Sort>) -> bool
    ensures { result ≡ spec.fits wanted sort }
{
    match (wanted, sort) {
        (Sort::Expression, Some(Sort::Expression)) => true,
        (Sort::Predicate, Some(Sort::Predicate)) => true,
        (Sort::Predicate, Some(Sort::Implication)) => true,
        (Sort::Implication, Some(Sort::Implication)) => true,
        _ => false,
    }
}

fn given(fit: bool, sort: Sort) -> Option<Sort>
    ensures { result ≡ spec.given fit sort }
{
    if fit { Some(sort) } else { None }
}

// The sort of a chain, by whether its links fit and what its first operand is.
fn sort_of_chain(links: &[Link], links_fit: bool, first: Option<Sort>) -> Option<Sort>
    ensures { result ≡ spec.chain_given links_fit first (map spec.link_of links.now) }
{
    match links {
        [] => None,
        [link, ..] => given(
            fits(operand_sort(link.operator), first) && links_fit,
            chain_sort(link.operator),
        ),
    }
}

/// The sort of a tree, or none where a part of it has a wrong sort.
#[cycle(sort)]
pub fn sort_of(tree: &Formula) -> Option<Sort>
    ensures { result ≡ spec.sort_of tree.now }
{
    match tree {
        Formula::Number(_, _) => Some(Sort::Expression),
        Formula::Text(_, _) => Some(Sort::Expression),
        Formula::Name(_, _) => Some(Sort::Expression),
        Formula::Old(_, _) => Some(Sort::Expression),
        Formula::Constant(_, _) => Some(Sort::Expression),
        Formula::Negative(_, e) => given(
            fits(Sort::Expression, sort_of(e.get())),
            Sort::Expression,
        ),
        Formula::Chain(first, links) => {
            let links_fit = links_fit(links.as_slice());
            let first = sort_of(first.get());
            sort_of_chain(links.as_slice(), links_fit, first)
        }
        Formula::Row(first, forms) => {
            let forms_fit = forms_fit(forms.as_slice());
            let first_fits = fits(Sort::Expression, sort_of(first.get()));
            given(first_fits && forms_fit, Sort::Expression)
        }
        Formula::Call(_, f, arguments) => given(
            all_fit(arguments.as_slice(), argument_sort(*f)),
            call_sort(*f),
        ),
        Formula::Set(_, elements) => given(
            all_fit(elements.as_slice(), Sort::Expression),
            Sort::Expression,
        ),
        Formula::Sequence(_, elements) => given(
            all_fit(elements.as_slice(), Sort::Expression),
            Sort::Expression,
        ),
        Formula::Comprehension(_, _, p) => given(
            fits(Sort::Predicate, sort_of(p.get())),
            Sort::Expression,
        ),
        Formula::Quantified(_, q, _, p) => given(
            fits(body_sort(*q), sort_of(p.get())),
            Sort::Predicate,
        ),
        Formula::Collected(_, _, _, p, e) => {
            let p_fits = fits(Sort::Predicate, sort_of(p.get()));
            let e_fits = fits(Sort::Expression, sort_of(e.get()));
            given(p_fits && e_fits, Sort::Expression)
        }
        Formula::If(_, p, e, f) => {
            let p_fits = fits(Sort::Predicate, sort_of(p.get()));
            let e_fits = fits(Sort::Expression, sort_of(e.get()));
            let f_fits = fits(Sort::Expression, sort_of(f.get()));
            given(p_fits && (e_fits && f_fits), Sort::Expression)
        }
    }
}

#[cycle(sort)]
fn links_fit(links: &[Link]) -> bool
    ensures { result ≡ spec.links_fit (map spec.link_of links.now) }
{
    for link in links {
        if !fits(operand_sort(link.operator), sort_of(&link.operand)) {
            return false;
        }
    }
    true
}

#[cycle(sort)]
fn forms_fit(forms: &[After]) -> bool
    ensures { result ≡ spec.all_true (map spec.after_of forms.now) }
{
    for form in forms {
        if !form_fits(form) {
            return false;
        }
    }
    true
}

#[cycle(sort)]
fn form_fits(form: &After) -> bool
    ensures { result ≡ spec.after_of form.now }
{
    match form {
        After::Converse(_) => true,
        After::Apply(_, e) => fits(Sort::Expression, sort_of(e)),
        After::Image(_, e) => fits(Sort::Expression, sort_of(e)),
    }
}

#[cycle(sort)]
fn all_fit(trees: &[Formula], wanted: Sort) -> bool
    ensures { result ≡ spec.all_fit wanted (map spec.sort_of trees.now) }
{
    for tree in trees {
        if !fits(wanted, sort_of(tree)) {
            return false;
        }
    }
    true
}
