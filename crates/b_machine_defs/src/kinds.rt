//! What the bodies of definitions are: expressions, predicates or substitutions.
ghost use Rattle.std.specs.Prelude.{◌≡◌, Some, None, true, map, position, bytes_eq, IfOk, MatchOption};
ghost use Rattle.b_ast.specs.Sorts as sorts;
ghost use Rattle.b_names.specs.Index as place;
ghost use Rattle.b_names.specs.Index.{IsIndexOf};
ghost use Rattle.b_machine_defs.specs.Declaring as spec;

use b_ast::machine::{Def, DefBody};
use b_ast::{After, Formula, Function, Link, Operator, Sort};
use b_names::{Index, index_of};
use sqlite_items::Items;
use std::alloc::{AllocError, Global};

/// What a definition stands for.
#[derive(Clone, Copy, Debug, PartialEq, Eq)]
pub enum Kind {
    Expression,
    Predicate,
    Substitution,
}

// The kinds of a table's first definitions.
#[derive(Clone, Copy)]
struct Known<'a> {
    table: &'a [Def],
    index: &'a Index,
    kinds: &'a [Kind],
}

fn kind_of_sort(sort: Sort) -> Kind
    ensures { result ≡ spec.kind_of_sort sort }
{
    match sort {
        Sort::Expression => Kind::Expression,
        Sort::Predicate => Kind::Predicate,
        Sort::Implication => Kind::Predicate,
    }
}

fn definition_of(known: &Known<'_>, name: &[u8]) -> Option<usize>
    requires { IsIndexOf known.now.table.now known.now.index.now }
    ensures { result ≡ place.place_of known.now.table.now name.now }
{
    known.index.first(name)
}

// What the first definition of a name is.
fn kind_of_name(known: &Known<'_>, name: &[u8]) -> Kind
    requires { IsIndexOf known.now.table.now known.now.index.now }
    ensures { result ≡ spec.kind_or_expression (spec.kind_of_name known.now.table.now known.now.kinds.now name.now) }
{
    match definition_of(known, name) {
        Some(i) => match sqlite_items::at(known.kinds, i) {
            Some(kind) => *kind,
            None => Kind::Expression,
        },
        None => Kind::Expression,
    }
}

// Whether no definition with parameters has this name.
fn has_no_params(known: &Known<'_>, name: &[u8]) -> bool
    requires { IsIndexOf known.now.table.now known.now.index.now }
    ensures { result ≡ spec.has_no_params_named known.now.table.now name.now }
{
    match definition_of(known, name) {
        Some(i) => match sqlite_items::at(known.table, i) {
            Some(def) => def.params.len() == 0,
            None => true,
        },
        None => true,
    }
}

fn place_of(params: &[Items<u8>], name: &[u8]) -> Option<usize>
    ensures { result ≡ position (bytes_eq name.now) params.now }
{
    params.iter().position(|param| name == param.as_slice())
}

// A use that stands alone.
fn alone_kind(known: &Known<'_>, params: &[Items<u8>], name: &[u8], applied: bool) -> Kind
    requires { IsIndexOf known.now.table.now known.now.index.now }
    ensures { result ≡ spec.alone_kind known.now.table.now known.now.kinds.now params.now (name.now, applied) }
{
    if place_of(params, name).is_some() {
        return Kind::Expression;
    }
    if applied && has_no_params(known, name) {
        return Kind::Expression;
    }
    kind_of_name(known, name)
}

// The name that a tree is.
fn name_of(tree: &Formula) -> Option<&[u8]>
    ensures { MatchOption result ((spec.shape tree.now).name ≡ None) (λ x. (spec.shape tree.now).name ≡ Some x.now) }
{
    match tree {
        Formula::Name(_, x) => Some(x.as_slice()),
        Formula::Number(_, _)
        | Formula::Text(_, _)
        | Formula::Old(_, _)
        | Formula::Constant(_, _)
        | Formula::Negative(_, _)
        | Formula::Chain(_, _)
        | Formula::Row(_, _)
        | Formula::Call(_, _, _)
        | Formula::Set(_, _)
        | Formula::Sequence(_, _)
        | Formula::Comprehension(_, _, _)
        | Formula::Quantified(_, _, _, _)
        | Formula::Collected(_, _, _, _, _)
        | Formula::If(_, _, _, _) => None,
    }
}

fn is_apply(form: &After) -> bool
    ensures { result ≡ spec.is_apply form.now }
{
    match form {
        After::Converse(_) => false,
        After::Apply(_, _) => true,
        After::Image(_, _) => false,
    }
}

// Whether one application stands there alone.
fn is_one_apply(forms: &[After]) -> bool
    ensures { result ≡ spec.is_one (map spec.is_apply forms.now) }
{
    match forms {
        [form] => is_apply(form),
        _ => false,
    }
}

// The name that stands before one application.
fn name_applied<'a>(head: &'a Formula, forms: &[After]) -> Option<&'a [u8]>
    ensures { MatchOption result (spec.applied (spec.shape head.now).name (map spec.is_apply forms.now) ≡ None) (λ x. spec.applied (spec.shape head.now).name (map spec.is_apply forms.now) ≡ Some (x.now, true)) }
{
    if is_one_apply(forms) {
        name_of(head)
    } else {
        None
    }
}

fn chain_sort(operator: Operator) -> Sort
    ensures { result ≡ sorts.chain_sort operator }
{
    match operator {
        Operator::Implication => Sort::Implication,
        Operator::Equivalence
        | Operator::And
        | Operator::Or
        | Operator::Member
        | Operator::NotMember
        | Operator::Subset
        | Operator::NotSubset
        | Operator::StrictSubset
        | Operator::NotStrictSubset
        | Operator::Equal
        | Operator::NotEqual
        | Operator::Less
        | Operator::Greater
        | Operator::LessOrEqual
        | Operator::GreaterOrEqual => Sort::Predicate,
        _ => Sort::Expression,
    }
}

fn call_sort(function: Function) -> Sort
    ensures { result ≡ sorts.call_sort function }
{
    match function {
        Function::Not => Sort::Predicate,
        _ => Sort::Expression,
    }
}

// The sort that the operators of a chain give it.
fn sort_by(links: &[Link]) -> Sort
    ensures { result ≡ spec.sort_by (map spec.operator_of links.now) }
{
    match links {
        [] => Sort::Expression,
        [link, ..] => chain_sort(link.operator),
    }
}

// A formula as a body.
fn formula_kind(known: &Known<'_>, params: &[Items<u8>], tree: &Formula) -> Kind
    requires { IsIndexOf known.now.table.now known.now.index.now }
    ensures { result ≡ spec.formula_kind known.now.table.now known.now.kinds.now params.now tree.now }
{
    match tree {
        Formula::Name(_, x) => alone_kind(known, params, x.as_slice(), false),
        Formula::Row(head, forms) => match name_applied(head.get(), forms.as_slice()) {
            Some(x) => alone_kind(known, params, x, true),
            None => Kind::Expression,
        },
        Formula::Chain(_, links) => kind_of_sort(sort_by(links.as_slice())),
        Formula::Call(_, function, _) => kind_of_sort(call_sort(*function)),
        Formula::Quantified(_, _, _, _) => Kind::Predicate,
        Formula::Number(_, _)
        | Formula::Text(_, _)
        | Formula::Old(_, _)
        | Formula::Constant(_, _)
        | Formula::Negative(_, _)
        | Formula::Set(_, _)
        | Formula::Sequence(_, _)
        | Formula::Comprehension(_, _, _)
        | Formula::Collected(_, _, _, _, _)
        | Formula::If(_, _, _, _) => Kind::Expression,
    }
}

fn no_subst(kind: Kind) -> Kind
    ensures { result ≡ spec.no_subst kind }
{
    match kind {
        Kind::Expression => Kind::Expression,
        Kind::Predicate => Kind::Predicate,
        Kind::Substitution => Kind::Expression,
    }
}

fn kind_of_body(known: &Known<'_>, params: &[Items<u8>], body: &DefBody) -> Kind
    requires { IsIndexOf known.now.table.now known.now.index.now }
    ensures { result ≡ spec.kind_of_body known.now.table.now known.now.kinds.now params.now body.now }
{
    match body {
        DefBody::Expr(e) => no_subst(formula_kind(known, params, &e.formula)),
        DefBody::Pred(p) => formula_kind(known, params, &p.formula),
        DefBody::Subst(_) => Kind::Substitution,
    }
}

// What a definition is, by those before it.
fn kind_of_def(table: &[Def], index: &Index, kinds: &[Kind], def: &Def) -> Kind
    requires { IsIndexOf table.now index.now }
    ensures { result ≡ spec.kind_of_body table.now kinds.now def.now.params def.now.body }
{
    let known = Known {
        table,
        index,
        kinds,
    };
    kind_of_body(&known, def.params.as_slice(), &def.body)
}

/// What the definitions of a table are that is in the order of use.
pub fn kinds_of(alloc: Global, table: &[Def]) -> Result<Items<Kind>, AllocError>
    ensures { IfOk result (λ ks. ks ≡ spec.kinds table.now) }
{
    let index = index_of(alloc, table)?;
    let mut kinds = Items::new(alloc);
    for def in table {
        let kind = kind_of_def(table, &index, kinds.as_slice(), def);
        kinds.push(kind)?;
    }
    Ok(kinds)
}
