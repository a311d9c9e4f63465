//! What an expression mentions: variables of a binder, and words for sets without an end.
ghost use Rattle.std.specs.Prelude.{◌≡◌, max, map};
ghost use Rattle.b_ranges.specs.Sides as spec;

use b_tree::{
    BinaryOperator, Binder, Clause, Collection, ExprTree, Family, Link, Power, PredTree, Sides,
    Universal, Word,
};

/// The slots of a binder's variables: so many from the first.
#[derive(Clone, Copy, Debug, PartialEq, Eq)]
pub struct Slots {
    pub base: usize,
    pub count: usize,
}

/// What an expression mentions.
#[derive(Clone, Copy, Debug, PartialEq, Eq)]
pub struct Side {
    /// How many of the binder's variables, from the first, must have values: those up to the last that is named.
    pub needs: usize,
    /// INTEGER, NATURAL, NATURAL1, STRING, `seq` or `seq1` stands outside of the brackets that shield them.
    pub endless: bool,
    /// STRING stands outside of these brackets.
    pub strings: bool,
}

fn nothing() -> Side
    ensures { result ≡ spec.nothing }
{
    Side {
        needs: 0,
        endless: false,
        strings: false,
    }
}

fn greater(a: usize, b: usize) -> usize
    ensures { result ≡ max a b }
{
    if a < b { b } else { a }
}

fn both(a: Side, b: Side) -> Side
    ensures { result ≡ spec.both a b }
{
    Side {
        needs: greater(a.needs, b.needs),
        endless: a.endless || b.endless,
        strings: a.strings || b.strings,
    }
}

fn shielded(a: Side) -> Side
    ensures { result ≡ spec.shielded a }
{
    Side {
        needs: a.needs,
        endless: false,
        strings: false,
    }
}

fn needs(slots: Slots, slot: usize) -> usize
    ensures { result ≡ spec.needs slots slot }
{
    if slot < slots.base {
        0
    } else if slot - slots.base < slots.count {
        slot - slots.base + 1
    } else {
        0
    }
}

fn slot_side(slots: Slots, slot: usize) -> Side
    ensures { result ≡ spec.slot_side slots slot }
{
    Side {
        needs: needs(slots, slot),
        endless: false,
        strings: false,
    }
}

fn endless() -> Side
    ensures { result ≡ spec.endless }
{
    Side {
        needs: 0,
        endless: true,
        strings: false,
    }
}

fn word_side(word: Word) -> Side
    ensures { result ≡ spec.word_side word }
{
    match word {
        Word::Integer | Word::Natural | Word::Natural1 => endless(),
        Word::String => Side {
            needs: 0,
            endless: true,
            strings: true,
        },
        Word::Bool => nothing(),
    }
}

fn family_side(family: Family) -> Side
    ensures { result ≡ spec.family_side family }
{
    match family {
        Family::Sequences | Family::NonemptySequences => endless(),
        _ => nothing(),
    }
}

fn operand_side(operator: BinaryOperator, operand: Side) -> Side
    ensures { result ≡ spec.operand_side operator operand }
{
    match operator {
        BinaryOperator::Apply | BinaryOperator::Image => shielded(operand),
        _ => operand,
    }
}

/// What an expression mentions.
#[cycle(sides)]
pub fn side_of(e: &ExprTree, slots: Slots) -> Side
    ensures { result ≡ spec.side_of slots e.now }
{
    match e {
        ExprTree::Number(_) => nothing(),
        ExprTree::Truth(_) => nothing(),
        ExprTree::Text(_) => nothing(),
        ExprTree::Element(_, _) => nothing(),
        ExprTree::Slot(slot) => slot_side(slots, *slot),
        ExprTree::Given(_, _, _) => nothing(),
        ExprTree::Word(_, word) => word_side(*word),
        ExprTree::Unary(_, _, a) => side_of(a.get(), slots),
        ExprTree::Chain(a, links) => links_after(links.as_slice(), slots, side_of(a.get(), slots)),
        ExprTree::Powers(powers, a) => {
            powers_before(powers.as_slice(), slots, side_of(a.get(), slots))
        }
        ExprTree::Over(family, _, a) => both(family_side(*family), side_of(a.get(), slots)),
        ExprTree::Between(_, _, sides) => sides_of(sides.get(), slots),
        ExprTree::Set(_, es) => each_of(es.as_slice(), slots),
        ExprTree::Sequence(_, es) => each_of(es.as_slice(), slots),
        ExprTree::Bool(p) => shielded(pred_of(p.get(), slots)),
        ExprTree::If(p, a, b) => both(
            pred_of(p.get(), slots),
            both(side_of(a.get(), slots), side_of(b.get(), slots)),
        ),
        ExprTree::Comprehension(_, binder) => shielded(binder_of(binder.get(), slots)),
        ExprTree::Collected(_, _, collection) => collection_of(collection.get(), slots),
    }
}

#[cycle(sides)]
fn links_after(links: &[Link], slots: Slots, first: Side) -> Side
    ensures { result ≡ spec.all_of first (map (spec.link_of slots) links.now) }
{
    let mut so_far = first;
    for link in links {
        so_far = both(so_far, link_of(link, slots));
    }
    so_far
}

#[cycle(sides)]
fn link_of(link: &Link, slots: Slots) -> Side
    ensures { result ≡ spec.link_of slots link.now }
{
    match link {
        Link::After(_, _) => nothing(),
        Link::With(operator, _, e) => operand_side(*operator, side_of(e, slots)),
    }
}

#[cycle(sides)]
fn powers_before(powers: &[Power], slots: Slots, last: Side) -> Side
    ensures { result ≡ spec.all_of last (map (spec.power_of slots) powers.now) }
{
    let mut so_far = last;
    for power in powers {
        so_far = both(so_far, power_of(power, slots));
    }
    so_far
}

#[cycle(sides)]
fn power_of(power: &Power, slots: Slots) -> Side
    ensures { result ≡ spec.power_of slots power.now }
{
    side_of(&power.base, slots)
}

#[cycle(sides)]
fn each_of(es: &[ExprTree], slots: Slots) -> Side
    ensures { result ≡ spec.all_of spec.nothing (map (spec.side_of slots) es.now) }
{
    let mut so_far = nothing();
    for e in es {
        so_far = both(so_far, side_of(e, slots));
    }
    so_far
}

#[cycle(sides)]
fn sides_of(sides: &Sides, slots: Slots) -> Side
    ensures { result ≡ spec.sides_of slots sides.now }
{
    both(
        side_of(sides.left.get(), slots),
        side_of(sides.right.get(), slots),
    )
}

#[cycle(sides)]
fn pred_of(p: &PredTree, slots: Slots) -> Side
    ensures { result ≡ spec.pred_of slots p.now }
{
    match p {
        PredTree::True => nothing(),
        PredTree::Compare(_, a, b) => both(side_of(a.get(), slots), side_of(b.get(), slots)),
        PredTree::Member(_, a, b) => both(side_of(a.get(), slots), side_of(b.get(), slots)),
        PredTree::Chain(first, clauses) => {
            clauses_after(clauses.as_slice(), slots, pred_of(first.get(), slots))
        }
        PredTree::Not(p) => pred_of(p.get(), slots),
        PredTree::Exists(binder) => binder_of(binder.get(), slots),
        PredTree::ForAll(universal) => universal_of(universal.get(), slots),
    }
}

#[cycle(sides)]
fn clauses_after(clauses: &[Clause], slots: Slots, first: Side) -> Side
    ensures { result ≡ spec.all_of first (map (spec.clause_of slots) clauses.now) }
{
    let mut so_far = first;
    for clause in clauses {
        so_far = both(so_far, clause_of(clause, slots));
    }
    so_far
}

#[cycle(sides)]
fn clause_of(clause: &Clause, slots: Slots) -> Side
    ensures { result ≡ spec.clause_of slots clause.now }
{
    pred_of(&clause.predicate, slots)
}

#[cycle(sides)]
fn binder_of(binder: &Binder, slots: Slots) -> Side
    ensures { result ≡ spec.binder_of slots binder.now }
{
    pred_of(&binder.predicate, slots)
}

#[cycle(sides)]
fn collection_of(collection: &Collection, slots: Slots) -> Side
    ensures { result ≡ spec.collection_of slots collection.now }
{
    both(
        binder_of(&collection.binder, slots),
        side_of(&collection.value, slots),
    )
}

#[cycle(sides)]
fn universal_of(universal: &Universal, slots: Slots) -> Side
    ensures { result ≡ spec.universal_of slots universal.now }
{
    both(
        binder_of(&universal.binder, slots),
        pred_of(&universal.consequent, slots),
    )
}
