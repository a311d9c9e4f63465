// The words of the notation for operators.
use b_tree::{
    BinaryOperator, Bounds, Collector, Comparison, Connective, Family, Membership, SetOperator,
    UnaryOperator, Word,
};

fn index_of(words: &str, word: &str) -> Option<usize> {
    words.split_whitespace().position(|w| w == word)
}

// What stands at the place that a word has among words.
fn named<T: Copy>(words: &str, all: &[T], word: &str) -> Option<T> {
    match index_of(words, word) {
        Some(i) => all.get(i).copied(),
        None => None,
    }
}

pub fn word(w: &str) -> Option<Word> {
    let all = [
        Word::Integer,
        Word::Natural,
        Word::Natural1,
        Word::String,
        Word::Bool,
    ];
    named("INTEGER NATURAL NATURAL1 STRING BOOL", &all, w)
}

const UNARY: &str =
    "neg succ pred min max card union inter dom ran id closure closure1 size rev first last front tail conc";

pub fn unary(w: &str) -> Option<UnaryOperator> {
    let all = [
        UnaryOperator::Negative,
        UnaryOperator::Successor,
        UnaryOperator::Predecessor,
        UnaryOperator::Minimum,
        UnaryOperator::Maximum,
        UnaryOperator::Cardinality,
        UnaryOperator::Union,
        UnaryOperator::Intersection,
        UnaryOperator::Domain,
        UnaryOperator::Range,
        UnaryOperator::Identity,
        UnaryOperator::Closure,
        UnaryOperator::Closure1,
        UnaryOperator::Size,
        UnaryOperator::Reverse,
        UnaryOperator::First,
        UnaryOperator::Last,
        UnaryOperator::Front,
        UnaryOperator::Tail,
        UnaryOperator::Concatenation,
    ];
    named(UNARY, &all, w)
}

const BINARY: &str =
    r"* / mod + - |-> \/ /\ -S ^ -> <- /|\ \|/ <| |> <<| |>> <+ >< ; || prj1 prj2 iterate () []";

pub fn binary(w: &str) -> Option<BinaryOperator> {
    let all = [
        BinaryOperator::Times,
        BinaryOperator::Divide,
        BinaryOperator::Modulo,
        BinaryOperator::Plus,
        BinaryOperator::Minus,
        BinaryOperator::Couple,
        BinaryOperator::Union,
        BinaryOperator::Intersection,
        BinaryOperator::Difference,
        BinaryOperator::Concatenation,
        BinaryOperator::Prepend,
        BinaryOperator::Append,
        BinaryOperator::Take,
        BinaryOperator::Drop,
        BinaryOperator::DomainRestriction,
        BinaryOperator::RangeRestriction,
        BinaryOperator::DomainSubtraction,
        BinaryOperator::RangeSubtraction,
        BinaryOperator::Overriding,
        BinaryOperator::DirectProduct,
        BinaryOperator::Composition,
        BinaryOperator::ParallelProduct,
        BinaryOperator::Projection1,
        BinaryOperator::Projection2,
        BinaryOperator::Iterate,
        BinaryOperator::Apply,
        BinaryOperator::Image,
    ];
    named(BINARY, &all, w)
}

pub fn family(w: &str) -> Option<Family> {
    let all = [
        Family::Subsets,
        Family::NonemptySubsets,
        Family::Sequences,
        Family::NonemptySequences,
        Family::InjectiveSequences,
        Family::Permutations,
    ];
    named("POW POW1 seq seq1 iseq perm", &all, w)
}

pub fn set_operator(w: &str) -> Option<SetOperator> {
    let all = [
        SetOperator::Interval,
        SetOperator::Product,
        SetOperator::Relations,
        SetOperator::PartialFunctions,
        SetOperator::TotalFunctions,
        SetOperator::PartialInjections,
        SetOperator::TotalInjections,
        SetOperator::PartialSurjections,
        SetOperator::TotalSurjections,
        SetOperator::TotalBijections,
    ];
    named(".. *S <-> +-> --> >+> >-> +->> -->> >->>", &all, w)
}

pub fn comparison(w: &str) -> Option<Comparison> {
    let all = [
        Comparison::Equal,
        Comparison::NotEqual,
        Comparison::Less,
        Comparison::LessOrEqual,
        Comparison::Greater,
        Comparison::GreaterOrEqual,
        Comparison::StrictSubset,
        Comparison::NotStrictSubset,
    ];
    named("= /= < <= > >= <<: /<<:", &all, w)
}

pub fn membership(w: &str) -> Option<Membership> {
    let all = [
        Membership::Member,
        Membership::NotMember,
        Membership::Subset,
        Membership::NotSubset,
    ];
    named(": /: <: /<:", &all, w)
}

pub fn connective(w: &str) -> Option<Connective> {
    let all = [
        Connective::And,
        Connective::Or,
        Connective::Implies,
        Connective::Equivalent,
    ];
    named("& or => <=>", &all, w)
}

pub fn collector(w: &str) -> Option<Collector> {
    let all = [
        Collector::Lambda,
        Collector::Sum,
        Collector::Product,
        Collector::Union,
        Collector::Intersection,
    ];
    named("% SIGMA PI UNION INTER", &all, w)
}

// `num`: the integers between two bounds; `>` where the lower is left out, `<` the upper, `^` where the upper stands first.
pub fn bounds(w: &str) -> Option<Bounds> {
    match w.strip_prefix("num") {
        None => None,
        Some(marks) => Some(Bounds {
            above: marks.contains('>'),
            below: marks.contains('<'),
            upper_first: marks.contains('^'),
        }),
    }
}
