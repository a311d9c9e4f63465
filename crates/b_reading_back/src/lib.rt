//! Canonical texts are read back as the trees that they were written from.
#![tactic(auto)]

ghost use Rattle.b_reading_back.specs.Laws.{StandsForItself, HasItsSymbols, IsReadBack, IsReadAsNothingElse, IsParsedAgain, HaveOneText, HaveOneSort, SamePriorities};

/// The printers and the grammar order the operators alike.
pub fn priorities_agree()
    ensures { SamePriorities }
{}

/// Lexemes with the symbols of a tree's canonical text stand for that tree, apart from places.
pub fn stands_for_itself()
    ensures { StandsForItself }
{}

/// A canonical text is split into tokens, and their symbols are those of the tree.
pub fn has_its_symbols()
    ensures { HasItsSymbols }
{}

/// What is printed is read back: the tokens of a canonical text stand for the tree that it was written from, apart from
/// places, and for no other.
pub fn reads_back()
    ensures tree { IsReadBack }
    ensures alone { IsReadAsNothingElse }
{}

/// What is printed is parsed again: the canonical text of a formula of at most 1,000,000 nodes in which at most 100
/// brackets are open at one place has, by `lex` and `parse_formula` without definitions, the same tree apart from places.
pub fn parses_again()
    ensures { IsParsedAgain }
{}

/// Trees that the grammar has for some text are the same apart from places exactly if they have one canonical text. Then
/// both are expressions, or both predicates.
pub fn one_canonical_text()
    ensures text { HaveOneText }
    ensures sort { HaveOneSort }
{}

#[cfg(test)]
mod tests {
    use super::{
        has_its_symbols, one_canonical_text, parses_again, priorities_agree, reads_back,
        stands_for_itself,
    };

    #[test]
    fn laws() {
        priorities_agree();
        stands_for_itself();
        has_its_symbols();
        reads_back();
        parses_again();
        one_canonical_text();
    }
}
