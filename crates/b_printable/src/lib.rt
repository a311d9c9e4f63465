//! Whatever the parser gives is printed and read back.
#![tactic(auto)]

ghost use Rattle.b_printable.specs.Laws.{IsReadAsWritten, IsExpandedPrintable, IsParsedPrintable, IsReadBackWhole};

/// What the grammar has for a part of a text's lexemes is a written tree: its names, numbers and strings are those of
/// tokens, and its chains and binders are as the grammar makes them.
pub fn read_as_written()
    ensures { IsReadAsWritten }
{}

/// A tree as the grammar has it for a text, with a table of definitions with such trees, expands to a tree that has a
/// canonical text which is read back.
pub fn expanded_is_printable()
    ensures { IsExpandedPrintable }
{}

/// What the parser gives, under definitions with trees as the grammar has them, has a canonical text that is read back.
pub fn parsed_is_printable()
    ensures { IsParsedPrintable }
{}

/// The canonical text of what the parser gives has tokens. Where at most 100 brackets are open at one place in it, the
/// parser's answer to them, without definitions, is the same formula apart from places, unless memory runs out.
pub fn parsed_is_read_back()
    ensures { IsReadBackWhole }
{}

#[cfg(test)]
mod tests {
    use super::{expanded_is_printable, parsed_is_printable, parsed_is_read_back, read_as_written};

    #[test]
    fn laws() {
        read_as_written();
        expanded_is_printable();
        parsed_is_printable();
        parsed_is_read_back();
    }
}
