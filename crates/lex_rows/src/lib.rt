//! Tables of texts and what the lexer cuts them into.
#![tactic(auto)]

#[cfg(test)]
mod tests;
