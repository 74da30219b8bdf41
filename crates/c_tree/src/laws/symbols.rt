//! The tables of words and marks of tokens, and those of the grammar.

ghost use Rattle.std.specs.Prelude.{◌≡◌, true, map};
ghost use Rattle.std.specs.List.{list_all};
ghost use Rattle.c_tree.specs.Tokens.TokenKinds as tokens;
ghost use Rattle.c_tree.specs.Tokens.Symbols as grammar;

/// The tables of tokens and of the grammar have the same marks (C11 6.4.6), and each word of the grammar is a keyword
/// (6.4.1). So no mark that is read is without a symbol, and no word of the grammar is read as a name.
pub fn tables_agree()
    ensures marks_have_symbols { list_all (λ mark. tokens.is_among (map (λ entry. entry.0) grammar.mark_symbols) mark)
        tokens.marks ≡ true }
    ensures symbols_have_marks { list_all (λ entry. tokens.is_among tokens.marks entry.0) grammar.mark_symbols ≡ true }
    ensures words_are_keywords { list_all (λ entry. tokens.is_among tokens.keywords entry.0) grammar.keyword_symbols
        ≡ true }
{}
