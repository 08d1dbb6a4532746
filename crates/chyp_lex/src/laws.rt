// What holds of the definition of tokens.
ghost use Rattle.std.specs.Prelude.{List, ℕ};
ghost use Rattle.chyp_lex.specs.Names.{EachNameIsText};
ghost use Rattle.chyp_lex.specs.Tokens.{HasOneTokenList};

/// Exactly one list of tokens fits each list of bytes.
pub fn every_text_has_one_token_list()
    ensures { (text : List ℕ) → HasOneTokenList text }
{}

/// The bytes of each identifier and of each dotted name are UTF-8, and are a name by themselves.
pub fn each_name_is_text()
    ensures { EachNameIsText }
{}
