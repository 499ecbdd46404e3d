//! What the definition of a link file stands on.

ghost use Rattle.std.specs.Prelude.{◌≡◌, ◌≢◌, ◌↔◌, ℕ, List, Ok, Err};
ghost use Rattle.asm_lex.specs.declared.token.Token.{Token};
ghost use Rattle.asm_tree.specs.declared.error.ParseError.{ParseError};
ghost use Rattle.asm_tree.specs.declared.error.ParseError.TheVariants.{Memory};
ghost use Rattle.whole_file.specs.Trees.{IsTree, Explains};
ghost use Rattle.link_parse.specs.Links.{links as link_files, parsed_links};
ghost use Rattle.link_parse.specs.declared.tree.RawLinks.{RawLinks};

/// The law that `parsed_links` gives the links that tokens spell where they spell a link file, and the error that
/// explains why they don't where they spell none.
pub fn parsed_is_spelled()
    ensures links { (text : List ℕ) (ts : List Token) (y : RawLinks) → (parsed_links text ts ≡ Ok y) ↔ IsTree link_files text ts y }
    ensures error { (text : List ℕ) (ts : List Token) (e : ParseError) → e ≢ Memory → (parsed_links text ts ≡ Err e) ↔ Explains link_files text ts e }
{}
