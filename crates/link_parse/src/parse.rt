//! The call that reads a link file.

ghost use Rattle.std.specs.Prelude.{◌≡◌, ◌≢◌, ◌<◌, ◌^◌, length, Ok, IfOk, IfErr};
ghost use Rattle.asm_lex.specs.Cut.{cut};
ghost use Rattle.asm_tree.specs.declared.error.ParseError.{ParseError};
ghost use Rattle.asm_tree.specs.declared.error.ParseError.TheVariants.{Memory};
ghost use Rattle.whole_file.specs.Parsed.{Parses};
ghost use Rattle.whole_file.specs.Trees.{IsTree, AgreesWith, Explains, RefusesWith};
ghost use Rattle.link_parse.specs.Links.{links as link_files, parsed_links};
ghost use Rattle.link_parse.specs.declared.tree.RawLinks.{RawLinks};

use crate::link::whole_links;
use crate::tree::RawLinks;
use asm_body::lexemes;
use asm_lex::Token;
use asm_tree::ParseError;
use std::alloc::Global;
use whole_file::explained;

/// The links that the tokens of a link file are.
pub fn link_file(alloc: Global, text: &[u8], tokens: &[Token]) -> Result<RawLinks, ParseError>
    requires together { cut text.now ≡ Ok tokens.now }
    requires small { length text.now < 2 ^ 31 }

    // What is read is spelled so.
    ensures found { IfOk result (λ y. IsTree link_files text.now tokens.now y) }
    // What is spelled so is read, unless memory runs out.
    ensures only { (y : RawLinks) → IsTree link_files text.now tokens.now y → AgreesWith y result }
    // An error is at the first token with which no link file goes on.
    ensures refused { IfErr result (λ e. Explains link_files text.now tokens.now e) }
    // Where there is such a token, that is the error, unless memory runs out.
    ensures refuses { (e : ParseError) → e ≢ Memory → Explains link_files text.now tokens.now e → RefusesWith e result }
    // The same as a function of the text.
    ensures parses { Parses result (parsed_links text.now tokens.now) }
{
    read_links(alloc, text, tokens)
}

/// The links as a function of the text alone.
fn read_links(alloc: Global, text: &[u8], tokens: &[Token]) -> Result<RawLinks, ParseError>
    requires together { cut text.now ≡ Ok tokens.now }
    requires small { length text.now < 2 ^ 31 }
    ensures { Parses result (parsed_links text.now tokens.now) }
{
    let lexemes = lexemes(alloc, text, tokens)?;
    let listed = lexemes.as_slice();
    match whole_links(alloc, listed) {
        Ok(links) => Ok(links),
        Err(stop) => Err(explained(listed, stop)),
    }
}
