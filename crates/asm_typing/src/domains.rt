//! The types of the elements of domains.

ghost use Rattle.std.specs.Prelude.{◌≡◌, map, IfOk};
ghost use Rattle.asm_node.specs.Types as types;

use asm_faults::Known;
use asm_list::Listed;
use asm_node::TermType;
use std::alloc::AllocError;

/// The types of the elements of domains of these numbers.
pub fn domain_types(known: &Known, domains: &[u32]) -> Result<Listed<Option<TermType>>, AllocError>
    ensures { IfOk result (λ list. list ≡ map (types.domain_type known.now.domains) domains.now) }
{
    let mut list = Listed::new(known.alloc());
    'domains: for domain in domains {
        list.push(known.domain_type(*domain))?;
    }
    Ok(list)
}
