use crate::links::{ABSTRACT, model_of};
use asm_node::Model;
use asm_source::Text;
use ref_link::Link;
use ref_report::{LinkedModels, print_links};
use std::alloc::{AllocError, Global};
use std::test::Fail;

// The link of the first function of a model with itself.
const COLOURS: [Link; 1] = [Link {
    abstract_function: 0,
    concrete_function: 0,
}];

// Whether these links of a model with itself are printed as is wanted.
fn are_printed(
    alloc: Global,
    model: &Model,
    links: &[Link],
    wanted: &str,
) -> Result<bool, AllocError> {
    let linked = LinkedModels {
        abstract_model: model,
        concrete_model: model,
        links,
    };
    let mut text = Text::new(alloc);
    print_links(alloc, &linked, &mut text)?;
    Ok(text.slice() == wanted.as_bytes())
}

// Whether a link is printed, and that there is none.
fn links_are_printed(alloc: Global, model: &Model) -> Result<bool, AllocError> {
    Ok(
        are_printed(alloc, model, &COLOURS, "link colour = colour\n")?
            && are_printed(alloc, model, &[], "no links\n")?,
    )
}

#[test]
fn a_report_begins_with_links(rt: HostRuntime) -> Result<(), Fail> {
    let alloc = rt.alloc();
    let Some(model) = model_of(alloc, ABSTRACT) else {
        assert!(rt; false);
        return Ok(());
    };
    let right = links_are_printed(alloc, &model)?;
    assert!(rt; right);
    Ok(())
}
