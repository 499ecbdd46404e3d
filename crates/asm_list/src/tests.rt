use crate::{Boxed, Listed, Name};
use std::test::Fail;

/// A type that leads back to itself by both.
#[derive(Drop)]
enum Tree {
    Leaf(u8),
    Node(Listed<Tree>),
    Twig(Boxed<Tree>),
}

fn first_leaf(tree: &Tree) -> u8 {
    match tree {
        Tree::Leaf(leaf) => *leaf,
        Tree::Twig(tree) => first_leaf(tree.get()),
        Tree::Node(trees) => match trees.slice() {
            [tree, ..] => first_leaf(tree),
            [] => 0,
        },
    }
}

#[test]
fn lists_boxes_and_names(rt: HostRuntime) -> Result<(), Fail> {
    let mut bytes = Listed::from_slice(rt.alloc(), &[1u8, 2])?;
    bytes.push(3)?;
    bytes.extend(&[4, 5])?;
    assert_eq!(rt; bytes.slice(), [1, 2, 3, 4, 5].as_slice());
    assert_eq!(rt; bytes.len(), 5);
    assert_eq!(rt; bytes.item(4).copied(), Some(5));
    assert_eq!(rt; bytes.item(5).copied(), None);
    assert!(rt; !bytes.is_empty());
    assert_eq!(rt; bytes.into_vec().len(), 5);

    let mut trees = Listed::new(rt.alloc());
    trees.push(Tree::Twig(Boxed::new(rt.alloc(), Tree::Leaf(7))?))?;
    assert_eq!(rt; first_leaf(&Tree::Node(trees)), 7);
    assert_eq!(rt; Boxed::new(rt.alloc(), 8u8)?.into_inner(), 8);

    let mut names = Listed::new(rt.alloc());
    names.push(Name::of(rt.alloc(), "r_Main")?)?;
    names.push(Name::new(rt.alloc()))?;
    for (name, text) in names.slice().iter().zip(["r_Main", ""].iter()) {
        assert_eq!(rt; name.text(), *text);
    }
    Ok(())
}
