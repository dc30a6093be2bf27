//! The lists of a collection below its trees: bytes, values, properties and nodes.

ghost use Rattle.std.specs.Prelude.{◌≡◌};

use std::marker::Model;

/// A list of bytes, each as it stands in memory.
#[derive(Drop)]
pub struct SgfText {
    items: Vec<u8>,
}

impl Model for SgfText {
    ghost use Rattle.std.specs.Prelude.{ℕ, List};

    ghost Value = { List ℕ };

    ghost view = { λ b. b.items.items };
}

impl SgfText {
    /// The bytes of this vector. It takes no memory.
    pub fn of(items: Vec<u8>) -> SgfText
        ensures { result ≡ items.items }
    {
        SgfText { items }
    }

    /// Lends the bytes.
    pub fn as_slice(&self) -> &[u8]
        ensures { result.now ≡ self.now }
    {
        &self.items
    }
}

/// The values of a property, in the order in which they stand.
#[derive(Drop)]
pub struct Values {
    items: Vec<SgfText>,
}

impl Model for Values {
    ghost use Rattle.std.specs.Prelude.{ℕ, List};

    ghost Value = { List (List ℕ) };

    ghost view = { λ v. v.items.items };
}

impl Values {
    /// The values of this vector. It takes no memory.
    pub fn of(items: Vec<SgfText>) -> Values
        ensures { result ≡ items.items }
    {
        Values { items }
    }

    /// Lends the values.
    pub fn as_slice(&self) -> &[SgfText]
        ensures { result.now ≡ self.now }
    {
        &self.items
    }
}

/// A property of a node: a name and its values.
#[derive(Drop)]
pub struct Prop {
    /// Capital letters, at least one in a text.
    pub name: SgfText,
    /// At least one in a text.
    pub values: Values,
}

/// The properties of a node, in the order in which they stand.
#[derive(Drop)]
pub struct Props {
    items: Vec<Prop>,
}

impl Model for Props {
    ghost use Rattle.std.specs.Prelude.{List};
    ghost use Rattle.sgf_tree.specs.declared.lists.Prop.{Prop};

    ghost Value = { List Prop };

    ghost view = { λ p. p.items.items };
}

impl Props {
    /// The properties of this vector. It takes no memory.
    pub fn of(items: Vec<Prop>) -> Props
        ensures { result ≡ items.items }
    {
        Props { items }
    }

    /// Lends the properties.
    pub fn as_slice(&self) -> &[Prop]
        ensures { result.now ≡ self.now }
    {
        &self.items
    }
}

/// A node of a tree. It may have no property.
#[derive(Drop)]
pub struct Node {
    pub props: Props,
}

/// The nodes of a tree, the first before the others.
#[derive(Drop)]
pub struct Nodes {
    items: Vec<Node>,
}

impl Model for Nodes {
    ghost use Rattle.std.specs.Prelude.{List};
    ghost use Rattle.sgf_tree.specs.declared.lists.Node.{Node};

    ghost Value = { List Node };

    ghost view = { λ n. n.items.items };
}

impl Nodes {
    /// The nodes of this vector. It takes no memory.
    pub fn of(items: Vec<Node>) -> Nodes
        ensures { result ≡ items.items }
    {
        Nodes { items }
    }

    /// Lends the nodes.
    pub fn as_slice(&self) -> &[Node]
        ensures { result.now ≡ self.now }
    {
        &self.items
    }
}
