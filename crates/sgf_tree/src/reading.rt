//! The reader: what has been read so far, and one more byte.

ghost use Rattle.std.specs.Prelude.{◌≡◌, [], Some, Err, OnOk, OnErr, IfSome, IfNone};
ghost use Rattle.sgf_tree.specs.Grammar.{is_white_space, is_capital};
ghost use Rattle.sgf_tree.specs.Reading.{begin, turn, go_on, add_node, add_prop, in_value, opened};
ghost use Rattle.sgf_tree.specs.Reading.{open_tree, close_into};
ghost use Rattle.sgf_tree.specs.Trees.{GameTrees};
ghost use Rattle.sgf_tree.specs.Verdict.{IsFinal};
ghost use Rattle.sgf_tree.specs.ReadingStates.{state_of, trees_of, Comes, Reads};

use crate::lists::{Node, Nodes, Prop, Props, SgfText, Values};
use crate::trees::{Collection, Tree, Trees};
use std::alloc::Global;
use std::mem;

/// The trees that may be open at once. The grammar has no limit; this one bounds the recursion of
/// those who walk the trees.
pub(crate) const MAX_OPEN: usize = 64;

/// What ends the reading.
#[derive(Clone, Copy)]
pub(crate) enum ReadingEnd {
    /// The byte can't stand here.
    Refused,
    /// The byte opens one tree too many.
    TooDeep,
    /// Memory ran out.
    Memory,
}

/// Where the reader stands between two bytes.
#[derive(Clone, Copy)]
pub(crate) enum Place {
    /// At the beginning, or after a tree.
    Between,
    /// After `(`.
    Opened,
    /// After `;`.
    InNode,
    /// Within a name.
    InName,
    /// After a name and white space.
    AfterName,
    /// Within a value.
    InValue,
    /// Within a value, after a backslash.
    Escaped,
    /// After a value.
    AfterValue,
}

/// An open tree, or the ground, that has an open tree inside.
#[derive(Drop)]
pub(crate) struct Parent {
    nodes: Vec<Node>,
    kids: Vec<Tree>,
}

/// What has been read so far: the open trees, and the open node, property and value of the
/// innermost. What does not belong to the place is left over.
#[derive(Drop)]
pub(crate) struct Reading {
    alloc: Global,
    place: Place,
    /// What is around the innermost open tree, the outermost first. The first is the ground: its
    /// kids are the outermost trees.
    outer: Vec<Parent>,
    nodes: Vec<Node>,
    kids: Vec<Tree>,
    props: Vec<Prop>,
    name: Vec<u8>,
    values: Vec<SgfText>,
    value: Vec<u8>,
}

/// Whether a byte is white space of SGF: one from 9 to 13, or a space.
pub fn is_white_space(byte: u8) -> bool
    ensures { result ≡ is_white_space byte }
{
    (9 <= byte && byte <= 13) || byte == b' '
}

fn is_capital(byte: u8) -> bool
    ensures { result ≡ is_capital byte }
{
    b'A' <= byte && byte <= b'Z'
}

impl Reading {
    /// Nothing has been read.
    pub(crate) fn new(alloc: Global) -> Reading
        ensures { state_of result ≡ begin }
    {
        Reading {
            alloc,
            place: Place::Between,
            outer: Vec::new(alloc),
            nodes: Vec::new(alloc),
            kids: Vec::new(alloc),
            props: Vec::new(alloc),
            name: Vec::new(alloc),
            values: Vec::new(alloc),
            value: Vec::new(alloc),
        }
    }

    /// Reads one more byte. After an `Err` nothing more may be read.
    pub(crate) fn read(&mut self, byte: u8) -> Result<(), ReadingEnd>
        ensures { Reads (state_of self.old) byte result (state_of self.new) }
    {
        match self.place {
            Place::Between => self.between(byte),
            Place::Opened => self.opened(byte),
            Place::InNode => self.in_node(byte),
            Place::InName => self.in_name(byte),
            Place::AfterName => self.after_name(byte),
            Place::InValue => self.in_value(byte),
            Place::Escaped => self.escaped(byte),
            Place::AfterValue => self.after_value(byte),
        }
    }

    /// The collection, if all that was read is a text.
    pub(crate) fn finish(self) -> Option<Collection>
        ensures some { IfSome result (λ c. IsFinal (state_of self) c.trees) }
        ensures none { IfNone result ((trees : GameTrees) → IsFinal (state_of self) trees → ⊥) }
    {
        let Place::Between = self.place else {
            return None;
        };
        if !self.outer.is_empty() {
            return None;
        }
        if self.kids.is_empty() {
            return None;
        }
        let trees = Trees::of(self.kids);
        Some(Collection { trees })
    }

    fn between(&mut self, byte: u8) -> Result<(), ReadingEnd>
        requires { self.old.place ≡ Place.Between }
        ensures { Reads (state_of self.old) byte result (state_of self.new) }
    {
        if is_white_space(byte) {
            return Ok(());
        }
        self.turn(byte)
    }

    fn opened(&mut self, byte: u8) -> Result<(), ReadingEnd>
        requires { self.old.place ≡ Place.Opened }
        ensures { Reads (state_of self.old) byte result (state_of self.new) }
    {
        if is_white_space(byte) {
            return Ok(());
        }
        if byte == b';' {
            self.props.clear();
            self.place = Place::InNode;
            return Ok(());
        }
        Err(ReadingEnd::Refused)
    }

    fn in_node(&mut self, byte: u8) -> Result<(), ReadingEnd>
        requires { self.old.place ≡ Place.InNode }
        ensures { Reads (state_of self.old) byte result (state_of self.new) }
    {
        if is_white_space(byte) {
            return Ok(());
        }
        self.go_on(byte)
    }

    fn in_name(&mut self, byte: u8) -> Result<(), ReadingEnd>
        requires { self.old.place ≡ Place.InName }
        ensures { Reads (state_of self.old) byte result (state_of self.new) }
    {
        if is_capital(byte) {
            if self.name.push(byte).is_err() {
                return Err(ReadingEnd::Memory);
            }
            return Ok(());
        }
        self.place = Place::AfterName;
        self.after_name(byte)
    }

    fn after_name(&mut self, byte: u8) -> Result<(), ReadingEnd>
        requires { self.old.place ≡ Place.AfterName }
        ensures { Reads (state_of self.old) byte result (state_of self.new) }
    {
        if is_white_space(byte) {
            return Ok(());
        }
        if byte == b'[' {
            self.values.clear();
            self.value.clear();
            self.place = Place::InValue;
            return Ok(());
        }
        Err(ReadingEnd::Refused)
    }

    fn in_value(&mut self, byte: u8) -> Result<(), ReadingEnd>
        requires { self.old.place ≡ Place.InValue }
        ensures { Reads (state_of self.old) byte result (state_of self.new) }
    {
        if byte == b'\\' {
            self.place = Place::Escaped;
            return Ok(());
        }
        if byte == b']' {
            return self.end_value();
        }
        if self.value.push(byte).is_err() {
            return Err(ReadingEnd::Memory);
        }
        Ok(())
    }

    fn escaped(&mut self, byte: u8) -> Result<(), ReadingEnd>
        requires { self.old.place ≡ Place.Escaped }
        ensures { Reads (state_of self.old) byte result (state_of self.new) }
    {
        if self.value.push(byte).is_err() {
            return Err(ReadingEnd::Memory);
        }
        self.place = Place::InValue;
        Ok(())
    }

    fn after_value(&mut self, byte: u8) -> Result<(), ReadingEnd>
        requires { self.old.place ≡ Place.AfterValue }
        ensures { Reads (state_of self.old) byte result (state_of self.new) }
    {
        if is_white_space(byte) {
            return Ok(());
        }
        if byte == b'[' {
            self.value.clear();
            self.place = Place::InValue;
            return Ok(());
        }
        self.end_prop()?;
        self.go_on(byte)
    }

    /// What may follow the properties of a node: a letter begins a name, and `;`, `(` and `)` end
    /// the node.
    fn go_on(&mut self, byte: u8) -> Result<(), ReadingEnd>
        ensures { Comes (go_on (trees_of self.old) self.old.props.items byte) (trees_of self.old)
            result (state_of self.new) }
    {
        if is_capital(byte) {
            self.name.clear();
            if self.name.push(byte).is_err() {
                return Err(ReadingEnd::Memory);
            }
            self.place = Place::InName;
            return Ok(());
        }
        self.end_node()?;
        if byte == b';' {
            self.place = Place::InNode;
            return Ok(());
        }
        self.turn(byte)
    }

    /// What may follow a tree inside another: `(` opens one, and `)` closes one.
    fn turn(&mut self, byte: u8) -> Result<(), ReadingEnd>
        ensures { Comes (turn (trees_of self.old) byte) (trees_of self.old)
            result (state_of self.new) }
    {
        if byte == b'(' {
            return self.open_tree();
        }
        if byte == b')' {
            return self.close_tree();
        }
        Err(ReadingEnd::Refused)
    }

    fn open_tree(&mut self) -> Result<(), ReadingEnd>
        ensures { Comes (Some (opened (open_tree (trees_of self.old)))) (trees_of self.old)
            result (state_of self.new) }
    {
        if self.outer.len() >= MAX_OPEN {
            return Err(ReadingEnd::TooDeep);
        }
        let nodes = mem::replace(&mut self.nodes, Vec::new(self.alloc));
        let kids = mem::replace(&mut self.kids, Vec::new(self.alloc));
        if self.outer.push(Parent { nodes, kids }).is_err() {
            return Err(ReadingEnd::Memory);
        }
        self.place = Place::Opened;
        Ok(())
    }

    fn close_tree(&mut self) -> Result<(), ReadingEnd>
        ensures { let o = trees_of self.old in
            Comes (close_into o.outer o.nodes o.kids) o result (state_of self.new) }
    {
        let Some(parent) = self.outer.pop() else {
            return Err(ReadingEnd::Refused);
        };
        let nodes = Nodes::of(mem::replace(&mut self.nodes, parent.nodes));
        let kids = Trees::of(mem::replace(&mut self.kids, parent.kids));
        if self.kids.push(Tree { nodes, kids }).is_err() {
            return Err(ReadingEnd::Memory);
        }
        self.place = Place::Between;
        Ok(())
    }

    /// Ends the open node, which has these properties.
    fn end_node(&mut self) -> Result<(), ReadingEnd>
        ensures node { OnOk result
            (trees_of self.new ≡ add_node (trees_of self.old) self.old.props.items) }
        ensures fresh { OnOk result (self.new.props.items ≡ []) }
        ensures memory { OnErr result (result ≡ Err ReadingEnd.Memory) }
    {
        let props = Props::of(mem::replace(&mut self.props, Vec::new(self.alloc)));
        if self.nodes.push(Node { props }).is_err() {
            return Err(ReadingEnd::Memory);
        }
        Ok(())
    }

    /// Ends the open property, which has these values.
    fn end_prop(&mut self) -> Result<(), ReadingEnd>
        ensures prop { OnOk result (self.new.props.items
            ≡ add_prop self.old.props.items self.old.name.items self.old.values.items) }
        ensures trees { OnOk result (trees_of self.new ≡ trees_of self.old) }
        ensures memory { OnErr result (result ≡ Err ReadingEnd.Memory) }
    {
        let name = SgfText::of(mem::replace(&mut self.name, Vec::new(self.alloc)));
        let values = Values::of(mem::replace(&mut self.values, Vec::new(self.alloc)));
        if self.props.push(Prop { name, values }).is_err() {
            return Err(ReadingEnd::Memory);
        }
        Ok(())
    }

    /// Ends the open value.
    fn end_value(&mut self) -> Result<(), ReadingEnd>
        requires { self.old.place ≡ Place.InValue }
        ensures { Reads (state_of self.old) 93 result (state_of self.new) }
    {
        let value = SgfText::of(mem::replace(&mut self.value, Vec::new(self.alloc)));
        if self.values.push(value).is_err() {
            return Err(ReadingEnd::Memory);
        }
        self.place = Place::AfterValue;
        Ok(())
    }
}
