use pgs_conform::Compiled;
use pgs_graph::GraphRead;
use pgs_syntax::Atom;

/// Where is searched, by which types, and for what: the demands of a pattern, whose types are those of the schema.
pub struct Search<'a, G: GraphRead> {
    pub graph: &'a G,
    pub compiled: &'a Compiled,
    pub atoms: &'a [Atom],
}

impl<'a, G: GraphRead> Drop for Search<'a, G> {
    fn drop(self) {
        let Search {
            graph: _,
            compiled: _,
            atoms: _,
        } = self;
    }
}
