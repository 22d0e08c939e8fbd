ghost use Rattle.std.specs.Prelude.{◌≡◌, IfOk};

use crate::Chunks;
use pgs_base::Memory;
use std::alloc::Global;
use std::marker::Model;
use std::rc::Rc;

/// Chunks that several lists own together. Contracts see the list of their ids.
#[derive(Drop)]
pub struct Body {
    chunks: Rc<Chunks>,
}

impl Model for Body {
    ghost use Rattle.std.specs.Prelude.{List};
    ghost use Rattle.pgs_base.specs.declared.element.EdgeId.{EdgeId};

    ghost Value = { List EdgeId };

    ghost view = { λ body. body.chunks.value };
}

impl Body {
    /// A body that has one owner.
    pub fn new(alloc: Global, chunks: Chunks) -> Result<Body, Memory>
        ensures { IfOk result (λ body. body ≡ chunks) }
    {
        let chunks = Rc::new(alloc, chunks)?;
        Ok(Body { chunks })
    }

    /// The same body, with one owner more.
    pub fn share(&self) -> Result<Body, Memory>
        ensures { IfOk result (λ body. body ≡ self.now) }
    {
        let chunks = self.chunks.clone()?;
        Ok(Body { chunks })
    }

    /// The ids, in chunks.
    pub fn as_chunks(&self) -> &Chunks
        ensures { result.now ≡ self.now }
    {
        self.chunks.as_ref()
    }
}
