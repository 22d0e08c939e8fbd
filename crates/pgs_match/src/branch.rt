use crate::{Bindings, Step};

/// Where a search goes on: a variable that is bound next, the plan from there, and what was bound before.
#[derive(Clone, Copy)]
pub(crate) struct Branch<'a> {
    pub(crate) var: u32,
    pub(crate) plan: &'a [Step],
    pub(crate) bindings: &'a Bindings,
}
