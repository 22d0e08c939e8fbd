ghost use Rattle.std.specs.Prelude.{◌≡◌, [], ◌∷◌, ◌++◌, length, IfOk};
ghost use Rattle.std.specs.List.{position};
ghost use Rattle.pgs_schema_changes.specs.Unfolded.{Tree, tree};
ghost use Rattle.pgs_schema_changes.specs.Numbers.{is_entry, IsNumbered, Means, Puts};

use crate::form::Form;
use crate::forms::same_form;
use pgs_base::Memory;
use std::alloc::Global;

/// A form over two numbers.
#[derive(Drop)]
pub(crate) struct Entry {
    pub form: Form,
    pub first: usize,
    pub second: usize,
}

/// Unfolded declarations, each once under a number: 0 is nothing, and each other number is that of an entry, from 1.
#[derive(Drop)]
pub(crate) struct Trees {
    pub entries: Vec<Entry>,
}

impl Trees {
    /// Nothing alone; takes no memory.
    pub(crate) fn new(alloc: Global) -> Trees
        ensures { result.entries.items ≡ [] }
    {
        Trees {
            entries: Vec::new(alloc),
        }
    }

    // The place of the entry that is this form over these numbers.
    fn find(&self, form: &Form, first: usize, second: usize) -> Option<usize>
        ensures { result ≡ position (is_entry form.now first second) self.now.entries.items }
    {
        self.entries.iter().position(|entry| {
            entry.first == first && entry.second == second && same_form(form, &entry.form)
        })
    }

    // Puts an entry last, and gives its number.
    fn push(&mut self, form: Form, first: usize, second: usize) -> Result<usize, Memory>
        ensures { IfOk result (λ number. (self.new.entries.items ≡ self.old.entries.items ++ record { form = form; first = first; second = second } ∷ [])
            × (number ≡ length self.new.entries.items)) }
    {
        self.entries.push(Entry {
            form,
            first,
            second,
        })?;
        Ok(self.entries.len())
    }

    /// The number of a form over two numbers, which is put last where it isn't there. `Memory` where there was none left.
    pub(crate) fn put(&mut self, form: Form, first: usize, second: usize) -> Result<usize, Memory>
        ensures { (left right : Tree) → IsNumbered self.old.entries.items → Means self.old.entries.items first left → Means self.old.entries.items second right
            → IfOk result (λ number. Puts self.old.entries.items self.new.entries.items number (tree form left right)) }
    {
        match self.find(&form, first, second) {
            Some(place) => Ok(place + 1),
            None => self.push(form, first, second),
        }
    }
}
