// The tokens that a reach keeps.
ghost use Rattle.std.specs.Prelude.{◌≡◌, IfOk};

use crate::view::EndPass;
use std::alloc::{AllocError, Global};

/// The pass of a reach, with those of the reaches that it joined, so that what they took stays known.
///
/// A pass has no bytes. A join links the passes of the other reach into this tree: it moves two pointers and takes no memory. So
/// joins make chains of boxes. Dropping a reach recurses along them: at most one level for each join that led to it.
#[derive(Drop)]
pub struct Passes<T> {
    pub own: EndPass<T>,
    pub joined: Option<Box<Passes<T>>>,
    pub next: Option<Box<Passes<T>>>,
}

impl<T: Drop> Passes<T> {
    ghost use Rattle.ticket_deque.specs.declared.passes.Passes.{out-Passes};

    /// Returns the tree of a reach that joined no other.
    pub fn alone(alloc: Global, own: EndPass<T>) -> Result<Box<Passes<T>>, AllocError>
        ensures { IfOk result (λ b. ((out-Passes T b.value).own ≡ own) × ((out-Passes T b.value).joined ≡ None) × ((out-Passes T b.value).next ≡ None)) }
    {
        let passes = Box::new(
            alloc,
            Passes {
                own,
                joined: None,
                next: None,
            },
        )?;
        Ok(passes)
    }
}
