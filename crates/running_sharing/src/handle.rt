//! Handles, of which each thread needs one.
ghost use Rattle.std.specs.Prelude.{◌≡◌, ◌<◌, IfOk, vec_len};
ghost use Rattle.running_passes.specs.declared.part.Part.{Part};
ghost use Rattle.running_passes.specs.Parts.{half, IsSamePart, IsAgain, AddUp};

use std::alloc::{AllocError, Allocator};

/// The right to call an object, which one thread needs. It owns its pass.
pub trait Handle: Sized + Drop {
    // Both are of one object.
    ghost same: { Self → Self → Type 0 };

    // Which part of all passes it has.
    ghost part: { Self → Part };

    /// Two handles of the same object, each with a part of the pass, for a thread more.
    fn split(self) -> (Self, Self)
        ensures object { same self result.0 × same self result.1 }
        ensures halves { (part result.0 ≡ half (part self)) × (part result.1 ≡ half (part self)) };

    /// One handle from two of the same object.
    fn join(self, other: Self) -> Self
        requires same { same self other }
        ensures object { same self result }
        ensures weights { AddUp (part result) (part self) (part other) }
        ensures again { (p : Part) → IsSamePart (part self) (half p) → IsSamePart (part other) (half p) → IsAgain p (part result) };

    /// So many handles of the same object, for as many threads; one, where none are asked for.
    final fn split_into<A: Allocator>(
        self,
        alloc: A,
        many: usize,
    ) -> Result<Vec<Self, A>, AllocError>
        ensures many { IfOk result (λ handles. 0 < many → vec_len handles ≡ many) }
    {
        let mut handles = Vec::new(alloc);
        let mut rest = self;
        for _ in 1..many {
            let (handle, other) = rest.split();
            rest = other;
            handles.push(handle)?;
        }
        handles.push(rest)?;
        Ok(handles)
    }
}
