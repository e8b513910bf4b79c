ghost use Rattle.std.specs.Prelude.{◌≡◌, ◌↔◌, ◌<◌, IsTrue, ◌++◌, ◌∷◌, [], ℕ, List, All, Some, length, slice_get, is_ok, if◌then◌else◌};
ghost use Rattle.medium_trace.specs.Page.{IsPage};

use crate::Memory;
use std::alloc::Global;
use std::marker::Model;

/// The bytes of a page.
pub const PAGE: usize = 4_128;

/// Pages in order; contracts see the list of their bytes.
#[derive(Drop)]
pub struct Pages {
    pages: Vec<[u8; PAGE]>,
}

impl Model for Pages {
    ghost Value = { List (List ℕ) };

    ghost view = { λ list. list.pages.items };

    ghost invariant = { λ list. All IsPage list.pages.items };
}

impl Pages {
    /// No pages.
    pub fn new(alloc: Global) -> Self
        ensures { result ≡ [] }
    {
        Pages {
            pages: Vec::new(alloc),
        }
    }

    /// Adds a page behind the others; without memory the list stays as it was.
    pub fn push(&mut self, item: &[u8; PAGE]) -> Result<(), Memory>
        ensures pushed { self.new ≡ (if is_ok result then self.old ++ item.now ∷ [] else self.old) }
    {
        is_page(item);
        self.pages.push(*item)?;
        Ok(())
    }

    /// How many there are.
    pub fn len(&self) -> usize
        ensures length { result ≡ length self.now }
        ensures pages { All IsPage self.now }
    {
        self.pages.len()
    }

    /// Whether there are none.
    pub fn is_empty(&self) -> bool
        ensures { IsTrue result ↔ (self.now ≡ []) }
    {
        self.pages.is_empty()
    }

    /// The page at a place, counted from 0.
    pub fn at(&self, i: usize) -> &[u8; PAGE]
        requires { i < length self.now }
        ensures { slice_get self.now i ≡ Some result.now }
    {
        &self.pages[i]
    }
}

// What the type of a page says of its bytes.
fn is_page(page: &[u8])
    requires { length page.now ≡ PAGE }
    ensures { IsPage page.now }
{
    let _ = page;
}
