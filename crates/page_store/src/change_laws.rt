//! Laws of images whose readable pages were changed. The function does nothing: it has its law as its contract.
ghost use Rattle.std.specs.Prelude.{◌≡◌, ◌⊎◌, ◌<◌, ◌^◌, ℕ, List, slice_get};
ghost use Rattle.platform.specs.Image.{Image};
ghost use Rattle.node_codec.specs.Record.{Record};
ghost use Rattle.page_store.specs.Changing.{Collides, IsReadChanged};

/// Under a key with a digest, what is a record where readable pages were changed is the page that was recorded there, and so the
/// record that it was; or the page is another one of the same digest.
pub fn same_page_or_collides()
    ensures page { (image changed : Image) (addr : ℕ) (key : List ℕ) (value other : Record) →
        IsReadChanged image changed addr key value other →
        (slice_get changed.readable addr ≡ slice_get image.readable addr) ⊎ Collides changed addr }
    ensures value { (image changed : Image) (addr : ℕ) (key : List ℕ) (value other : Record) → addr < 2 ^ 64 →
        IsReadChanged image changed addr key value other → (other ≡ value) ⊎ Collides changed addr }
{}
