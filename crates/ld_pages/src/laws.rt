//! A law of the definition.
ghost use Rattle.std.specs.Prelude.{ℕ, ◌≡◌, List, Option};
ghost use Rattle.ld_pages.specs.declared.cursor.Fault.{Fault};
ghost use Rattle.ld_pages.specs.declared.cursor.Item.{Item};
ghost use Rattle.ld_pages.specs.declared.layout.Layout.{Layout};
ghost use Rattle.ld_pages.specs.Reads.{PagesGive};

/// Pages give one list of items, and one end or fault.
pub fn one_reading()
    ensures { (l : Layout) (bytes : List ℕ) (is js : List Item) (f g : Option Fault) →
        PagesGive l bytes is f → PagesGive l bytes js g → (is ≡ js) × (f ≡ g) }
{
    let _law = ();
}
