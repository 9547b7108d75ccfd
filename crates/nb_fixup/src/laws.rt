// Laws of a fixup: each is a public function with an empty body, whose contract is the law.
ghost use Rattle.nb_fields.specs.Header.{guid_of};
ghost use Rattle.nb_host.specs.Files.{Files};
ghost use Rattle.nb_host.specs.Names.{is_delta};
ghost use Rattle.nb_model.specs.Account.{Account, Kept};
ghost use Rattle.nb_model.specs.Image.{image_in};
ghost use Rattle.nb_model.specs.Stands.{IsKeptAs, Stands};
ghost use Rattle.std.specs.Prelude.{List, false, ◌≡◌, ℕ};
ghost use Rattle.nb_fixup.specs.Fixup.{IsFixable};

/// A copy that can be fixed, and whose GUID is that of a kept backup, has the image that the begin of that backup kept.
pub fn a_kept_copy_has_its_image()
    ensures { (files : Files) (account : Account) (name bytes : List ℕ) (r : Kept) → Stands files account → is_delta name ≡ false → IsFixable files name bytes → IsKeptAs account.kept (guid_of bytes) r
        → image_in bytes ≡ r.image }
{}
