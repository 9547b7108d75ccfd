// Laws on the facts of inventories and on leaked pages. Each is a function that does nothing: its contract is the law.
ghost use Rattle.std.specs.Prelude.{◌≡◌, ◌<◌, ◌≤◌, ℕ, IsTrue, None, length};
ghost use Rattle.nb_fields.specs.Places.{is_page_size, most_pages};
ghost use Rattle.nb_model.specs.Account.{Base};
ghost use Rattle.nb_model.specs.Image.{Image, image_size};
ghost use Rattle.nb_model.specs.RowChanges.{KeepsRows};
ghost use Rattle.nb_model.specs.Rows.{IsNeat};
ghost use Rattle.nb_model.specs.Sound.{HasHeader, IsOfSize, IsSoundImage, SoundInventory};
ghost use Rattle.nb_model.specs.Facts.{unsound};
ghost use Rattle.nb_check.specs.Laws.{Reclaims};
ghost use Rattle.nb_model.specs.Leaks.{is_among, leaked, is_leaked};
ghost use Rattle.nb_model.specs.Checks.{check_cause, reclaimed};

/// The inventories are sound exactly where no fact is broken, in any image of pages of one of the six sizes, however short. A database
/// whose check isn't refused is sound as a whole: the chains of the catalogue and of the history make it five pages long. That its pages
/// have the size that its header names, and that there aren't more than a database may have, is true of each that is open.
pub fn a_sound_image_breaks_no_fact()
    ensures sound { (image : Image) → IsTrue (is_page_size (image_size image)) → unsound image ≡ None → SoundInventory image }
    ensures none { (image : Image) → IsTrue (is_page_size (image_size image)) → SoundInventory image → unsound image ≡ None }
    ensures whole { (image : Image) → IsTrue (is_page_size (image_size image)) → check_cause image ≡ None → IsOfSize (image_size image) image → length image ≤ most_pages → IsSoundImage image }
{}

/// The leaked pages are just those that are taken data pages which nothing reaches, and a reclaim gives them back: none is leaked after it,
/// and at each front of its strokes, where a crash may leave the database, the last of them are. All else stays, and so a neat database
/// stays neat, with the rows of every table.
pub fn leaked_pages_are_given_back()
    ensures each { (image : Image) (p : ℕ) → p < length image → is_among p (leaked image) ≡ is_leaked image p }
    ensures given { (b : Base) → HasHeader b.image → IsSoundImage b.image → check_cause b.image ≡ None → Reclaims b (reclaimed b.image).strokes }
    ensures rows { (b : Base) → HasHeader b.image → IsSoundImage b.image → IsNeat b.image → KeepsRows b (reclaimed b.image).strokes }
{}
