// Laws of copying: each is a public function with an empty body, whose contract is the law.
ghost use Rattle.std.specs.Prelude.{◌≡◌, ◌+◌, ◌-◌, ◌<◌, ◌≤◌, ℕ, length, IsTrue};
ghost use Rattle.nb_fields.specs.Places.{is_page_size};
ghost use Rattle.nb_model.specs.Image.{Image, image_size};
ghost use Rattle.nb_copy.specs.Reading.{reads_at, pages_above, scn_pages, sum_below};

/// What the turns of all pages may read is one page for each page whose SCN entry is above the SCN of the earlier backup, one for each SCN
/// page, and page 0.
///
/// So the turns of one level together read no more. Let the host count `before p` reads before the turn of page p and `after p` after it,
/// whatever is read between two turns: as each turn reads at most `reads_at`, which `LevelCopy::turn` and `Copier::turn` promise, their sum
/// is bounded.
pub fn a_level_reads_what_changed()
    ensures turns { (image : Image) (scn : ℕ) → IsTrue (is_page_size (image_size image)) → 3 ≤ length image
        → sum_below (length image) (reads_at image scn) ≡ pages_above image scn + scn_pages image + 1 }
    ensures together { (image : Image) (scn : ℕ) (before after : ℕ → ℕ) → IsTrue (is_page_size (image_size image)) → 3 ≤ length image → ((p : ℕ) → p < length image → after p ≤ before p + reads_at image scn p)
        → sum_below (length image) (λ p. after p - before p) ≤ pages_above image scn + scn_pages image + 1 }
{}
