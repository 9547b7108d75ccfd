// Laws of pages that wait in memory: what a crash leaves while they do, and on their way into the files.
ghost use Rattle.std.specs.Prelude.{◌≡◌, ◌≢◌, ◌<◌, ◌≤◌, ℕ, [], Bool, length, true, false};
ghost use Rattle.nb_model.specs.Account.{Base};
ghost use Rattle.nb_fields.specs.Places.{is_scn_place};
ghost use Rattle.nb_fields.specs.States.{stalled_state};
ghost use Rattle.nb_model.specs.Behind.{IsBehind, IsEntering, IsOnTheWay, IsRead};
ghost use Rattle.nb_model.specs.Image.{Page, page_at, image_size, image_state, is_forced};
ghost use Rattle.nb_model.specs.Earlier.{AreInStep, IsCovered};
ghost use Rattle.nb_model.specs.Strokes.{on_base, page as page_stroke};
ghost use Rattle.nb_model.specs.Trail.{IsFirm, IsLeft, Trail, after_stroke, bases_of};

/// Where no SCN page waits, what is left of databases in step is covered, and it is what may be left.
pub fn firm_is_covered()
    ensures covered { (t : Trail) (b : Base) → IsFirm t b → AreInStep (bases_of t) → IsCovered b }
    ensures left { (t : Trail) (b : Base) → IsFirm t b → IsLeft t b }
    ensures itself { (t : Trail) → IsFirm t t.base }
{}

/// What files leave that are behind may be left of what was seen. So it is on the way on which the pages that wait go out: while pages
/// go into their slots or SCN pages into the main file, and while entries go into the table.
pub fn files_may_be_behind()
    ensures left { (f t : Trail) (b : Base) → IsBehind f t → IsFirm f b → IsLeft t b }
    ensures firm { (f t : Trail) (b : Base) → IsBehind f t → ((p : ℕ) → is_scn_place (image_size t.base.image) p ≡ true → page_at f.base.image p ≡ page_at t.base.image p) → IsFirm f b → IsFirm t b }
    ensures on_the_way { (f t : Trail) (b : Base) → IsBehind f t → t.earlier ≢ [] → IsOnTheWay f t b → IsLeft t b }
    ensures entering { (f t : Trail) (b : Base) → IsBehind f t → t.earlier ≢ [] → IsEntering f t b → IsLeft t b }
{}

/// While pages that wait go out one by one, what is left stays on the way: SCN pages first, and then each other page. What reads has the
/// pages that are out as they are seen, and once none waits it is what is seen.
pub fn pages_go_out()
    ensures start { (f t : Trail) (b : Base) → IsBehind f t → image_state t.base.image ≢ stalled_state → IsFirm f b → IsOnTheWay f t b }
    ensures scn_page { (f t : Trail) (b : Base) (p : ℕ) → 1 ≤ p → p < length t.base.image → image_state t.base.image ≢ stalled_state → is_scn_place (image_size t.base.image) p ≡ true → IsOnTheWay f t b
        → IsOnTheWay f t (on_base (page_stroke p (page_at t.base.image p)) b) }
    ensures other { (t : Trail) (b : Base) (p : ℕ) → 1 ≤ p → p < length t.base.image → image_state t.base.image ≢ stalled_state → is_scn_place (image_size t.base.image) p ≡ false → t.earlier ≢ [] → IsFirm t b
        → IsFirm t (on_base (page_stroke p (page_at t.base.image p)) b) }
    ensures reads { (f t : Trail) (waits : ℕ → Bool) (r : Base) → IsBehind f t → t.earlier ≢ [] → IsRead f t waits r → ((p : ℕ) → is_scn_place (image_size t.base.image) p ≡ true → waits p ≡ false) → IsFirm t r }
    ensures done { (f t : Trail) (waits : ℕ → Bool) (r : Base) → IsRead f t waits r → ((p : ℕ) → waits p ≡ false) → r ≡ t.base }
{}

/// A page that waits is seen at once, and the files are behind then. They are not behind where nothing waits.
pub fn a_page_waits()
    ensures itself { (t : Trail) → IsBehind t t }
    ensures one { (f t : Trail) (p : ℕ) (bytes : Page) → IsBehind f t → 1 ≤ p → p < length t.base.image → is_forced t.base.image ≡ false → IsBehind f (after_stroke (page_stroke p bytes) t) }
    ensures unsettled { (f t : Trail) (p : ℕ) (bytes : Page) → IsBehind f t → 1 ≤ p → p < length t.base.image → is_forced t.base.image ≡ false → (after_stroke (page_stroke p bytes) t).earlier ≢ [] }
{}
