// Laws on the rows of tables, in the form of those in `laws`: tables are finite maps, also where the program is stopped.
ghost use Rattle.nb_model.specs.Account.{Ask, Base};
ghost use Rattle.nb_model.specs.Chains.{table_spot};
ghost use Rattle.nb_model.specs.Image.{Image, image_scn, image_state};
ghost use Rattle.nb_model.specs.Outcomes.{Seen};
ghost use Rattle.nb_model.specs.RowChanges.{ChangesRows, KeepsRows};
ghost use Rattle.nb_model.specs.Rows.{IsNeat, IsRising, RowMap, row_at, rows, with_row, without_row};
ghost use Rattle.nb_model.specs.Sound.{HasHeader, IsSoundImage};
ghost use Rattle.nb_model.specs.Strokes.{base_after, begin, ends as ends_stroke, finish};
ghost use Rattle.nb_model.specs.TableNames.{is_table_name};
ghost use Rattle.nb_model.specs.Turns.{first_turn};
ghost use Rattle.nb_model.specs.declared.reply.Reply.TheVariants.{Done, Rows, Value};
ghost use Rattle.nb_model.specs.declared.statement.Statement.TheVariants.{Access as SetAccess, CreateTable, Delete, DropTable, Forced, Free, Get, Insert, PageNew, Scan, Update, Write};
ghost use Rattle.nb_fields.specs.Fresh.{fresh};
ghost use Rattle.nb_fields.specs.Places.{is_page_size};
ghost use Rattle.nb_fields.specs.States.{stalled_state};
ghost use Rattle.std.specs.Prelude.{Bool, IsTrue, List, None, Option, Some, [], is_some, length, true, ℕ, ◌<◌, ◌∷◌, ◌≡◌, ◌≤◌};

/// The keys of a table's rows rise, so that two tables have the same rows where each key has the same text in both.
pub fn rows_rise()
    ensures rise { (image : Image) (table : List ℕ) → IsRising (rows image table) }
    ensures same { (a b : RowMap) → IsRising a → IsRising b → ((key : ℕ) → row_at key a ≡ row_at key b) → a ≡ b }
{}

/// `insert` is done where no row of the table has the key, and puts the text under it.
pub fn a_row_is_inserted()
    ensures new { (s : Seen) (session : ℕ) (table : List ℕ) (key : ℕ) (text : List ℕ) → (first_turn s session (Insert table key text)).reply ≡ Some Done → row_at key (rows s.base.image table) ≡ None }
    ensures rows { (s : Seen) (session : ℕ) (table : List ℕ) (key : ℕ) (text : List ℕ) → HasHeader s.base.image → IsSoundImage s.base.image → IsNeat s.base.image → key < 18446744073709551616
        → (first_turn s session (Insert table key text)).reply ≡ Some Done → ChangesRows s.base (first_turn s session (Insert table key text)).strokes table (with_row key text (rows s.base.image table)) }
{}

/// `update` is done where a row of the table has the key, and puts the text under it.
pub fn a_row_is_updated()
    ensures there { (s : Seen) (session : ℕ) (table : List ℕ) (key : ℕ) (text : List ℕ) → (first_turn s session (Update table key text)).reply ≡ Some Done → is_some (row_at key (rows s.base.image table)) ≡ true }
    ensures rows { (s : Seen) (session : ℕ) (table : List ℕ) (key : ℕ) (text : List ℕ) → HasHeader s.base.image → IsSoundImage s.base.image → IsNeat s.base.image → key < 18446744073709551616
        → (first_turn s session (Update table key text)).reply ≡ Some Done → ChangesRows s.base (first_turn s session (Update table key text)).strokes table (with_row key text (rows s.base.image table)) }
{}

/// `delete` is done where a row of the table has the key, and takes it out.
pub fn a_row_is_deleted()
    ensures there { (s : Seen) (session : ℕ) (table : List ℕ) (key : ℕ) → (first_turn s session (Delete table key)).reply ≡ Some Done → is_some (row_at key (rows s.base.image table)) ≡ true }
    ensures rows { (s : Seen) (session : ℕ) (table : List ℕ) (key : ℕ) → HasHeader s.base.image → IsSoundImage s.base.image → IsNeat s.base.image
        → (first_turn s session (Delete table key)).reply ≡ Some Done → ChangesRows s.base (first_turn s session (Delete table key)).strokes table (without_row key (rows s.base.image table)) }
{}

/// `get` answers the text under the key, and `scan` all rows.
pub fn rows_are_read()
    ensures get { (s : Seen) (session : ℕ) (table : List ℕ) (key : ℕ) (text : List ℕ) → (first_turn s session (Get table key)).reply ≡ Some (Value text) → row_at key (rows s.base.image table) ≡ Some text }
    ensures scan { (s : Seen) (session : ℕ) (table : List ℕ) (rs : RowMap) → (first_turn s session (Scan table)).reply ≡ Some (Rows rs) → rs ≡ rows s.base.image table }
{}

/// `create table` puts the table into the catalogue, with no row.
pub fn a_table_is_created()
    ensures there { (s : Seen) (session : ℕ) (table : List ℕ) → HasHeader s.base.image → IsSoundImage s.base.image → IsNeat s.base.image → is_table_name table ≡ true → (first_turn s session (CreateTable table)).reply ≡ Some Done
        → is_some (table_spot table (base_after s.base (first_turn s session (CreateTable table)).strokes).image) ≡ true }
    ensures rows { (s : Seen) (session : ℕ) (table : List ℕ) → HasHeader s.base.image → IsSoundImage s.base.image → IsNeat s.base.image → is_table_name table ≡ true → (first_turn s session (CreateTable table)).reply ≡ Some Done
        → ChangesRows s.base (first_turn s session (CreateTable table)).strokes table [] }
{}

/// `drop table` takes the table out of the catalogue, and leaves no row of it.
pub fn a_table_is_dropped()
    ensures gone { (s : Seen) (session : ℕ) (table : List ℕ) → HasHeader s.base.image → IsSoundImage s.base.image → IsNeat s.base.image → (first_turn s session (DropTable table)).reply ≡ Some Done
        → table_spot table (base_after s.base (first_turn s session (DropTable table)).strokes).image ≡ None }
    ensures rows { (s : Seen) (session : ℕ) (table : List ℕ) → HasHeader s.base.image → IsSoundImage s.base.image → IsNeat s.base.image → (first_turn s session (DropTable table)).reply ≡ Some Done
        → ChangesRows s.base (first_turn s session (DropTable table)).strokes table [] }
{}

/// A new database is neat: its chains are of the form, and no two of them share a page.
pub fn a_new_database_is_neat()
    ensures { (size raw : ℕ) → IsTrue (is_page_size size) → raw ≤ 65535 → IsNeat (fresh size raw) }
{}

/// Statements on raw pages and on a byte of the header change no row, and leave the image neat at each stroke.
pub fn raw_pages_keep_rows()
    ensures new { (s : Seen) (session : ℕ) → HasHeader s.base.image → IsSoundImage s.base.image → IsNeat s.base.image → KeepsRows s.base (first_turn s session PageNew).strokes }
    ensures write { (s : Seen) (session p : ℕ) (text : List ℕ) → HasHeader s.base.image → IsSoundImage s.base.image → IsNeat s.base.image → KeepsRows s.base (first_turn s session (Write p text)).strokes }
    ensures free { (s : Seen) (session p : ℕ) → HasHeader s.base.image → IsSoundImage s.base.image → IsNeat s.base.image → KeepsRows s.base (first_turn s session (Free p)).strokes }
    ensures forced { (s : Seen) (session : ℕ) (on : Bool) → HasHeader s.base.image → IsSoundImage s.base.image → IsNeat s.base.image → KeepsRows s.base (first_turn s session (Forced on)).strokes }
    ensures access { (s : Seen) (session : ℕ) (closed : Bool) → HasHeader s.base.image → IsSoundImage s.base.image → IsNeat s.base.image → KeepsRows s.base (first_turn s session (SetAccess closed)).strokes }
{}

/// So do the control strokes of a backup.
pub fn control_strokes_keep_rows()
    ensures begins { (b : Base) (guid : List ℕ) (ask : Option Ask) → HasHeader b.image → IsSoundImage b.image → IsNeat b.image → image_scn b.image ≤ 4294967293 → length guid ≡ 16 → KeepsRows b (begin guid ask ∷ []) }
    ensures ends { (b : Base) → HasHeader b.image → IsSoundImage b.image → IsNeat b.image → image_state b.image ≡ stalled_state → KeepsRows b (ends_stroke ∷ []) }
    ensures finishes { (b : Base) → HasHeader b.image → IsSoundImage b.image → IsNeat b.image → KeepsRows b (finish ∷ []) }
{}
