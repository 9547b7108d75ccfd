// Worked examples, computed from the definitions alone: each is a public function with an empty body, whose contract states
// what a session is answered, which pages it writes, which files are refused. All databases have pages of 1,024 bytes.
ghost use Rattle.nb_fields.specs.Bytes.{with_part};
ghost use Rattle.nb_host.specs.declared.refusals.Refusal.TheVariants.{NotAllocated, SystemPage, TextLong, WrongState, BackupRunning, ChainLevel, ChainGuid, NoFile, PageRange, NoGuid, NoHistory, NotDatabase, BadDelta, NoTable, TableExists, KeyExists, NoKey, Usage, Access as NoAccess, DeltaPresent, Unfinished, Unsound};
ghost use Rattle.nb_model.specs.Generated.{lines_from};
ghost use Rattle.nb_model.specs.Image.{page_at};
ghost use Rattle.nb_model.specs.Levels.{joined};
ghost use Rattle.nb_model.specs.Lines.{line_text};
ghost use Rattle.nb_model.specs.Output.{output, status_of};
ghost use Rattle.nb_model.specs.Run.{replies_of, rounds, strokes_of};
ghost use Rattle.nb_model.specs.Seeds.{seeded};
ghost use Rattle.nb_model.specs.Words.{job_of};
ghost use Rattle.nb_model.specs.Worked.{g, run_of, says, replies, marks, strokes, base_then, pages_held, refused, chain_files, level_1_file, broken_place, not_open, main_file, stalled_file, delta_file, standby, merged_standby, apply_reply, restore_reply, restored_text, fixup_reply};
ghost use Rattle.nb_model.specs.declared.job.Ask.TheVariants.{LockWithSize, Activate as AskActivate, Backup as AskBackup, BackupSince as AskBackupSince, Check as AskCheck, Reclaim as AskReclaim};
ghost use Rattle.nb_model.specs.declared.job.Deed.TheVariants.{Restore, Fold};
ghost use Rattle.nb_model.specs.declared.job.Job.TheVariants.{Run, Attach, Turn, Plan};
ghost use Rattle.nb_model.specs.declared.reply.Reply.TheVariants.{Done, Opened, Value, Scn, ScnPages, Activated, Level, Rows, HeaderShown, PagesShown, PageMade, Leaked, Freed, Planned, ImageShown, CacheShown, Refused, Pages};
ghost use Rattle.nb_model.specs.declared.statement.Statement.TheVariants.{Write, Read, Free, PageNew, BeginBackup, EndBackup, Activate, Backup, BackupSince, CreateTable, DropTable, Insert, Update, Delete, Get, Scan, Access, Check, Reclaim, ShowHeader, ShowPages, ShowCache};
ghost use Rattle.std.specs.Prelude.{[], ◌++◌, ◌∷◌, ◌≡◌, None, Some, codes, drop, length, replicate, take, true, false};

/// A first session: a database is made, and a page is written and read. The entry of the page is current, so that the write is one
/// stroke.
#[tactic(auto, unfolding(crate::specs::Opened::opened))]
pub fn create_write_read()
    ensures replies { replies_of (run_of 8 ((Write 6 (codes "hello") ∷ Read 6 ∷ []) ∷ []) (1 ∷ 1 ∷ [])) ≡ (1, Pages 13) ∷ (1, Done) ∷ (1, Value (codes "hello")) ∷ [] }
    ensures output { output (run_of 8 ((Write 6 (codes "hello") ∷ Read 6 ∷ []) ∷ []) (1 ∷ 1 ∷ []))
        ≡ codes "1: ok pages 13" ++ (10 ∷ (codes "1: ok" ++ (10 ∷ (codes "1: ok 'hello'" ++ 10 ∷ [])))) }
    ensures status { status_of (replies_of (run_of 8 ((Write 6 (codes "hello") ∷ Read 6 ∷ []) ∷ []) (1 ∷ 1 ∷ []))) ≡ 0 }
    ensures strokes { marks (strokes_of (run_of 8 ((Write 6 (codes "hello") ∷ Read 6 ∷ []) ∷ []) (1 ∷ 1 ∷ []))) ≡ 2000000 ∷ 6 ∷ [] }
    ensures page { page_at (base_then 8 ((Write 6 (codes "hello") ∷ Read 6 ∷ []) ∷ []) (1 ∷ 1 ∷ [])).image 6
        ≡ 8 ∷ 0 ∷ 0 ∷ 0 ∷ 2 ∷ 0 ∷ 0 ∷ 0 ∷ 1 ∷ 0 ∷ 0 ∷ 0 ∷ 6 ∷ 0 ∷ 0 ∷ 0 ∷ 5 ∷ 0 ∷ 104 ∷ 101 ∷ 108 ∷ 108 ∷ 111 ∷ replicate 1001 0 }
    ensures inventory { drop 32 (page_at (base_then 8 ((Write 6 (codes "hello") ∷ Read 6 ∷ []) ∷ []) (1 ∷ 1 ∷ [])).image 1) ≡ 0 ∷ 224 ∷ replicate 990 255 }
    ensures length { length (joined (base_then 8 ((Write 6 (codes "hello") ∷ Read 6 ∷ []) ∷ []) (1 ∷ 1 ∷ [])).image) ≡ 13312 }
{}

/// Reading, writing and freeing raw pages.
#[tactic(auto, unfolding(crate::specs::Opened::opened))]
pub fn page_refusals()
    ensures replies { says 8 (Write 2 (codes "x") ∷ Free 7 ∷ Write 7 (codes "x") ∷ Write 6 (replicate 200 65) ∷ Write 6 (replicate 201 65) ∷ Read 13 ∷ [])
        ≡ (1, Refused (SystemPage 2)) ∷ (1, Done) ∷ (1, Refused (NotAllocated 7)) ∷ (1, Done) ∷ (1, Refused (TextLong 201)) ∷ (1, Refused (PageRange 13 13)) ∷ [] }
    ensures read { says 8 (Write 6 (codes "hello") ∷ Read 6 ∷ Read 7 ∷ []) ≡ (1, Done) ∷ (1, Value (codes "hello")) ∷ (1, Value []) ∷ [] }
{}

/// A new page goes past a system place, which becomes its system page.
#[tactic(auto, unfolding(crate::specs::Opened::opened))]
pub fn system_places_on_growth()
    ensures replies { says 242 (PageNew ∷ PageNew ∷ []) ≡ (1, PageMade 247) ∷ (1, PageMade 249) ∷ [] }
    ensures strokes { strokes 242 ((PageNew ∷ PageNew ∷ []) ∷ []) (1 ∷ 1 ∷ []) ≡ 247 ∷ 1 ∷ 248 ∷ 1 ∷ 249 ∷ 1 ∷ [] }
{}

/// Begin and end in each state.
#[tactic(auto, unfolding(crate::specs::Opened::opened))]
pub fn states_in_order()
    ensures replies { says 8 (EndBackup ∷ BeginBackup ∷ BeginBackup ∷ EndBackup ∷ []) ≡ (1, Refused (WrongState 0)) ∷ (1, Scn 2) ∷ (1, Refused (WrongState 1)) ∷ (1, Scn 3) ∷ [] }
    ensures strokes { strokes 8 ((BeginBackup ∷ EndBackup ∷ []) ∷ []) (rounds 3) ≡ 2000001 ∷ 2000002 ∷ 2000003 ∷ [] }
    ensures activate { says 8 (Activate ∷ BeginBackup ∷ Activate ∷ Activate ∷ []) ≡ (1, Activated 13 1) ∷ (1, Scn 2) ∷ (1, Activated 13 3) ∷ (1, Activated 13 3) ∷ [] }
{}

/// A read-only database refuses changes, and its begin.
#[tactic(auto, unfolding(crate::specs::Opened::opened))]
pub fn access_flag()
    ensures { says 8 (Access true ∷ Write 6 (codes "x") ∷ BeginBackup ∷ Access false ∷ BeginBackup ∷ Access true ∷ [])
        ≡ (1, Done) ∷ (1, Refused (NoAccess 1)) ∷ (1, Refused (NoAccess 1)) ∷ (1, Done) ∷ (1, Scn 2) ∷ (1, Refused (WrongState 1)) ∷ [] }
{}

/// In the stalled state the SCN page is diverted before the page.
#[tactic(auto, unfolding(crate::specs::Opened::opened))]
pub fn write_while_stalled()
    ensures replies { says 8 (BeginBackup ∷ Write 6 (codes "new") ∷ Read 6 ∷ ShowHeader ∷ []) ≡ (1, Scn 2) ∷ (1, Done) ∷ (1, Value (codes "new")) ∷ (1, HeaderShown 1024 13 1 2 (g 1) true 0 2) ∷ [] }
    ensures strokes { strokes 8 ((BeginBackup ∷ Write 6 (codes "new") ∷ []) ∷ []) (1 ∷ 1 ∷ []) ≡ 2000001 ∷ 2 ∷ 6 ∷ [] }
    ensures diverted { (base_then 8 ((BeginBackup ∷ Write 6 (codes "new") ∷ []) ∷ []) (1 ∷ 1 ∷ [])).diverted ≡ 2 ∷ 6 ∷ [] }
{}

/// A second session writes between the turns of a merge.
#[tactic(auto, unfolding(crate::specs::Opened::opened))]
pub fn merge_with_a_second_session()
    ensures { replies 8 (
        (BeginBackup ∷ Write 5 (codes "x") ∷ Write 6 (codes "x") ∷ Write 7 (codes "x") ∷ Write 8 (codes "x") ∷ EndBackup ∷ []) ∷ (Write 6 (codes "y") ∷ []) ∷ [])
        (1 ∷ 1 ∷ 1 ∷ 1 ∷ 1 ∷ 1 ∷ 1 ∷ 1 ∷ 1 ∷ 2 ∷ [] ++ rounds 3)
        ≡ (1, Scn 2) ∷ (1, Done) ∷ (1, Done) ∷ (1, Done) ∷ (1, Done) ∷ (2, Done) ∷ (1, Scn 3) ∷ [] }
{}

/// While a merge or a backup runs, the end of another session is refused.
#[tactic(auto, unfolding(crate::specs::Opened::opened))]
pub fn end_of_another_session()
    ensures merge { replies 8 ((BeginBackup ∷ Write 5 (codes "x") ∷ EndBackup ∷ []) ∷ (EndBackup ∷ []) ∷ []) (1 ∷ 1 ∷ 1 ∷ 2 ∷ [] ++ rounds 3)
        ≡ (1, Scn 2) ∷ (1, Done) ∷ (2, Refused (BackupRunning 1)) ∷ (1, Scn 3) ∷ [] }
    ensures backup { replies 8 ((Backup 0 (codes "f") ∷ []) ∷ (EndBackup ∷ []) ∷ []) (1 ∷ 2 ∷ [] ++ rounds 20) ≡ (2, Refused (BackupRunning 1)) ∷ (1, Level 0 1 13 (g 1)) ∷ [] }
{}

/// A level 1 takes the pages since the level 0, and those that the backup itself changed.
#[tactic(auto, unfolding(crate::specs::Opened::opened))]
pub fn level_1()
    ensures replies { says 8 (Backup 0 (codes "a.0") ∷ Write 6 (codes "new") ∷ Backup 1 (codes "a.1") ∷ []) ≡ (1, Level 0 1 13 (g 1)) ∷ (1, Done) ∷ (1, Level 1 3 4 (g 2)) ∷ [] }
    ensures pages { pages_held (codes "a.1") chain_files ≡ Some (0 ∷ 2 ∷ 4 ∷ 6 ∷ []) }
    ensures length { length level_1_file ≡ 4188 }
    ensures none { says 8 (Backup 1 (codes "f") ∷ []) ≡ (1, Refused (NoHistory 0)) ∷ [] }
{}

/// A fourth backup links a new page before it begins.
#[tactic(auto, unfolding(crate::specs::Opened::opened))]
pub fn history_grows()
    ensures { says 8 (Backup 0 (codes "h.0") ∷ Backup 0 (codes "h.1") ∷ Backup 0 (codes "h.2") ∷ Backup 0 (codes "h.3") ∷ [])
        ≡ (1, Level 0 1 13 (g 1)) ∷ (1, Level 0 3 13 (g 2)) ∷ (1, Level 0 5 13 (g 3)) ∷ (1, Level 0 7 14 (g 4)) ∷ [] }
{}

/// A backup since a GUID has one level more than the row.
#[tactic(auto, unfolding(crate::specs::Opened::opened))]
pub fn since_a_guid()
    ensures { says 8 (
        Backup 0 (codes "a.0") ∷ Write 6 (codes "new") ∷ Backup 1 (codes "a.1") ∷ BackupSince (g 1) (codes "a.y") ∷ BackupSince (g 2) (codes "a.w") ∷ BackupSince (replicate 16 0) (codes "a.v") ∷ [])
        ≡ (1, Level 0 1 13 (g 1)) ∷ (1, Done) ∷ (1, Level 1 3 4 (g 2)) ∷ (1, Level 1 5 4 (g 3)) ∷ (1, Level 2 7 5 (g 4)) ∷ (1, Refused (NoGuid (replicate 16 0))) ∷ [] }
{}

/// Which files are no chain, and why.
#[tactic(auto, unfolding(crate::specs::Opened::opened))]
pub fn chains_refused()
    ensures chain { refused chain_files (codes "a.0" ∷ codes "a.1" ∷ codes "a.2" ∷ []) ≡ None }
    ensures level_1_first { refused chain_files (codes "a.1" ∷ []) ≡ Some (ChainLevel (codes "a.1") 1 0) }
    ensures level_2_second { refused chain_files (codes "a.0" ∷ codes "a.2" ∷ []) ≡ Some (ChainLevel (codes "a.2") 2 1) }
    ensures foreign { refused chain_files (codes "z.0" ∷ codes "a.1" ∷ []) ≡ Some (ChainGuid (codes "a.1") (g 1) (g 4)) }
    ensures level_0_second { refused chain_files (codes "a.0" ∷ codes "a.0" ∷ []) ≡ Some (ChainLevel (codes "a.0") 0 1) }
    ensures missing { refused chain_files (codes "no.0" ∷ []) ≡ Some (NoFile (codes "no.0")) }
{}

/// The first broken place of a level file.
#[tactic(auto, unfolding(crate::specs::Opened::opened))]
pub fn broken_level_files()
    ensures whole { broken_place level_1_file ≡ None }
    ensures cut { broken_place (take 4187 level_1_file) ≡ Some 4187 }
    ensures no_count { broken_place (take 4180 level_1_file) ≡ Some 4180 }
    ensures longer { broken_place (level_1_file ++ 0 ∷ []) ≡ Some 4188 }
    ensures number { broken_place (with_part 2116 (2 ∷ []) level_1_file) ≡ Some 2116 }
    ensures signature { broken_place (with_part 0 (77 ∷ []) level_1_file) ≡ Some 0 }
    ensures short { broken_place (take 51 level_1_file) ≡ Some 51 }
    ensures version { broken_place (with_part 4 (103 ∷ []) level_1_file) ≡ Some 4 }
    ensures level { broken_place (with_part 6 (10 ∷ []) level_1_file) ≡ Some 6 }
    ensures size { broken_place (with_part 40 (0 ∷ 5 ∷ []) level_1_file) ≡ Some 40 }
    ensures scn { broken_place (with_part 44 (1 ∷ []) level_1_file) ≡ Some 44 }
    ensures first { broken_place (with_part 52 (1 ∷ []) level_1_file) ≡ Some 52 }
    ensures state { broken_place (with_part 82 (0 ∷ []) level_1_file) ≡ Some 60 }
    ensures count { broken_place (with_part 4184 (5 ∷ []) level_1_file) ≡ Some 4184 }
{}

/// Why two files can't be opened.
#[tactic(auto, unfolding(crate::specs::Opened::opened))]
pub fn hostile_files()
    ensures sound { not_open (Some stalled_file) (Some delta_file) ≡ None }
    ensures short { not_open (Some (take 1000 (main_file 8))) None ≡ Some (NotDatabase 0) }
    ensures longer { not_open (Some (main_file 8 ++ 0 ∷ [])) None ≡ Some (NotDatabase 13) }
    ensures few { not_open (Some (take 4096 (main_file 8))) None ≡ Some (NotDatabase 4) }
    ensures cut { not_open (Some (take 12800 (main_file 8))) None ≡ Some (NotDatabase 12) }
    ensures count { not_open (Some stalled_file) (Some (with_part 0 (0 ∷ 1 ∷ []) delta_file)) ≡ Some (BadDelta 0) }
    ensures twice { not_open (Some stalled_file) (Some (with_part 8 (2 ∷ []) delta_file)) ≡ Some (BadDelta 0) }
    ensures slot { not_open (Some stalled_file) (Some (take 2048 delta_file)) ≡ Some (BadDelta 2) }
    ensures gone { not_open (Some stalled_file) None ≡ Some (NoFile (codes "a.db.delta")) }
{}

/// Statements on tables.
#[tactic(auto, unfolding(crate::specs::Opened::opened))]
pub fn table_refusals()
    ensures replies { says 8 (Scan (codes "t") ∷ CreateTable (codes "t") ∷ CreateTable (codes "t") ∷ Insert (codes "t") 18446744073709551615 [] ∷ Insert (codes "t") 18446744073709551615 [] ∷ Update (codes "t") 5 (codes "x") ∷ Scan (codes "t") ∷ DropTable (codes "t") ∷ Scan (codes "t") ∷ [])
        ≡ (1, Refused NoTable) ∷ (1, Done) ∷ (1, Refused TableExists) ∷ (1, Done) ∷ (1, Refused (KeyExists 18446744073709551615)) ∷ (1, Refused (NoKey 5)) ∷ (1, Rows ((18446744073709551615, []) ∷ [])) ∷ (1, Done) ∷ (1, Refused NoTable) ∷ [] }
    ensures rows { says 0 (CreateTable (codes "t") ∷ Insert (codes "t") 3 (codes "c") ∷ Insert (codes "t") 1 (codes "a") ∷ Insert (codes "t") 2 (codes "b") ∷ Insert (codes "t") 4 (codes "d") ∷ Delete (codes "t") 1 ∷ Update (codes "t") 2 (codes "B") ∷ Get (codes "t") 4 ∷ Scan (codes "t") ∷ [])
        ≡ (1, Done) ∷ (1, Done) ∷ (1, Done) ∷ (1, Done) ∷ (1, Done) ∷ (1, Done) ∷ (1, Done) ∷ (1, Value (codes "d")) ∷ (1, Rows ((2, codes "B") ∷ (3, codes "c") ∷ (4, codes "d") ∷ [])) ∷ [] }
{}

/// The pages by their kinds.
#[tactic(auto, unfolding(crate::specs::Opened::opened))]
pub fn pages_shown()
    ensures { says 8 (ShowPages ∷ Free 7 ∷ ShowPages ∷ ShowCache ∷ []) ≡ (1, PagesShown 1 1 1 2 8 0 0) ∷ (1, Done) ∷ (1, PagesShown 1 1 1 2 7 0 1) ∷ (1, CacheShown 64 7) ∷ [] }
{}

/// A check of a database from which nothing is leaked, and giving back nothing.
#[tactic(auto, unfolding(crate::specs::Opened::opened))]
pub fn checks()
    ensures fresh { says 0 (Check ∷ Reclaim ∷ []) ≡ (1, Leaked []) ∷ (1, Freed 0) ∷ [] }
    ensures closed { says 0 (Access true ∷ Check ∷ Reclaim ∷ []) ≡ (1, Done) ∷ (1, Leaked []) ∷ (1, Refused (NoAccess 1)) ∷ [] }
{}

/// So it is after statements on tables.
#[tactic(auto, unfolding(crate::specs::Opened::opened))]
pub fn check_after_tables()
    ensures tables { says 0 (CreateTable (codes "t") ∷ Insert (codes "t") 1 (codes "a") ∷ DropTable (codes "t") ∷ Check ∷ Reclaim ∷ []) ≡ (1, Done) ∷ (1, Done) ∷ (1, Done) ∷ (1, Leaked []) ∷ (1, Freed 0) ∷ [] }
{}

/// Each kind of line.
#[tactic(auto, unfolding(crate::specs::Opened::opened))]
pub fn lines_of_replies()
    ensures done { line_text 1 Done ≡ codes "1: ok" ++ 10 ∷ [] }
    ensures pages { line_text 2 (Pages 13) ≡ codes "2: ok pages 13" ++ 10 ∷ [] }
    ensures opened { line_text 1 (Opened 13 0) ≡ codes "1: ok pages 13 state 0" ++ 10 ∷ [] }
    ensures page_made { line_text 1 (PageMade 249) ≡ codes "1: ok page 249" ++ 10 ∷ [] }
    ensures value { line_text 16 (Value (codes "hello")) ≡ codes "16: ok 'hello'" ++ 10 ∷ [] }
    ensures scn { line_text 1 (Scn 2) ≡ codes "1: ok scn 2" ++ 10 ∷ [] }
    ensures activated { line_text 1 (Activated 13 3) ≡ codes "1: ok pages 13 scn 3" ++ 10 ∷ [] }
    ensures scn_pages { line_text 4 (ScnPages 3 14) ≡ codes "4: ok scn 3 pages 14" ++ 10 ∷ [] }
    ensures level { line_text 1 (Level 0 1 13 (g 1)) ≡ codes "1: ok level 0 scn 1 pages 13 guid 00000000-0000-0000-0000-000000000001" ++ 10 ∷ [] }
    ensures rows { line_text 3 (Rows ((1, codes "a") ∷ (2, codes "b") ∷ [])) ≡ codes "3: ok rows 2 1 'a' 2 'b'" ++ 10 ∷ [] }
    ensures no_rows { line_text 3 (Rows []) ≡ codes "3: ok rows 0" ++ 10 ∷ [] }
    ensures header { line_text 1 (HeaderShown 1024 13 1 2 (g 1) true 0 2) ≡ codes "1: ok size 1024 pages 13 state 1 scn 2 guid 00000000-0000-0000-0000-000000000001 forced 1 access 0 delta 2" ++ 10 ∷ [] }
    ensures pages_shown { line_text 1 (PagesShown 1 1 1 2 7 0 1) ≡ codes "1: ok header 1 inventory 1 scn 1 data 2 raw 7 other 0 free 1" ++ 10 ∷ [] }
    ensures image { line_text 1 (ImageShown 13 (replicate 31 0 ++ 171 ∷ [])) ≡ codes "1: ok pages 13 sha256 00000000000000000000000000000000000000000000000000000000000000ab" ++ 10 ∷ [] }
    ensures cache { line_text 1 (CacheShown 64 7) ≡ codes "1: ok cache 64 held 7" ++ 10 ∷ [] }
    ensures leaked { line_text 1 (Leaked (6 ∷ 12 ∷ [])) ≡ codes "1: ok leaked 2 6 12" ++ 10 ∷ [] }
    ensures none_leaked { line_text 1 (Leaked []) ≡ codes "1: ok leaked 0" ++ 10 ∷ [] }
    ensures freed { line_text 1 (Freed 2) ≡ codes "1: ok freed 2" ++ 10 ∷ [] }
    ensures unsound { line_text 1 (Refused (Unsound 5 6)) ≡ codes "1: refused 31 Unsound 5 6" ++ 10 ∷ [] }
    ensures planned { line_text 1 (Planned 3 (codes "z.0" ∷ []) (codes "a.1" ∷ codes "a.2" ∷ [])) ≡ codes "1: ok keep 3 drop 1 orphan 2 z.0 a.1 a.2" ++ 10 ∷ [] }
    ensures not_planned { line_text 1 (Planned 4 [] []) ≡ codes "1: ok keep 4 drop 0 orphan 0" ++ 10 ∷ [] }
    ensures refused { line_text 1 (Refused (ChainLevel (codes "a.1") 1 0)) ≡ codes "1: refused 16 ChainLevel a.1 1 0" ++ 10 ∷ [] }
    ensures refused_guids { line_text 1 (Refused (ChainGuid (codes "a.1") (g 1) (g 2))) ≡ codes "1: refused 17 ChainGuid a.1 00000000-0000-0000-0000-000000000001 00000000-0000-0000-0000-000000000002" ++ 10 ∷ [] }
    ensures no_words { line_text 0 (Refused Usage) ≡ codes "0: refused 1 Usage" ++ 10 ∷ [] }
{}

/// Which job the words name.
#[tactic(auto, unfolding(crate::specs::Opened::opened))]
pub fn words_name_jobs()
    ensures backup { job_of (codes "-B" ∷ codes "0" ∷ codes "a.db" ∷ codes "a.0" ∷ []) ≡ Some (Attach (codes "a.db") (AskBackup 0 (codes "a.0"))) }
    ensures behind { job_of (codes "a.db" ∷ codes "-LS" ∷ []) ≡ Some (Attach (codes "a.db") LockWithSize) }
    ensures apart { job_of (codes "-S" ∷ codes "a.db" ∷ codes "-L" ∷ []) ≡ Some (Attach (codes "a.db") LockWithSize) }
    ensures twice { job_of (codes "-L" ∷ codes "-L" ∷ codes "a.db" ∷ []) ≡ None }
    ensures restore { job_of (codes "-R" ∷ codes "b.db" ∷ codes "a.0" ∷ codes "a.1" ∷ []) ≡ Some (Turn (Restore (codes "b.db") (codes "a.0" ∷ codes "a.1" ∷ []))) }
    ensures check { job_of (codes "check" ∷ codes "a.db" ∷ []) ≡ Some (Attach (codes "a.db") AskCheck) }
    ensures reclaim { job_of (codes "reclaim" ∷ codes "a.db" ∷ []) ≡ Some (Attach (codes "a.db") AskReclaim) }
    ensures activate { job_of (codes "activate" ∷ codes "a.shd" ∷ []) ≡ Some (Attach (codes "a.shd") AskActivate) }
    ensures check_two { job_of (codes "check" ∷ codes "a.db" ∷ codes "b.db" ∷ []) ≡ None }
    ensures since { job_of (codes "-B" ∷ codes "00000000-0000-0000-0000-000000000001" ∷ codes "a.db" ∷ codes "a.y" ∷ []) ≡ Some (Attach (codes "a.db") (AskBackupSince (g 1) (codes "a.y"))) }
    ensures dashes { job_of (codes "--" ∷ codes "run" ∷ codes "-s" ∷ []) ≡ Some (Run (codes "-s")) }
    ensures number { job_of (codes "gen" ∷ codes "07" ∷ codes "g.s" ∷ []) ≡ None }
    ensures fold { job_of (codes "fold" ∷ codes "f.1" ∷ codes "a.1" ∷ codes "g.2" ∷ []) ≡ Some (Turn (Fold (codes "f.1") (codes "a.1" ∷ codes "g.2" ∷ []))) }
    ensures one_level { job_of (codes "fold" ∷ codes "f.1" ∷ codes "a.1" ∷ []) ≡ None }
    ensures plan { job_of (codes "plan" ∷ codes "3" ∷ codes "l" ∷ []) ≡ Some (Plan 3 (codes "l")) }
    ensures points { job_of (codes "plan" ∷ codes "4294967296" ∷ codes "l" ∷ []) ≡ None }
    ensures none { job_of [] ≡ None }
{}

/// A restore gives the image of the last file.
#[tactic(auto, unfolding(crate::specs::Opened::opened))]
pub fn restore_a_chain()
    ensures replies { restore_reply (codes "a.0" ∷ codes "a.1" ∷ []) ≡ Some (Pages 13) }
    ensures first { restored_text (codes "a.0" ∷ []) ≡ [] }
    ensures second { restored_text (codes "a.0" ∷ codes "a.1" ∷ []) ≡ codes "new" }
    ensures third { restored_text (codes "a.0" ∷ codes "a.1" ∷ codes "a.2" ∷ []) ≡ codes "later" }
    ensures none { restore_reply (codes "no.0" ∷ []) ≡ Some (Refused (NoFile (codes "no.0"))) }
{}

/// A level file is merged into a standby once, and only where it is read-only.
#[tactic(auto, unfolding(crate::specs::Opened::opened))]
pub fn in_place()
    ensures done { apply_reply (standby 1) ≡ Some (Pages 13) }
    ensures access { apply_reply (standby 0) ≡ Some (Refused (NoAccess 0)) }
    ensures again { apply_reply merged_standby ≡ Some (Refused (ChainGuid (codes "a.1") (g 1) (g 2))) }
    ensures pending { apply_reply (with_part 22 (3 ∷ []) (with_part 48 (g 2) (standby 1))) ≡ Some (Pages 13) }
    ensures unfinished { apply_reply (with_part 22 (3 ∷ []) (with_part 48 (g 3) (standby 1))) ≡ Some (Refused Unfinished) }
    ensures stalled { apply_reply stalled_file ≡ Some (Refused (WrongState 1)) }
{}

/// A copy of a stalled database is fixed up once, and only without a difference file.
#[tactic(auto, unfolding(crate::specs::Opened::opened))]
pub fn lock_copy_fixup()
    ensures beside { fixup_reply (Some stalled_file) (Some delta_file) ≡ Some (Refused (DeltaPresent (codes "k.db.delta"))) }
    ensures done { fixup_reply (Some stalled_file) None ≡ Some Done }
    ensures normal { fixup_reply (Some (main_file 8)) None ≡ Some (Refused (WrongState 0)) }
    ensures missing { fixup_reply None None ≡ Some (Refused (NoFile (codes "k.db"))) }
{}

/// Rows are inserted while a backup runs.
#[tactic(auto, unfolding(crate::specs::Opened::opened))]
pub fn rows_under_a_backup()
    ensures { replies 2 ((Backup 0 (codes "s.0") ∷ []) ∷ (CreateTable (codes "t") ∷ Insert (codes "t") 1 (codes "a") ∷ Insert (codes "t") 2 (codes "b") ∷ Scan (codes "t") ∷ []) ∷ (Scan (codes "t") ∷ []) ∷ []) (2 ∷ 2 ∷ 1 ∷ 2 ∷ 3 ∷ 2 ∷ [] ++ rounds 14)
        ≡ (2, Done) ∷ (2, Done) ∷ (2, Done) ∷ (3, Rows ((1, codes "a") ∷ (2, codes "b") ∷ [])) ∷ (2, Rows ((1, codes "a") ∷ (2, codes "b") ∷ [])) ∷ (1, Level 0 1 8 (g 1)) ∷ [] }
{}

/// The order of turns of seed 7 begins with session 15.
#[tactic(auto, unfolding(crate::specs::Opened::opened))]
pub fn seed_seven()
    ensures { seeded 1 7 ≡ 15 ∷ [] }
{}

/// The first line that the generator makes of a number.
#[tactic(auto, unfolding(crate::specs::Opened::opened))]
pub fn generated_script()
    ensures { lines_from 1 1 7 ≡ codes "3: read 97" ++ 10 ∷ [] }
{}
