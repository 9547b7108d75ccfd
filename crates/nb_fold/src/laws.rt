// Laws of folding: each is a public function with an empty body, whose contract is the law.
ghost use Rattle.std.specs.Prelude.{◌≡◌, ℕ, List, [], ◌∷◌, ◌++◌, Ok};
ghost use Rattle.nb_host.specs.Files.{Files};
ghost use Rattle.nb_model.specs.Image.{Image};
ghost use Rattle.nb_model.specs.Levels.{Contents, read_level};
ghost use Rattle.nb_model.specs.Restoring.{Link, applied, level_link};
ghost use Rattle.nb_model.specs.Strokes.{merged};
ghost use Rattle.nb_fold.specs.Folding.{bytes_for, folded};
ghost use Rattle.nb_fold.specs.Same.{GiveTheSame, IsFoldOf, IsMergedInto, links_of, merged_each};
ghost use Rattle.nb_fold.specs.Verdict.{chained};

/// After whatever files, the files that go on from one another give in a restore the image that the one file gives which they were folded
/// into.
pub fn a_fold_gives_the_same_image()
    ensures { (files : Files) (names : List (List ℕ)) (cs : List Contents) (before : List Link) → chained files names ≡ Ok cs → applied (before ++ links_of cs) ≡ applied (before ++ level_link (folded cs) ∷ []) }
{}

/// What is made of files that go on from one another is read as a level file, and tells what it was made of.
pub fn a_fold_is_a_level_file()
    ensures { (files : Files) (name : List ℕ) (names : List (List ℕ)) (cs : List Contents) → chained files (name ∷ names) ≡ Ok cs → read_level (bytes_for (folded cs)) ≡ Ok (folded cs) }
{}

/// Whatever files stand before, a chain that ends with the files is accepted exactly where one that ends with their fold in their place is, and
/// both give one image.
pub fn a_fold_ends_a_chain_as_its_files()
    ensures { (files : Files) (name : List ℕ) (names : List (List ℕ)) (out : List ℕ) (cs : List Contents) (before : List (List ℕ)) → IsFoldOf files name names out cs → GiveTheSame files (before ++ name ∷ names) (before ++ out ∷ []) }
{}

/// Merged into a standby the fold gives what the files give that are merged into it one after the other.
pub fn a_fold_merges_as_its_files()
    ensures { (files : Files) (name : List ℕ) (names : List (List ℕ)) (cs : List Contents) (image : Image) → chained files (name ∷ names) ≡ Ok cs → IsMergedInto cs image → merged (folded cs).pages image ≡ merged_each cs image }
{}
