ghost use Rattle.std.specs.Prelude.{◌≡◌, map, option_map, IfOk, None};
ghost use Rattle.std.specs.List.{slice_index_or};
ghost use Rattle.nb_catalog.specs.Lines.{is_parent, parent, parents_of, line_at, is_among};

use nb_level::LevelHead;
use std::alloc::{AllocError, Global};

/// Whether a file goes on from the one with this head.
fn is_parent(child: &LevelHead, head: &LevelHead) -> bool
    ensures { result ≡ is_parent child.now head.now }
{
    u32::from(child.level) == u32::from(head.level) + 1
        && child.previous == head.guid
        && child.previous_scn == head.scn
        && child.page_size == head.page_size
}

/// The place of the first file that a file goes on from.
fn parent(heads: &[LevelHead], child: &LevelHead) -> Option<usize>
    ensures { result ≡ parent heads.now child.now }
{
    heads.iter().position(|head| is_parent(child, head))
}

/// The place of the first file that each file goes on from.
pub(crate) fn parents(alloc: Global, heads: &[LevelHead]) -> Result<Vec<Option<usize>>, AllocError>
    ensures { IfOk result (λ v. v.items ≡ parents_of heads.now) }
{
    heads
        .iter()
        .map(|child| parent(heads, child))
        .collect(alloc)
}

fn parent_at(parents: &[Option<usize>], place: usize) -> Option<usize>
    ensures { result ≡ slice_index_or parents.now place None }
{
    if place < parents.len() {
        parents[place]
    } else {
        None
    }
}

/// Whether a place is in the line of the file of that level in that place, and none where the file has no line.
pub(crate) fn is_in_line_at(
    parents: &[Option<usize>],
    level: u16,
    place: usize,
    wanted: u32,
) -> Option<bool>
    ensures { result ≡ option_map (is_among wanted) (line_at parents.now level place) }
{
    let is_wanted = place == wanted as usize;
    if level == 0 {
        return Some(is_wanted);
    }
    let above = parent_at(parents, place)?;
    let is_above = is_in_line_at(parents, level - 1, above, wanted)?;
    Some(is_above || is_wanted)
}
