ghost use Rattle.std.specs.Prelude.{◌≡◌, ◌≤◌, IsTrue};
ghost use Rattle.nb_fields.specs.Places.{is_page_size, slots_in, most_pages};
ghost use Rattle.nb_fields.specs.Table.{slot_place, alloc_place};

/// How many entries an allocation page has room for.
#[tactic(auto, using(nb_fields::proofs::SizeLaws::size_facts))]
pub fn slots_in(size: u32) -> u32
    requires { IsTrue (is_page_size size) }
    ensures value { result ≡ slots_in size }
    ensures least { 255 ≤ result }
    ensures most { result ≤ 8191 }
{
    size / 4 - 1
}

/// The page of a difference file that is the slot of an entry.
#[tactic(auto, unfolding(nb_fields::specs::Table::slot_place))]
pub fn slot_of(size: u32, place: u32) -> u32
    requires size { IsTrue (is_page_size size) }
    requires place { place ≤ most_pages }
    ensures value { result ≡ slot_place size place }
    ensures most { result ≤ 2097153 }
{
    place + place / slots_in(size) + 1
}

/// The page of a difference file that is the allocation page of a group.
pub fn alloc_page_of(size: u32, group: u32) -> u32
    requires size { IsTrue (is_page_size size) }
    requires group { group ≤ 4113 }
    ensures value { result ≡ alloc_place size group }
    ensures most { result ≤ 33693696 }
{
    group * (slots_in(size) + 1)
}
