// Whole pages of a database that end too early, by the inventory among them.
use nb_host::Name;
use std::alloc::{AllocError, Global};

/// The type of a page inventory page, and where its bits begin.
const INVENTORY: u8 = 2;

const BITS_AT: usize = 32;

/// How many pages a file has, and how many its inventory counts, which are more.
#[derive(Clone, Copy, Debug, PartialEq, Eq)]
pub struct Cut {
    pub pages: u64,
    pub counted: u64,
}

/// How many pages an inventory page counts, where pages have so many bytes.
fn bits_in(size: u64) -> u64 {
    size.saturating_sub(BITS_AT as u64).saturating_mul(8)
}

/// The highest bit that says of its page that it is taken, which is a 0.
fn highest_taken(bits: &[u8]) -> Option<u64> {
    let mut highest = None;
    let mut at: u64 = 0;
    for byte in bits {
        if *byte != 255 {
            highest = Some(at.saturating_add(u64::from(7u32.saturating_sub(byte.leading_ones()))));
        }
        at = at.saturating_add(8);
    }
    highest
}

impl Cut {
    /// The page with the inventory of what follows that many pages. It is one of them, unless there are fewer than two.
    pub fn inventory(size: u32, pages: u64) -> u64 {
        let first = Cut::first_counted(u64::from(size), pages);
        if first == 0 {
            1
        } else {
            first.saturating_sub(1)
        }
    }

    /// The first page that this inventory page counts.
    fn first_counted(size: u64, pages: u64) -> u64 {
        let bits = bits_in(size);
        pages.checked_div(bits).unwrap_or(0).saturating_mul(bits)
    }

    /// Whether that many pages end before one that this inventory page has taken. None where they don't, and where it is no inventory page.
    pub fn of(inventory: &[u8], pages: u64) -> Option<Cut> {
        let (head, bits) = inventory.split_at_checked(BITS_AT)?;
        if head[0] != INVENTORY {
            return None;
        }
        let first = Cut::first_counted(inventory.len() as u64, pages);
        let counted = first.saturating_add(highest_taken(bits)?).saturating_add(1);
        if counted > pages {
            Some(Cut { pages, counted })
        } else {
            None
        }
    }
}

/// What is to be said of a file that ends too early, as a copy onto a full disk does, and of what was made of it.
pub fn cut_off(
    alloc: Global,
    file: &Name,
    cut: &Cut,
    made: Option<&Name>,
) -> Result<String, AllocError> {
    let Cut { pages, counted } = cut;
    let lacks = match made {
        Some(db) => format!(in alloc; ", and {db} may lack what is missing")?,
        None => String::new(alloc),
    };
    format!(in alloc;
        "{file} lacks its end: it has {pages} pages, and its inventory counts {counted}{lacks}: compare its length with the pages that its backup's reply gave, take another copy of it, and remove no older backup until then"
    )
}
