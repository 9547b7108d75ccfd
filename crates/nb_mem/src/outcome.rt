ghost use Rattle.std.specs.Prelude.{◌≡◌, ◌<◌, length, IfOk, OnOk};
ghost use Rattle.nb_host.specs.Files.{bytes_of};
ghost use Rattle.nb_mem.specs.Chosen.{grown, page_by, torn_by, bytes_by, settled, anew_by, behind, outcome_after, choices_after};

use crate::bytes::Bytes;
use crate::choices::Choices;
use crate::entry::Change;
use crate::slots::{extend, write};
use std::alloc::{AllocError, Global};

/// What a crash leaves of a file: as it was made last, or as it was before that.
#[derive(Drop)]
pub struct Outcome {
    pub left: Option<Bytes>,
    pub is_back: bool,
}

pub fn copy_file(alloc: Global, file: &Option<Bytes>) -> Result<Option<Bytes>, AllocError>
    ensures { IfOk result (λ copy. copy ≡ file.now) }
{
    match file {
        Some(bytes) => Ok(Some(Bytes::copy(alloc, bytes.as_slice())?)),
        None => Ok(None),
    }
}

pub fn length_of(file: &Option<Bytes>) -> usize
    ensures { result ≡ length (bytes_of file.now) }
{
    match file {
        Some(bytes) => bytes.len(),
        None => 0,
    }
}

/// The file grows by whole pages of zeros, up to the end of the page at that place.
fn grow(alloc: Global, left: &mut Option<Bytes>, at: usize, page: &[u8]) -> Result<(), AllocError>
    ensures { OnOk result (left.new ≡ grown at page.now left.old) }
{
    if page.len() == 0 || at > usize::MAX - page.len() {
        return Err(AllocError);
    }
    let pages = (at + page.len()).saturating_sub(length_of(left)) / page.len();
    match left {
        Some(bytes) => bytes.append_zeros(pages * page.len())?,
        None => {
            let mut bytes = Bytes::new(alloc);
            bytes.append_zeros(pages * page.len())?;
            *left = Some(bytes);
        }
    }
    Ok(())
}

/// A page was written: it is kept, or lost. Where it lay past the end, the file may have grown all the same.
#[tactic(auto, unfolding(crate::specs::Chosen::page_by))]
fn leave_page(
    alloc: Global,
    left: &mut Option<Bytes>,
    at: usize,
    page: &[u8],
    choices: &mut Choices,
) -> Result<(), AllocError>
    ensures file { OnOk result (left.new ≡ (page_by choices.old at page.now left.old).0) }
    ensures choices { OnOk result (choices.new ≡ (page_by choices.old at page.now left.old).1) }
{
    if choices.choose() {
        write(alloc, left, at, page)?;
        return Ok(());
    }
    if length_of(left) <= at {
        if choices.choose() {
            grow(alloc, left, at, page)?;
            return Ok(());
        }
    }
    Ok(())
}

/// The first half of the bytes, and then zeros or nothing.
#[tactic(auto, unfolding(crate::specs::Chosen::torn_by))]
fn torn(alloc: Global, bytes: &[u8], is_padded: bool) -> Result<Bytes, AllocError>
    ensures { IfOk result (λ torn. torn ≡ torn_by is_padded bytes.now) }
{
    let half = bytes.len() / 2;
    let mut torn = Bytes::copy(alloc, &bytes[..half])?;
    if is_padded {
        torn.append_zeros(bytes.len() - half)?;
    }
    Ok(torn)
}

/// Bytes were appended where the file had that length: they are kept, or lost, or torn.
#[tactic(auto, unfolding(crate::specs::Chosen::bytes_by))]
fn leave_bytes(
    alloc: Global,
    left: &mut Option<Bytes>,
    len: usize,
    bytes: &[u8],
    choices: &mut Choices,
) -> Result<(), AllocError>
    ensures file { OnOk result (left.new ≡ (bytes_by choices.old len bytes.now left.old).0) }
    ensures choices { OnOk result (choices.new ≡ (bytes_by choices.old len bytes.now left.old).1) }
{
    if length_of(left) != len {
        return Ok(());
    }
    if !choices.choose() {
        return Ok(());
    }
    if choices.choose() {
        extend(alloc, left, bytes)?;
        return Ok(());
    }
    let torn = torn(alloc, bytes, choices.choose())?;
    extend(alloc, left, torn.as_slice())?;
    Ok(())
}

impl Outcome {
    /// It goes on by a change of the file, which had that length before and reads so then. Where the file is settled, the
    /// choices begin again as they were at first.
    #[tactic(auto, unfolding(crate::specs::Chosen::outcome_after, crate::specs::Chosen::choices_after))]
    pub fn follow(
        &mut self,
        alloc: Global,
        change: &Change,
        len: usize,
        file: &Option<Bytes>,
        first: Choices,
        choices: &mut Choices,
    ) -> Result<(), AllocError>
        ensures outcome { OnOk result (self.new ≡ outcome_after first change.now len file.now self.old choices.old) }
        ensures choices { OnOk result (choices.new ≡ choices_after first change.now len self.old choices.old) }
    {
        match change {
            Change::Placed(_) => {
                self.settle(alloc, file)?;
                *choices = first;
            }
            Change::Made => self.start_anew(alloc, file, choices)?,
            Change::Removed => self.start_anew(alloc, file, choices)?,
            Change::Paged(at, page) => {
                if !self.is_back {
                    leave_page(alloc, &mut self.left, *at, page.as_slice(), choices)?;
                }
            }
            Change::Appended(bytes) => {
                if !self.is_back {
                    leave_bytes(alloc, &mut self.left, len, bytes.as_slice(), choices)?;
                }
            }
            Change::Synced => {
                self.settle(alloc, file)?;
                *choices = first;
            }
        }
        Ok(())
    }

    /// Nothing is left but the file.
    fn settle(&mut self, alloc: Global, file: &Option<Bytes>) -> Result<(), AllocError>
        ensures { OnOk result (self.new ≡ settled file.now) }
    {
        self.left = copy_file(alloc, file)?;
        self.is_back = false;
        Ok(())
    }

    /// The file was made or removed: so it is, or as it was.
    #[tactic(auto, unfolding(crate::specs::Chosen::anew_by))]
    fn start_anew(
        &mut self,
        alloc: Global,
        file: &Option<Bytes>,
        choices: &mut Choices,
    ) -> Result<(), AllocError>
        ensures outcome { OnOk result (self.new ≡ anew_by choices.old file.now self.old) }
        ensures choices { OnOk result (choices.new ≡ behind choices.old) }
    {
        if choices.choose() {
            self.settle(alloc, file)?;
            return Ok(());
        }
        self.is_back = true;
        Ok(())
    }
}
