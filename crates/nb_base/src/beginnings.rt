// A database is made, so that a crash leaves no half of one, and opened.
ghost use Rattle.std.specs.Prelude.{◌≡◌, ◌≢◌, ◌+◌, ◌*◌, ◌≤◌, ◌<◌, IsTrue, OnOk, IfOk, IfErr, length};
ghost use Rattle.nb_fields.specs.Places.{is_page_size, most_pages};
ghost use Rattle.nb_fields.specs.Fresh.{fresh, fresh_count};
ghost use Rattle.nb_host.specs.Causes.{CountsDevice, CountsFault};
ghost use Rattle.nb_host.specs.declared.faults.Fault.TheVariants.{Memory};
ghost use Rattle.nb_change.specs.Changes.{Changes, Only};
ghost use Rattle.nb_change.specs.Gave.{GaveNothing};
ghost use Rattle.nb_page.specs.Quiet.{Quiet};
ghost use Rattle.nb_model.specs.Account.{base_of};
ghost use Rattle.nb_model.specs.Image.{first_page};
ghost use Rattle.nb_model.specs.Trail.{Trail};
ghost use Rattle.nb_base.specs.Beginnings.{CreateLeft, CreateReads, CreatesFile, Attaches, Creates, IsSettled, first_of};
ghost use Rattle.nb_base.specs.Open.{IsOpen};
ghost use Rattle.nb_base.specs.Reads.{opening_reads};
ghost use Rattle.nb_base.specs.Stays.{FileIs, EndsWithin};

use crate::TwoFiles;
use crate::attach::{attach_delta, count_with, find_length, keep_files, read_start};
use crate::reads::read_owned;
use nb_delta::Delta;
use nb_fields::layouts::header;
use nb_fields::states::NORMAL;
use nb_host::{Fault, Host, HostFault, Name, Refusal};
use nb_page::{fresh, fresh_count, is_free};
use std::alloc::Global;

/// Makes the file of a new database. Its pages from 1 on are kept for good before page 0 is written, so that a creation
/// that was stopped leaves no database.
fn make_file<H: Host>(
    host: &mut H,
    name: &Name,
    page: &mut [u8],
    raw: u32,
    count: u32,
) -> Result<(), HostFault>
    requires size { IsTrue (is_page_size (length page.old)) }
    requires few { raw ≤ 65535 }
    requires count { count ≡ fresh_count (length page.old) raw }
    ensures left { IsTrue H.tells → Changes (H.world host.old) (H.world host.new) (Only name.now) (CreateLeft (H.world host.old) name.now (fresh (length page.old) raw)) }
    ensures reads { IsTrue H.tells → CreateReads (H.world host.old) name.now (fresh (length page.old) raw) (H.world host.new).files }
    ensures made { IsTrue H.tells → OnOk result (IsSettled (H.world host.new) name.now (base_of (fresh (length page.old) raw))) }
    ensures within { IsTrue H.tells → OnOk result (FileIs (H.world host.new) name.now (EndsWithin (count * length page.old))) }
    ensures gave { GaveNothing (H.world host.old) (H.world host.new) }
    ensures cause { CountsFault result (H.faults host.old) (H.faults host.new) }
{
    host.make(name)?;
    for number in 1..count {
        fresh(page, raw, number);
        host.write_page(name, number, page)?;
    }
    host.sync(name)?;
    fresh(page, raw, 0);
    host.write_page(name, 0, page)?;
    host.sync(name)
}

/// Makes a new database with `raw` raw pages of the length of `page`, and answers how many pages it has. The refusal is `FileExists`,
/// where the name is not free.
fn create_file<H: Host>(host: &mut H, name: &Name, page: &mut [u8], raw: u32) -> Result<u32, Fault>
    requires size { IsTrue (is_page_size (length page.old)) }
    requires raw { raw ≤ 65535 }
    ensures creates { IsTrue H.tells → CreatesFile result (H.world host.old) (H.world host.new) name.now (fresh (length page.old) raw) }
    ensures within { IsTrue H.tells → IfOk result (λ count. FileIs (H.world host.new) name.now (EndsWithin (count * length page.old))) }
    ensures gave { GaveNothing (H.world host.old) (H.world host.new) }
    ensures count { IfOk result (λ count. count ≤ most_pages) }
    ensures cause { CountsDevice result (H.faults host.old) (H.faults host.new) }
    ensures takes_none { IfErr result (λ fault. fault ≢ Memory) }
{
    if !is_free(host, name)? {
        return Err(Fault::Refused(Refusal::FileExists {
            name: name.copied(),
        }));
    }
    let count = fresh_count(page.len() as u32, raw);
    make_file(host, name, page, raw, count)?;
    Ok(count)
}

impl TwoFiles {
    /// Opens the two files of a database, and takes room for one of its pages. It changes nothing: both files are kept for good before
    /// it answers, so that no later crash takes back what was read of them. It reads the header, the allocation pages of the difference
    /// file, from the end of the main file on its pages of zeros and the one before them, and page 0 of the database, in two parts at most.
    /// It answers that page too, of which the layers above hold more.
    ///
    /// The refusals are `NoFile`, `NotDatabase`, `Unfinished`, `NoFile` of the difference file and `BadDelta`, in this order.
    pub fn attach<H: Host>(
        alloc: Global,
        host: &mut H,
        name: &Name,
    ) -> Result<(TwoFiles, Vec<u8>), Fault>
        requires name { length name.now ≤ 94 }
        ensures attaches { IsTrue H.tells → Attaches (first_of result) (H.world host.old) (H.world host.new) name.now }
        ensures durable { IsTrue H.tells → IfOk result (λ (files, page). FileIs (H.world host.new) name.now (λ file. file ≡ (H.world host.old).files name.now)) }
        ensures page { (t : Trail) → IsTrue H.tells → IfOk result (λ (files, page). IsOpen (H.world host.new) files t → page.items ≡ first_page t.base.image) }
        ensures long { IfOk result (λ (files, page). length page.items ≡ files.page_size) }
        ensures quiet { Quiet (H.world host.old) (H.world host.new) }
        ensures reads { IsTrue H.tells → IfOk result (λ (files, page). (H.world host.new).reads ≤ (H.world host.old).reads + opening_reads ((H.world host.old).files name.now) files + 2) }
        ensures cause { CountsDevice result (H.faults host.old) (H.faults host.new) }
    {
        let start = read_start(host, name)?;
        let mut page = vec![in alloc; 0; start.page_size as usize]?;
        let mut first = vec![in alloc; 0; start.page_size as usize]?;
        let beside = name.delta();
        let mut delta = attach_delta(alloc, host, &beside, start)?;
        let main_count = find_length(host, name, start.pages, &mut page)?;
        let count = count_with(host, &mut delta, main_count)?;
        keep_files(host, name, &beside, start.state)?;
        read_owned(host, name, &mut delta, 0, &mut first)?;
        let forced = header::Forced::get(&first) != 0;
        let files = TwoFiles {
            name: name.copied(),
            state: start.state,
            forced,
            count,
            main_count,
            delta,
            page,
        };
        Ok((files, first))
    }

    /// Makes a new database with `raw` raw pages, and opens it. The refusal is `FileExists`, where the name is not free; then nothing
    /// has changed. Its memory is taken first, and where that is wanting no call was made.
    pub fn create<H: Host>(
        alloc: Global,
        host: &mut H,
        name: &Name,
        page_size: u32,
        raw: u32,
    ) -> Result<TwoFiles, Fault>
        requires size { IsTrue (is_page_size page_size) }
        requires raw { raw ≤ 65535 }
        requires name { length name.now ≤ 94 }
        ensures creates { IsTrue H.tells → Creates result (H.world host.old) (H.world host.new) name.now (fresh page_size raw) }
        ensures page_size { IfOk result (λ files. files.page_size ≡ page_size) }
        ensures within { IsTrue H.tells → IfOk result (λ files. FileIs (H.world host.new) name.now (EndsWithin (length (fresh page_size raw) * page_size))) }
        ensures cause { CountsDevice result (H.faults host.old) (H.faults host.new) }
        ensures on_memory { result ≡ Err Fault.Memory → host.new ≡ host.old }
    {
        let mut page = vec![in alloc; 0; page_size as usize]?;
        let delta = Delta::blank(alloc, &name.delta(), page_size)?;
        let count = create_file(host, name, &mut page, raw)?;
        Ok(TwoFiles {
            name: name.copied(),
            state: NORMAL,
            forced: true,
            count,
            main_count: count,
            delta,
            page,
        })
    }
}
