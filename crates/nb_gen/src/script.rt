// The script of a number, line by line.
ghost use Rattle.std.specs.Prelude.{◌≡◌, ◌++◌, ◌^◌, ◌/◌, IfOk, IfErr, OnOk, codes};
ghost use Rattle.std.specs.Fmt.{decimal};
ghost use Rattle.nb_host.specs.declared.faults.Fault.TheVariants.{Memory};
ghost use Rattle.nb_model.specs.Generated.{ended, generated, line_of, backup_line, lines_from, raw_page};
ghost use Rattle.nb_model.specs.Seeds.{stepped};

use nb_host::Fault;
use std::alloc::{AllocError, Global};

/// How many lines the numbers after a seed choose.
const LINES: u32 = 1000;

/// The number after one of the generator, which is linear and congruential.
#[tactic(auto, unfolding(nb_model::specs::Seeds::stepped))]
fn stepped(x: u64) -> u64
    ensures { result ≡ stepped x }
{
    x.wrapping_mul(6364136223846793005)
        .wrapping_add(1442695040888963407)
}

/// One of the raw pages 5 to 104.
fn raw_page(r: u64) -> u64
    ensures { result ≡ raw_page r }
{
    5 + (r / 3) % 100
}

/// Appends a number in decimal.
fn put_number(out: &mut Vec<u8>, number: u64) -> Result<(), AllocError>
    ensures { OnOk result (out.new.items ≡ out.old.items ++ decimal number) }
{
    let mut buffer = itoa::Buffer::new();
    out.extend_from_slice(buffer.format(number).as_bytes())
}

/// A line that inserts row `i`, without its end.
fn put_insert(out: &mut Vec<u8>, i: u32) -> Result<(), AllocError>
    ensures { OnOk result (out.new.items ≡ out.old.items ++ (codes "1: insert t " ++ (decimal i ++ (codes " 'v" ++ (decimal i ++ codes "'"))))) }
{
    out.extend_from_slice(b"1: insert t ")?;
    put_number(out, u64::from(i))?;
    out.extend_from_slice(b" 'v")?;
    put_number(out, u64::from(i))?;
    out.extend_from_slice(b"'")
}

/// A line that writes a page.
fn put_write(out: &mut Vec<u8>, page: u64, i: u32) -> Result<(), AllocError>
    ensures { OnOk result (out.new.items ≡ out.old.items ++ (codes "2: write " ++ (decimal page ++ (codes " 'w" ++ (decimal i ++ codes "'"))))) }
{
    out.extend_from_slice(b"2: write ")?;
    put_number(out, page)?;
    out.extend_from_slice(b" 'w")?;
    put_number(out, u64::from(i))?;
    out.extend_from_slice(b"'")
}

/// A line that reads a page.
fn put_read(out: &mut Vec<u8>, page: u64) -> Result<(), AllocError>
    ensures { OnOk result (out.new.items ≡ out.old.items ++ (codes "3: read " ++ decimal page)) }
{
    out.extend_from_slice(b"3: read ")?;
    put_number(out, page)
}

/// Line `i`, which the number `r` chooses.
#[tactic(auto, unfolding(nb_model::specs::Generated::line_of))]
fn put_line(out: &mut Vec<u8>, i: u32, r: u64) -> Result<(), AllocError>
    ensures { OnOk result (out.new.items ≡ out.old.items ++ line_of i r) }
{
    match r % 3 {
        0 => put_insert(out, i),
        1 => put_write(out, raw_page(r), i),
        _ => put_read(out, raw_page(r)),
    }
}

/// The line of a backup, after lines 250, 500 and 750.
#[tactic(auto, unfolding(nb_model::specs::Generated::backup_line))]
fn put_backup(out: &mut Vec<u8>, i: u32) -> Result<(), AllocError>
    ensures { OnOk result (out.new.items ≡ out.old.items ++ backup_line i) }
{
    match i {
        250 => out.extend_from_slice(b"1: backup 0 to 'gen.0'\n"),
        500 => out.extend_from_slice(b"1: backup 1 to 'gen.1'\n"),
        750 => out.extend_from_slice(b"1: backup 2 to 'gen.2'\n"),
        _ => Ok(()),
    }
}

/// Line `i` by the number `x`, and the backup after it where there is one.
fn put_one(out: &mut Vec<u8>, i: u32, x: u64) -> Result<(), AllocError>
    ensures { OnOk result (out.new.items ≡ out.old.items ++ (ended (line_of i (x / 2 ^ 33)) ++ backup_line i)) }
{
    put_line(out, i, x >> 33)?;
    out.extend_from_slice(b"\n")?;
    put_backup(out, i)
}

/// The lines that the numbers after a seed choose.
fn put_lines(out: &mut Vec<u8>, seed: u64) -> Result<(), AllocError>
    ensures { OnOk result (out.new.items ≡ out.old.items ++ lines_from 1000 1 seed) }
{
    let mut x = seed;
    for before in 0..LINES {
        x = stepped(x);
        put_one(out, before + 1, x)?;
    }
    Ok(())
}

/// What stands before these lines.
fn put_head(out: &mut Vec<u8>, n: u64) -> Result<(), AllocError>
    ensures { OnOk result (out.new.items ≡ out.old.items
        ++ (ended (codes "1: create database 'gen.db' page_size 4096 raw 100") ++ (ended (codes "seed " ++ decimal n) ++ ended (codes "1: create table t")))) }
{
    out.extend_from_slice(b"1: create database 'gen.db' page_size 4096 raw 100\nseed ")?;
    put_number(out, n)?;
    out.extend_from_slice(b"\n1: create table t\n")?;
    Ok(())
}

/// The script of that number: a database of 100 raw pages and a table, 1,000 lines that the numbers after it choose, each a row that is
/// inserted, a page that is written or a page that is read, with a backup of level 0, 1 and 2 after lines 250, 500 and 750, and at last
/// the pages by kind.
pub fn generate(alloc: Global, n: u64) -> Result<Vec<u8>, Fault>
    ensures script { IfOk result (λ bytes. bytes.items ≡ generated n) }
    ensures only_memory { IfErr result (λ fault. fault ≡ Memory) }
{
    let mut out = Vec::new(alloc);
    put_head(&mut out, n)?;
    put_lines(&mut out, n)?;
    out.extend_from_slice(b"1: show pages\n")?;
    Ok(out)
}
